//! Where a name gets a Clock from.

/// Where a declared name of a module gets a Clock from.
#[derive(Clone, Copy, PartialEq, Eq)]
pub enum Way {
    /// From outside the module: an input port.
    FromOutside,
    /// From its driver: a wire or a node.
    FromDriver,
    /// From nowhere that is followed.
    Nowhere,
}
