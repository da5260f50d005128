//! `Small`: a type in two bytes.
ghost use Rattle.std.specs.Prelude.{◌≤◌};

use gg_bits::Kind;

// A type, in two bytes.
#[derive(Clone, Copy)]
pub(crate) struct Small {
    // Whether values are signed.
    pub(crate) kind: Kind,
    // How many bits a value has.
    pub(crate) width: u8,
    pub(crate) ghost positive: { 1 ≤ width },
    pub(crate) ghost bounded: { width ≤ 128 },
}
