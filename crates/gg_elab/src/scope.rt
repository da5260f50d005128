//! `Scope`: where names are written.
ghost use Rattle.std.specs.Prelude.{◌≡◌, ◌<◌, length};

use gg_bits::Name;
use gg_elab_sites::Table;
use gg_types::Typed;

// What gives an expression its meaning: what the type checks say, the circuit's signals, the site's path, and the
// place of the site's module.
#[derive(Clone, Copy)]
pub(crate) struct Scope<'a> {
    pub(crate) typed: &'a Typed<'a>,
    pub(crate) table: &'a Table,
    pub(crate) path: &'a Name,
    pub(crate) number: u32,
    ghost there: { number < length typed.now.circuit.modules },
    ghost even: { length table.now.types.items ≡ length table.now.paths },
}
