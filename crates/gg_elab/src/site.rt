//! `Site`: a site of the circuit while its signals are added.
ghost use Rattle.std.specs.Prelude.{◌≡◌, length};
ghost use Rattle.std.specs.Coded.{codes, Coded-set};
ghost use Rattle.std.proofs.Props.{props};
ghost use Rattle.gg_ast.specs.contracts.expression.Expr as expression;
ghost use Rattle.gg_elab_sites.specs.Known.{types_of};
ghost use Rattle.gg_elab_sites.specs.inside.Views.{AreDigests, IsPlaceIn};

use gg_elab_sites::{Digest, Place, Table};
use gg_types::Typed;

// A site, and what gives its signals their drivers: what the type checks say, the circuit's signals, and what each
// module says.
#[derive(Clone, Copy)]
pub(crate) struct Site<'s, 'a> {
    pub(crate) typed: &'s Typed<'a>,
    pub(crate) table: &'s Table,
    pub(crate) digests: &'s [Digest<'a>],
    pub(crate) place: &'s Place<'a>,
    ghost even: { length table.now.types.items ≡ length table.now.paths },
    ghost told: { AreDigests (types_of typed.now.circuit) typed.now.circuit.modules digests.now } by { Prim.hlevel (codes, Coded-set, expression.the_row.coded) },
    ghost within: { IsPlaceIn typed.now.circuit.modules place.now } by { Prim.hlevel props },
}
