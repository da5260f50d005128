//! The types of a circuit's names, from the type checks.
ghost use Rattle.std.specs.Prelude.{◌≡◌, ◌<◌, length, option_map};
ghost use Rattle.gg_bits.specs.Shape.{shape};
ghost use Rattle.gg_types.specs.inside.Typed.{sort};
ghost use Rattle.gg_elab_sites.specs.Known.{types_of, value_shape};

use gg_ast::Reference;
use gg_bits::Ty;
use gg_types::{Typed, Typing};

// The type, if there is one and it isn't a Clock.
fn ground(typing: Option<Typing>) -> Option<Ty>
    ensures { option_map (λ ty. shape ty) result ≡ value_shape (option_map sort typing) }
{
    match typing? {
        Typing::Ground(ty) => Some(ty),
        Typing::Clock => None,
    }
}

/// The type of what a reference names in a module. None if it names nothing that has a value, or a Clock.
pub fn value_type(typed: &Typed, number: u32, reference: &Reference) -> Option<Ty>
    requires { number < length typed.now.circuit.modules }
    ensures { option_map (λ ty. shape ty) result ≡ types_of typed.now.circuit number reference.now }
{
    ground(typed.typing(number, reference))
}
