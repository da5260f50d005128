//! Types as they are written, and the type data of names.
ghost use Rattle.std.specs.Prelude.{◌≡◌};
ghost use Rattle.gg_types.specs.Owned.{field_sort};
ghost use Rattle.gg_types.specs.Sorts.{sort_of};

use gg_ast::GroundType;
use gg_bits::{Kind, Ty};
use gg_flat::address_width;
use gg_shape_names::PortField;

/// A type as it is written, or the type of an expression of such types.
#[derive(Clone, Copy, PartialEq, Eq)]
pub enum Sort {
    /// A UInt or an SInt of this many bits, which may be 0 or more than 128.
    Bits(Kind, u32),
    /// A clock. Only a reference has this type.
    Clock,
}

/// The type of a name of a circuit without faults.
#[derive(Clone, Copy, PartialEq, Eq)]
pub enum Typing {
    /// A UInt or an SInt of 1 to 128 bits.
    Ground(Ty),
    /// A clock.
    Clock,
}

/// The type data of a declared name.
#[derive(Clone, Copy, PartialEq, Eq)]
pub enum Own {
    /// A port, a wire, a register or a node: its type.
    Single(Sort),
    /// An instance: nothing.
    Instance,
    /// A memory: the type and the number of its words, each none if it isn't given.
    Memory(Option<GroundType>, Option<u32>),
}

/// The type that is written like this.
pub fn sort_of(ty: GroundType) -> Sort
    ensures { result ≡ sort_of ty }
{
    match ty {
        GroundType::UInt(width) => Sort::Bits(Kind::UInt, width),
        GroundType::SInt(width) => Sort::Bits(Kind::SInt, width),
        GroundType::Clock => Sort::Clock,
    }
}

// The type of a field of a memory's ports, by the type and the number of its words.
pub(crate) fn field_sort(
    word: Option<GroundType>,
    depth: Option<u32>,
    field: PortField,
) -> Option<Sort>
    ensures { result ≡ field_sort word depth field }
{
    match field {
        PortField::Addr => match depth {
            Some(depth) => Some(Sort::Bits(Kind::UInt, address_width(depth))),
            None => None,
        },
        PortField::En | PortField::Mask => Some(Sort::Bits(Kind::UInt, 1)),
        PortField::Clk => Some(Sort::Clock),
        PortField::Data => match word {
            Some(ty) => Some(sort_of(ty)),
            None => None,
        },
    }
}
