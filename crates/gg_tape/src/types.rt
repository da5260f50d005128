//! Types in two bytes, made and read.
ghost use Rattle.std.specs.Prelude.{◌≡◌, ◌≤◌};
ghost use Rattle.gg_bits.specs.Shape.{shape};
ghost use Rattle.gg_tape.specs.inside.Instruction.{small};

use crate::small::Small;
use gg_bits::{Kind, Ty};

impl Small {
    // The type in two bytes.
    pub(crate) fn of(ty: Ty) -> Small
        ensures { small result ≡ shape ty }
    {
        Small {
            kind: ty.kind,
            width: ty.width as u8,
        }
    }

    // The type.
    #[inline(always)]
    pub(crate) fn ty(&self) -> Ty
        ensures { shape result ≡ small self.now }
    {
        Ty::new(self.kind, u32::from(self.width))
    }

    // The type, which is of kind `UInt`.
    #[inline(always)]
    pub(crate) fn natural(&self) -> Ty
        requires { self.now.kind ≡ Kind.UInt }
        ensures { shape result ≡ small self.now }
    {
        Ty::new(Kind::UInt, u32::from(self.width))
    }
}
