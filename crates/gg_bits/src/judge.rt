//! The check of a result's width.
ghost use Rattle.std.specs.Prelude.{◌≡◌, ℕ, min, IfOk};
ghost use Rattle.gg_bits.specs.Shape.{of_kind, shape};
ghost use Rattle.gg_bits.specs.inside.Shape.{shape_of};
ghost use Rattle.gg_bits.specs.ResultType.{within};

use crate::types::{Bad, Kind, Ty};

// The type of this kind and width, if the width is 1 to 128.
//
// A width above 4,294,967,295 is passed as that number.
pub(crate) fn judge_width(kind: Kind, width: u32) -> Result<Ty, Bad>
    ensures exact { (w : ℕ) → width ≡ min w 4294967295 → shape_of result ≡ within (of_kind kind w) }
    ensures ok { (w : ℕ) → width ≡ min w 4294967295 → IfOk result (λ ty. shape ty ≡ of_kind kind w) }
{
    if width == 0 || width > Ty::MAX_WIDTH {
        return Err(Bad::Width(width));
    }
    Ok(Ty { kind, width })
}
