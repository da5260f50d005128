//! Multiplexers (FIRRTL Specification, "Multiplexers").
ghost use Rattle.std.specs.Prelude.{◌≡◌, ◌^◌, ◌<◌, ◌≤◌, IfOk, OnOk};
ghost use Rattle.gg_bits.specs.Shape.{uint, shape, Fits};
ghost use Rattle.gg_bits.specs.inside.Shape.{shape_of};
ghost use Rattle.gg_bits.specs.ResultType.{shape_mux, type_mux};
ghost use Rattle.gg_bits.specs.Meaning.{value_mux};

use crate::judge::judge_width;
use crate::patterns::extend;
use crate::types::{Bad, Kind, Ty, Val};

/// The type of `mux(c, a, b)`, where `c` is one unsigned bit and `a` and `b` have the same kind.
///
/// # Errors
///
/// Returns `Kind` if `c` is not `UInt<1>` or the kinds of `a` and `b` differ.
pub fn result_mux(tc: Ty, ta: Ty, tb: Ty) -> Result<Ty, Bad>
    ensures exact { shape_of result ≡ type_mux (shape tc) (shape ta) (shape tb) }
    ensures ok { IfOk result (λ ty. shape ty ≡ shape_mux (shape ta) (shape tb)) }
    ensures condition { OnOk result (shape tc ≡ uint 1) }
    ensures kinds { OnOk result (ta.kind ≡ tb.kind) }
{
    if tc.kind != Kind::UInt || tc.width != 1 || ta.kind != tb.kind {
        return Err(Bad::Kind);
    }
    judge_width(ta.kind, ta.width.max(tb.width))
}

/// `mux(c, a, b)`: `a` where `c` is 1, otherwise `b`, in the width of the wider.
pub fn mux(c: Val, ta: Ty, a: Val, tb: Ty, b: Val) -> Val
    requires kinds { ta.kind ≡ tb.kind }
    requires condition { c.0 < 2 }
    requires first { Fits (shape ta) a.0 }
    requires second { Fits (shape tb) b.0 }
    ensures value { result.0 ≡ value_mux c.0 (shape ta) a.0 (shape tb) b.0 }
    ensures typed { Fits (shape_mux (shape ta) (shape tb)) result.0 }
{
    let width = ta.width.max(tb.width);
    if c.0 == 1 {
        extend(a, ta, width)
    } else {
        extend(b, tb, width)
    }
}
