//! Widths of types (FIRRTL Specification, "Ground Types").
ghost use Rattle.std.specs.Prelude.{◌≡◌, ◌≤◌, true};
ghost use Rattle.gg_types.specs.Types.{is_width};

use gg_bits::Ty;

/// Whether a type may have this width: 1 to 128.
pub fn is_width(width: u32) -> bool
    ensures exact { result ≡ is_width width }
    ensures bounds { result ≡ true → (1 ≤ width) × (width ≤ 128) }
{
    1 <= width && width <= Ty::MAX_WIDTH
}
