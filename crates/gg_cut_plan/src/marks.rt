//! Marks on numbers.
ghost use Rattle.std.specs.Prelude.{◌≡◌, ℕ, ◌<◌, false, length, All, IfOk};
ghost use Rattle.gg_order.specs.Marks.{is_marked};
ghost use Rattle.gg_cut_plan.specs.inside.Listed.{AreMarks};

use std::alloc::{AllocError, Global};

/// A list of `count` marks, all clear.
///
/// # Errors
///
/// Returns `AllocError` if an allocation fails.
pub fn unmarked(alloc: Global, count: usize) -> Result<Vec<bool>, AllocError>
    ensures none { IfOk result (λ marks. (k : ℕ) → is_marked marks.items k ≡ false) }
    ensures count { IfOk result (λ marks. length marks.items ≡ count) }
{
    vec![in alloc; false; count]
}

/// Marks on these signals, by their numbers, which are below `count`.
///
/// # Errors
///
/// Returns `AllocError` if an allocation fails.
pub fn marks_of(alloc: Global, count: usize, signals: &[u32]) -> Result<Vec<bool>, AllocError>
    requires { All (λ s. s < count) signals.now }
    ensures marks { IfOk result (λ marks. AreMarks signals.now marks.items) }
    ensures count { IfOk result (λ marks. length marks.items ≡ count) }
{
    let mut marks = unmarked(alloc, count)?;
    mark_all(&mut marks, signals);
    Ok(marks)
}

// Marks signals, in a list without marks.
fn mark_all(marks: &mut [bool], signals: &[u32])
    requires known { All (λ s. s < length marks.old) signals.now }
    requires none { (k : ℕ) → is_marked marks.old k ≡ false }
    ensures marks { AreMarks signals.now marks.new }
    ensures count { length marks.new ≡ length marks.old }
{
    for signal in signals {
        marks[*signal as usize] = true;
    }
}
