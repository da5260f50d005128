//! The lines of the summary are written.
ghost use Rattle.std.specs.Prelude.{◌≡◌, List, ℕ, IfOk, string_bytes};
ghost use Rattle.gg_rows.specs.inside.Sums.{sums_text};
ghost use Rattle.gg_io.specs.inside.Endings.{PrintsOn};
ghost use Rattle.gg_io.specs.WentOn.{SinkWentOn};

use crate::sums::Sums;
use crate::{fold_line, last_line, network_line, size_line};
use gg_io::{Ending, Sink, put};
use std::alloc::{AllocError, Global};

// Writes a line, if it was allocated.
fn put_line<K: Sink>(line: Result<String, AllocError>, out: &mut K) -> Result<(), Ending>
    ensures prints { (text : List ℕ) → IfOk line (λ made. string_bytes made ≡ text) → PrintsOn K.Sink out.old out.new text result }
    ensures out { SinkWentOn K.Sink out.old out.new }
{
    let line = line?;
    put(out, line.as_bytes())
}

/// Writes the summary for these sums: four lines, one piece each.
///
/// # Errors
///
/// Returns `Unwritten` if a put fails, and `NoMemory` if an allocation fails. What was written by then is a first part of
/// the text.
pub fn put_summary<K: Sink>(
    alloc: Global,
    seed: u32,
    size: u32,
    sums: &Sums,
    out: &mut K,
) -> Result<(), Ending>
    ensures prints { PrintsOn K.Sink out.old out.new (sums_text seed size sums.now) result }
    ensures out { SinkWentOn K.Sink out.old out.new }
{
    let fold = &sums.fold;
    put_line(size_line(alloc, seed, size), out)?;
    put_line(
        network_line(alloc, sums.machines, sums.channels, sums.steps),
        out,
    )?;
    put_line(last_line(alloc, fold.last_y, fold.last_z), out)?;
    put_line(fold_line(alloc, fold.all_y, fold.all_z), out)
}
