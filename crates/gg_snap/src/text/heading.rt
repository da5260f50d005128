//! The first two lines of a snapshot.
ghost use Rattle.std.specs.Prelude.{◌≡◌, ◌≢◌, ◌≤◌, ◌∷◌, ℕ, Some, IfOk, IfErr, IfSome, MatchOption, length};
ghost use Rattle.gg_bits.specs.Limits.{cycle_limit};
ghost use Rattle.gg_snap.specs.inside.Heading.{IsHeadingFault};
ghost use Rattle.gg_snap.specs.text.Lines.{cycle_line, first_line};
ghost use Rattle.gg_snap.specs.text.Standing.{IfFault, pieces};

use crate::text::cutting::{cut_piece, strip, without_last};
use crate::text::fault::SnapFault;
use crate::text::parsing::number_of;
use crate::text::writing::push_cycle;
use gg_bits::CYCLE_LIMIT;
use gg_trace::same_bytes;
use std::alloc::{AllocError, Global};

// The number in the line of a cycle. Other texts may give a number, too.
fn spelt_cycle(line: &[u8]) -> Option<u64>
    ensures within { IfSome result (λ n. n ≤ cycle_limit) }
    ensures spelt { (n : ℕ) → n ≤ cycle_limit → line.now ≡ cycle_line n → result ≡ Some n }
{
    let rest = strip(line, b"cycle ")?;
    let digits = without_last(rest)?;
    let cycle = u64::from(number_of(digits)?);
    if cycle <= CYCLE_LIMIT {
        Some(cycle)
    } else {
        None
    }
}

// The cycle of a line, if it is the line of a cycle.
fn cycle_of(alloc: Global, line: &[u8]) -> Result<Option<u64>, AllocError>
    ensures { IfOk result (λ cycle. MatchOption cycle ((n : ℕ) → n ≤ cycle_limit → line.now ≢ cycle_line n) (λ n. (n ≤ cycle_limit) × (line.now ≡ cycle_line n))) }
{
    let Some(cycle) = spelt_cycle(line) else {
        return Ok(None);
    };
    let mut text = String::new(alloc);
    push_cycle(&mut text, cycle)?;
    if same_bytes(text.as_bytes(), line) {
        Ok(Some(cycle))
    } else {
        Ok(None)
    }
}

// The cycle of a snapshot, and the text after its first two lines.
//
// # Errors
//
// Returns `SnapFault::S1` with line 1 or 2 if that line is missing or can't be the snapshot's, and `SnapFault::NoMemory` if an
// allocation fails.
pub(crate) fn read_heading(alloc: Global, bytes: &[u8]) -> Result<(u64, &[u8]), SnapFault>
    ensures read { IfOk result (λ read. (read.0 ≤ cycle_limit) × (pieces bytes.now ≡ first_line ∷ cycle_line read.0 ∷ pieces read.1.now)) }
    ensures shorter { IfOk result (λ read. length read.1.now ≤ length bytes.now) }
    ensures refused { IfErr result (IfFault (IsHeadingFault bytes.now)) }
{
    if bytes.is_empty() {
        return Err(SnapFault::S1 { line: 1 });
    }
    let (first, rest) = cut_piece(bytes);
    if !same_bytes(first, b"golden snapshot 1\n") {
        return Err(SnapFault::S1 { line: 1 });
    }
    if rest.is_empty() {
        return Err(SnapFault::S1 { line: 2 });
    }
    let (second, rest) = cut_piece(rest);
    let Some(cycle) = cycle_of(alloc, second)? else {
        return Err(SnapFault::S1 { line: 2 });
    };
    Ok((cycle, rest))
}
