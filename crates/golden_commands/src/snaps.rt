//! What is reported for snapshots.
ghost use Rattle.std.specs.Prelude.{◌≡◌, ◌≢◌, ◌++◌, ◌∷◌, IfOk, codes, decimal, string_bytes};
ghost use Rattle.gg_snap.specs.text.FaultText.{fault_words};
ghost use Rattle.gg_snap.specs.declared.text.fault.SnapFault.TheVariants.{NoMemory};
ghost use Rattle.gg_io.specs.inside.Endings.{IfRefused};
ghost use Rattle.golden_commands.specs.Lines.{few_rows, snap_fault};

use gg_io::{Ending, end_with, make_refusal, text_with_number};
use gg_snap::SnapFault;
use std::alloc::{AllocError, Global};

// The text of S2.
fn few_text(alloc: Global, at: u64, rows: u64) -> Result<String, AllocError>
    ensures { IfOk result (λ text. string_bytes text ≡ codes "S2 " ++ decimal at ++ 32 ∷ decimal rows) }
{
    let mut before = text_with_number(alloc, "S2 ", at)?;
    before.push_str(" ")?;
    text_with_number(alloc, before.as_str(), rows)
}

/// The ending for a run that has a state before cycle `rows` at most, if `at` is a later cycle.
pub fn end_few(alloc: Global, at: u64, rows: u64) -> Ending
    ensures { IfRefused (λ said. said ≡ few_rows at rows) result }
{
    match few_text(alloc, at, rows) {
        Ok(text) => end_with(make_refusal(alloc, 10, "golden: snapshot: ", text.as_str(), "")),
        Err(_) => Ending::NoMemory,
    }
}

/// The ending for bytes that aren't the text of a snapshot.
pub fn end_at_snap(alloc: Global, fault: SnapFault) -> Ending
    ensures { IfRefused (λ said. (fault ≢ NoMemory) × (said ≡ snap_fault (fault_words fault))) result }
{
    if let SnapFault::NoMemory = fault {
        return Ending::NoMemory;
    }
    match format!(in alloc; "{fault}") {
        Ok(text) => end_with(make_refusal(alloc, 10, "golden: snapshot: ", text.as_str(), "")),
        Err(_) => Ending::NoMemory,
    }
}
