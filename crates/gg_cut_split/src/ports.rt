//! Which bridge has each port.
ghost use Rattle.std.specs.Prelude.{◌≡◌, ℕ, ◌<◌, ◌^◌, if◌then◌else◌, nat_lt, length, All, IfOk};
ghost use Rattle.gg_flat.specs.Line.{value_at};
ghost use Rattle.gg_flat_tree.specs.Tree.{path_at};
ghost use Rattle.gg_cut_plan.specs.Listed.{is_among};
ghost use Rattle.gg_cut_plan.specs.Ports.{lister};
ghost use Rattle.gg_cut_split.specs.inside.Ends.{one_more, entry_ports};

use crate::lists::{filled, set_named};
use gg_bits::Name;
use gg_flat::Piece;
use gg_partfile::BridgeEntry;
use std::alloc::{AllocError, Global};

// For each of these signals 0, or one more than the number of the first entry that sees the signal's path, or drives
// it. It is 0 at the place `count` and after it.
//
// # Errors
//
// Returns `AllocError` if an allocation fails.
pub(crate) fn takers_of(
    alloc: Global,
    piece: &Piece,
    entries: &[BridgeEntry],
    seen: bool,
    signals: &[u32],
    count: usize,
) -> Result<Vec<u32>, AllocError>
    requires few { length entries.now < 2 ^ 32 }
    requires known { All (λ s. s < length piece.now.signals) signals.now }
    ensures count { IfOk result (λ takers. length takers.items ≡ length signals.now) }
    ensures takers { IfOk result (λ takers. (p : ℕ) → p < length signals.now
        → value_at takers.items p ≡ (if nat_lt p count then one_more
        (lister (entry_ports seen) entries.now (path_at piece.now.paths (value_at signals.now p))) else 0)) }
{
    let table = taker_table(alloc, piece, entries, seen)?;
    let mut takers = Vec::new(alloc);
    for place in 0..signals.len() {
        let taker = if place < count {
            table[signals[place] as usize]
        } else {
            0
        };
        takers.push(taker)?;
    }
    Ok(takers)
}

// For each signal 0, or one more than the number of the first entry that sees its path, or drives it.
fn taker_table(
    alloc: Global,
    piece: &Piece,
    entries: &[BridgeEntry],
    seen: bool,
) -> Result<Vec<u32>, AllocError>
    requires few { length entries.now < 2 ^ 32 }
    ensures count { IfOk result (λ table. length table.items ≡ length piece.now.signals) }
    ensures takers { IfOk result (λ table. (s : ℕ) → s < length piece.now.signals → value_at table.items s ≡ one_more (lister (entry_ports seen) entries.now (path_at piece.now.paths s))) }
{
    let mut table = filled(alloc, piece.signal_count(), 0)?;
    for step in 0..entries.len() {
        let place = entries.len() - 1 - step;
        let ports = entry_ports(&entries[place], seen);
        put_ports(piece, ports, place as u32 + 1, &mut table);
    }
    Ok(table)
}

// The ports that an entry sees, or drives.
fn entry_ports(entry: &BridgeEntry, seen: bool) -> &[Name]
    ensures { result.now ≡ entry_ports seen entry.now }
{
    if seen {
        entry.sees.as_slice()
    } else {
        entry.drives.as_slice()
    }
}

/// Writes a number into a table by signals, at the signals with these paths.
pub fn put_ports(piece: &Piece, ports: &[Name], number: u32, table: &mut Vec<u32>)
    requires { length table.old.items ≡ length piece.now.signals }
    ensures count { length table.new.items ≡ length table.old.items }
    ensures put { (s : ℕ) → s < length piece.now.signals → value_at table.new.items s ≡ (if is_among ports.now (path_at piece.now.paths s) then number else value_at table.old.items s) }
{
    for port in ports {
        set_named(piece, port, number, table);
    }
}
