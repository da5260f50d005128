//! The places of numbers in a list.
ghost use Rattle.std.specs.Prelude.{◌≡◌, ◌<◌, ◌≤◌, ◌^◌, length, map, IfOk, All, Contains};
ghost use Rattle.gg_flat.specs.Line.{value_at};
ghost use Rattle.gg_part.specs.inside.Numbers.{ArePlaces};

use crate::lists::picked;
use gg_cut_split::filled;
use std::alloc::{AllocError, Global};

// Places of these numbers in a list of numbers below `count`.
//
// # Errors
//
// Returns `AllocError` if an allocation fails.
pub(crate) fn found_at(
    alloc: Global,
    count: usize,
    list: &[u32],
    numbers: &[u32],
) -> Result<Vec<u32>, AllocError>
    requires below { All (λ s. s < count) list.now }
    requires few { length list.now ≤ 2 ^ 32 }
    requires known { All (λ s. Contains list.now s) numbers.now }
    ensures within { IfOk result (λ places. All (λ place. place < length list.now) places.items) }
    ensures found { IfOk result (λ places. map (value_at list.now) places.items ≡ numbers.now) }
{
    let mut table = filled(alloc, count, 0)?;
    fill(&mut table, list);
    let places = picked(alloc, &table, numbers)?;
    Ok(places)
}

// Writes each number's place into the table.
fn fill(table: &mut Vec<u32>, list: &[u32])
    requires below { All (λ s. s < length table.old.items) list.now }
    requires few { length list.now ≤ 2 ^ 32 }
    ensures places { ArePlaces list.now (length list.now) table.new.items }
    ensures count { length table.new.items ≡ length table.old.items }
{
    for place in 0..list.len() {
        table[list[place] as usize] = place as u32;
    }
}
