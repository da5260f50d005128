//! The values that a link is made with.
ghost use Rattle.std.specs.Prelude.{◌≡◌, ℕ, ◌≤◌, List, ◌++◌, length, IfOk};
ghost use Rattle.std.specs.VecDeque.{deque_items, deque_len, deque_capacity};

use std::alloc::{AllocError, Global};
use std::collections::VecDeque;

// A deque with room for `capacity` values, which holds the first `count` of these.
pub(crate) fn hold(
    alloc: Global,
    capacity: u32,
    values: &[u128],
    count: usize,
) -> Result<VecDeque<u128>, AllocError>
    requires { (count ≤ capacity) × (count ≤ length values.now) }
    ensures held { IfOk result (λ held. (rest : List ℕ) × (values.now ≡ deque_items held ++ rest)) }
    ensures count { IfOk result (λ held. deque_len held ≡ count) }
    ensures room { IfOk result (λ held. capacity ≤ deque_capacity held) }
{
    let mut held = VecDeque::with_capacity(alloc, capacity as usize)?;
    for place in 0..count {
        held.push_back_reserved(values[place]);
    }
    Ok(held)
}
