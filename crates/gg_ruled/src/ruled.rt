//! The queue and its seats.
ghost use Rattle.std.specs.Prelude.{◌≡◌, ◌<◌, ◌≤◌, ◌-◌, max, true, false, length};
ghost use Rattle.crossbeam_queue.specs.Passes.{view, ruled_capacity};
ghost use Rattle.gg_link.specs.Seats.{stream_limit};

use crate::rule::{QueueRule, View};
use crossbeam_queue::{Pass, RuledArrayQueue};
use std::sync::Wait;

/// A link over a bounded queue. Its calls wait by the handle.
#[derive(Drop)]
pub struct Ruled<R: Wait + Copy> {
    pub(crate) queue: RuledArrayQueue<u128, View, QueueRule>,
    pub(crate) rt: R,
    pub(crate) capacity: u64,
    ghost sized: { (ruled_capacity queue ≡ capacity) × (0 < capacity) × (capacity < 4294967296) },
}

/// The seat of the thread that puts.
#[derive(Drop)]
pub struct PutSeat {
    pub(crate) pass: Pass<u128, View>,
    // how many values it has put
    pub(crate) puts: u64,
    // how many had been taken when it last found the queue full
    pub(crate) seen: u64,
    // how often it has found the queue full
    pub(crate) looks: u64,
    ghost roles: { ((view pass).puts ≡ true) × ((view pass).takes ≡ false) },
    ghost counted: { (view pass).put ≡ puts },
    ghost order: { (puts ≤ stream_limit) × (length (view pass).stream ≤ stream_limit) × (seen ≤ puts - (view pass).capacity) },
}

/// The seat of the thread that takes.
#[derive(Drop)]
pub struct TakeSeat {
    pub(crate) pass: Pass<u128, View>,
    // how many values it has taken
    pub(crate) takes: u64,
    // how many had been put when it was made, or when it last found the queue empty
    pub(crate) seen: u64,
    // how often it has found the queue empty
    pub(crate) looks: u64,
    ghost roles: { ((view pass).takes ≡ true) × ((view pass).puts ≡ false) },
    ghost counted: { (view pass).taken ≡ takes },
    ghost order: { (takes ≤ stream_limit) × (length (view pass).stream ≤ stream_limit) × (seen ≤ max (view pass).known takes) },
}
