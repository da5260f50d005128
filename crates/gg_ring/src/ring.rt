//! The ring and its seats.
ghost use Rattle.std.specs.Prelude.{◌≡◌, ◌+◌, ◌*◌, ◌%◌, ◌<◌, ◌≤◌, true, false, [], length};
ghost use Rattle.gg_link.specs.Seats.{stream_limit};

use crate::rule::{RingRule, View};
use atomic_table::{Seat, Table};
use std::alloc::Global;

/// A link over a ring of atomic words.
#[derive(Drop)]
pub struct Ring {
    pub(crate) table: Table<(), View, u64, RingRule, Global>,
    pub(crate) capacity: u64,
    ghost sized: { (table.shared.table_id.words ≡ 2 + 2 * capacity) × (table.shared.key ≡ capacity) × (0 < capacity) × (capacity < 4294967296) },
    ghost slotless: { table.shared.table_id.slots ≡ 0 },
}

/// The seat of the thread that puts.
#[derive(Drop)]
pub struct PutSeat {
    pub(crate) seat: Seat<(), View>,
    // how many values it has put
    pub(crate) puts: u64,
    // the place of the next value
    pub(crate) place: u64,
    // how many had been taken when it last looked
    pub(crate) seen: u64,
    // whether that look found more than one value gone
    pub(crate) streaming: bool,
    ghost rests: { (seat.me.1 ≡ []) × (seat.me.0.puts ≡ true) × (seat.me.0.takes ≡ false) × (seat.me.0.stored ≡ 0) },
    ghost placed: { place ≡ puts % seat.me.0.capacity },
    ghost counted: { (seat.me.0.put ≡ puts) × (seat.me.0.known_takes ≡ seen) },
    ghost order: { (seen ≤ puts) × (puts ≤ seen + seat.me.0.capacity) × (puts ≤ stream_limit) × (length seat.me.0.stream ≤ stream_limit) },
}

/// The seat of the thread that takes.
#[derive(Drop)]
pub struct TakeSeat {
    pub(crate) seat: Seat<(), View>,
    // how many values it has taken
    pub(crate) takes: u64,
    // the place of the next value
    pub(crate) place: u64,
    // how many had been put when it last looked
    pub(crate) seen: u64,
    // whether that look found more than one new value
    pub(crate) streaming: bool,
    ghost rests: { (seat.me.1 ≡ []) × (seat.me.0.takes ≡ true) × (seat.me.0.puts ≡ false) × (seat.me.0.loaded ≡ 0) },
    ghost placed: { place ≡ takes % seat.me.0.capacity },
    ghost counted: { (seat.me.0.taken ≡ takes) × (seat.me.0.known_puts ≡ seen) },
    ghost order: { (takes ≤ seen) × (seen ≤ length seat.me.0.stream) × (length seat.me.0.stream ≤ stream_limit) },
}
