//! The words of a ring, the knowledge of its seats, and the kinds of step that keep the rule.
ghost use Rattle.std.specs.Prelude.{List, ℕ, []};

use atomic_table::{Join, Play, Split, TableRule};
use std::collections::LinkedList;
use std::marker::{Brand, PhantomData};

// The knowledge of a seat. No value of it is made.
pub(crate) struct View {
    // whether it may put, and whether it may take
    pub(crate) puts: bool,
    pub(crate) takes: bool,
    pub(crate) stream: LinkedList<u128>,
    pub(crate) capacity: u64,
    // of a seat that puts: how many it has put, how many takes it has seen, and how many halves of the next value it
    // has stored
    pub(crate) put: u64,
    pub(crate) known_takes: u64,
    pub(crate) stored: u64,
    // of a seat that takes: how many it has taken, how many puts it has seen, how many halves of the next value it has
    // loaded, and these
    pub(crate) taken: u64,
    pub(crate) known_puts: u64,
    pub(crate) loaded: u64,
    pub(crate) low: u64,
    pub(crate) high: u64,
    // how often it has looked, and how many atomic steps it has made
    pub(crate) looks: u64,
    pub(crate) moves: u64,
}

// The rule of a ring, `Holds`.
pub(crate) struct RingRule;

impl TableRule<(), View, u64> for RingRule {
    ghost use Rattle.std.specs.Prelude.{[]};
    ghost use Rattle.gg_ring.specs.inside.Rule.{Holds};
    ghost use Rattle.gg_ring.specs.inside.Views.{whole};

    ghost holds = { λ places s. Holds places s };

    ghost first = { λ places. whole [] places 0 0 0 };
}

// The seat that puts looks how many were taken.
pub(crate) struct LoadHead;

impl Play<(), View> for LoadHead {
    ghost use Rattle.std.specs.Prelude.{◌≡◌, ◌≤◌, ◌+◌};
    ghost use Rattle.gg_ring.specs.inside.Views.{saw_head};

    ghost then = { λ _ m n w. (w ≡ (saw_head m.0 n, m.1)) × (m.0.known_takes ≤ n) × (n ≤ m.0.put) × (m.0.put ≤ n + m.0.capacity) };
}

// The seat that puts stores the low half of the next value.
pub(crate) struct StoreLow;

impl Play<(), View> for StoreLow {
    ghost use Rattle.std.specs.Prelude.{◌≡◌};
    ghost use Rattle.gg_ring.specs.inside.Views.{stored_to};

    ghost then = { λ _ m n w. w ≡ (stored_to m.0 1, m.1) };
}

// The seat that puts stores the high half.
pub(crate) struct StoreHigh;

impl Play<(), View> for StoreHigh {
    ghost use Rattle.std.specs.Prelude.{◌≡◌};
    ghost use Rattle.gg_ring.specs.inside.Views.{stored_to};

    ghost then = { λ _ m n w. w ≡ (stored_to m.0 2, m.1) };
}

// The seat that puts counts the value.
pub(crate) struct StoreTail;

impl Play<(), View> for StoreTail {
    ghost use Rattle.std.specs.Prelude.{◌≡◌};
    ghost use Rattle.gg_ring.specs.inside.Views.{has_put};

    ghost then = { λ _ m n w. w ≡ (has_put m.0, m.1) };
}

// The seat that takes looks how many were put.
pub(crate) struct LoadTail;

impl Play<(), View> for LoadTail {
    ghost use Rattle.std.specs.Prelude.{◌≡◌, ◌≤◌, ◌+◌, length};
    ghost use Rattle.gg_ring.specs.inside.Views.{saw_tail};

    ghost then = { λ _ m n w. (w ≡ (saw_tail m.0 n, m.1)) × (m.0.known_puts ≤ n) × (m.0.taken ≤ n) × (n ≤ length m.0.stream) };
}

// The seat that takes loads the low half of the next value.
pub(crate) struct LoadLow;

impl Play<(), View> for LoadLow {
    ghost use Rattle.std.specs.Prelude.{◌≡◌, slice_index};
    ghost use Rattle.gg_ring.specs.inside.Rule.{low};
    ghost use Rattle.gg_ring.specs.inside.Views.{loaded_low};

    ghost then = { λ _ m n w. (w ≡ (loaded_low m.0 n, m.1)) × (n ≡ low (slice_index m.0.stream m.0.taken)) };
}

// The seat that takes loads the high half.
pub(crate) struct LoadHigh;

impl Play<(), View> for LoadHigh {
    ghost use Rattle.std.specs.Prelude.{◌≡◌, slice_index};
    ghost use Rattle.gg_ring.specs.inside.Rule.{high};
    ghost use Rattle.gg_ring.specs.inside.Views.{loaded_high};

    ghost then = { λ _ m n w. (w ≡ (loaded_high m.0 n, m.1)) × (n ≡ high (slice_index m.0.stream m.0.taken)) };
}

// The seat that takes counts the value.
pub(crate) struct StoreHead;

impl Play<(), View> for StoreHead {
    ghost use Rattle.std.specs.Prelude.{◌≡◌};
    ghost use Rattle.gg_ring.specs.inside.Views.{has_taken};

    ghost then = { λ _ m n w. w ≡ (has_taken m.0, m.1) };
}

// The stream of one ring. No code reads it.
pub(crate) trait Chosen {
    ghost chosen: { List ℕ };
}

impl Chosen for Brand {
    ghost chosen = { [] };
}

// The whole view of an empty ring is split in two, and the ring gets its stream.
pub(crate) struct OpenSeats<K> {
    of: PhantomData<K>,
}

impl<K: Chosen> Split<View> for OpenSeats<K> {
    ghost use Rattle.std.specs.Prelude.{◌+◌};
    ghost use Rattle.gg_ring.specs.inside.Views.{putter, taker};

    ghost left = { λ v. putter K.chosen v.capacity 0 (v.moves + 1) };

    ghost right = { λ v. taker K.chosen v.capacity 0 0 };
}

// The whole view is split in two, and the seat that takes knows all puts so far.
pub(crate) struct SplitSeats;

impl Split<View> for SplitSeats {
    ghost use Rattle.std.specs.Prelude.{◌+◌};
    ghost use Rattle.gg_ring.specs.inside.Views.{putter, taker};

    ghost left = { λ v. putter v.stream v.capacity v.put (v.moves + 1) };

    ghost right = { λ v. taker v.stream v.capacity v.taken v.put };
}

// The view that puts becomes whole again, and the view that takes is spent.
pub(crate) struct JoinSeats;

impl Join<View> for JoinSeats {
    ghost use Rattle.std.specs.Prelude.{◌+◌};
    ghost use Rattle.gg_ring.specs.inside.Views.{whole, spent};

    ghost both = { λ v w. whole v.stream v.capacity v.put w.taken (v.moves + 1) };

    ghost spent = { spent };
}
