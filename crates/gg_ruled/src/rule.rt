//! The items of a queue, the knowledge of its passes, and the kinds of step that keep the rule: a push, a pop, a split
//! and a join.
ghost use Rattle.std.specs.Prelude.{List, ℕ, []};

use crossbeam_queue::protocol::{Join, Lesson, Outcome, Protocol, Split};
use std::collections::LinkedList;
use std::marker::{Brand, PhantomData};

// The knowledge of a pass. No value of it is made.
pub(crate) struct View {
    // whether it may put, and whether it may take
    pub(crate) puts: bool,
    pub(crate) takes: bool,
    pub(crate) stream: LinkedList<u128>,
    pub(crate) capacity: u64,
    pub(crate) put: u64,
    pub(crate) taken: u64,
    // how many puts the seat that takes knew of when it was made
    pub(crate) known: u64,
}

// The rule of a queue between one seat that puts and one that takes.
pub(crate) struct QueueRule;

impl Protocol<u128, View> for QueueRule {
    ghost use Rattle.std.specs.Prelude.{[]};
    ghost use Rattle.gg_ruled.specs.inside.Rule.{Keeps, whole};

    ghost holds = { λ items views. Keeps items views };

    ghost first = { whole [] 0 0 0 };
}

// The stream and the capacity of one queue. No code reads it.
pub(crate) trait Chosen {
    ghost chosen: { List ℕ };

    ghost places: { ℕ };
}

impl Chosen for Brand {
    ghost chosen = { [] };

    ghost places = { 0 };
}

// The whole view of an empty queue is split in two, and the queue gets its stream.
pub(crate) struct OpenSeats<K> {
    of: PhantomData<K>,
}

impl<K: Chosen> Split<View> for OpenSeats<K> {
    ghost use Rattle.gg_ruled.specs.inside.Rule.{putter, taker};

    ghost left = { λ v. putter K.chosen K.places 0 };

    ghost right = { λ v. taker K.chosen K.places 0 0 };
}

// The whole view is split in two, and the seat that takes knows all puts so far.
pub(crate) struct SplitSeats;

impl Split<View> for SplitSeats {
    ghost use Rattle.gg_ruled.specs.inside.Rule.{putter, taker};

    ghost left = { λ v. putter v.stream v.capacity v.put };

    ghost right = { λ v. taker v.stream v.capacity v.taken v.put };
}

// The view that puts becomes whole again, and the view that takes is spent.
pub(crate) struct JoinSeats;

impl Join<View> for JoinSeats {
    ghost use Rattle.gg_ruled.specs.inside.Rule.{whole, spent};

    ghost both = { λ v w. whole v.stream v.capacity v.put w.taken };

    ghost spent = { spent };
}

// A push of the next value; a look at how many the queue holds.
pub(crate) struct Puts;

impl Outcome<u128, View> for Puts {
    ghost use Rattle.std.specs.Prelude.{◌≡◌};
    ghost use Rattle.gg_ruled.specs.inside.Rule.{has_put};

    ghost then = { λ v x w. w ≡ has_put v };
}

impl Lesson<u128, View> for Puts {
    ghost use Rattle.std.specs.Prelude.{◌≤◌, length};

    ghost fact = { λ v items. length items ≤ v.put };
}

// A pop of the next value; a look at how many the queue holds.
pub(crate) struct Takes;

impl Outcome<u128, View> for Takes {
    ghost use Rattle.std.specs.Prelude.{◌≡◌, slice_get, Some};
    ghost use Rattle.gg_ruled.specs.inside.Rule.{has_taken};

    ghost then = { λ v x w. (w ≡ has_taken v) × (slice_get v.stream v.taken ≡ Some x) };
}

impl Lesson<u128, View> for Takes {
    ghost use Rattle.std.specs.Prelude.{◌≡◌, ◌≤◌, ◌+◌, length, true};

    ghost fact = { λ v items. (v.known ≤ v.taken + length items) × (length items ≤ v.capacity) × (v.puts ≡ true → v.put ≡ v.taken + length items) };
}
