//! Sets of marks on signals: one mark for each out-signal of a group.
ghost use Rattle.std.specs.Prelude.{◌≡◌, ◌↔◌, ℕ, ◌<◌, ◌^◌, length, IsTrue};
ghost use Rattle.std.specs.Int.{bit_at};
ghost use Rattle.gg_flat.specs.Reads.{Names, NamesSignal};
ghost use Rattle.gg_order.specs.inside.NeedsMarks.{Adds};

use gg_flat::{Driver, Node, Op};

// The most out-signals that a group has.
pub(crate) const MOST: usize = 128;

// The set that has only the mark of the out-signal at this place.
pub(crate) fn one_mark(place: usize) -> u128
    requires { place < 128 }
    ensures { result ≡ 2 ^ place }
{
    1 << place
}

// Whether a set has the mark of the out-signal at this place.
pub(crate) fn has_mark(set: u128, place: usize) -> bool
    requires { place < 128 }
    ensures { IsTrue result ↔ (bit_at set place ≡ 1) }
{
    (set >> place) & 1 == 1
}

// Adds a set to the set of a signal.
pub(crate) fn add_mark(marks: &mut [u128], signal: u32, added: u128)
    requires { signal < length marks.old }
    ensures { Adds added (λ s. signal ≡ s) marks.old marks.new }
{
    marks[signal as usize] |= added;
}

// Adds a set to the sets of the signals that a driver names. There is a set for each of these signals.
pub(crate) fn add_driver(marks: &mut [u128], driver: &Driver, added: u128)
    requires { (s : ℕ) → NamesSignal driver.now s → s < length marks.old }
    ensures { Adds added (NamesSignal driver.now) marks.old marks.new }
{
    match driver {
        Driver::Computed(line) => add_nodes(marks, line.as_slice(), added),
        Driver::MemoryWord(_, _, addr, en) => {
            add_mark(marks, *addr, added);
            add_mark(marks, *en, added);
        }
        Driver::Input(_) | Driver::Held(_) | Driver::ReadRegister(_, _) => {}
    }
}

// Adds a set to the sets of the signals that nodes name.
fn add_nodes(marks: &mut [u128], nodes: &[Node], added: u128)
    requires { (s : ℕ) → Names nodes.now s → s < length marks.old }
    ensures { Adds added (Names nodes.now) marks.old marks.new }
{
    for node in nodes {
        add_op(marks, node.op, added);
    }
}

// Adds a set to the set of the signal that an operation refers to.
fn add_op(marks: &mut [u128], op: Op, added: u128)
    requires { (s : ℕ) → op ≡ Op.Ref s → s < length marks.old }
    ensures { Adds added (λ s. op ≡ Op.Ref s) marks.old marks.new }
{
    if let Op::Ref(signal) = op {
        add_mark(marks, signal, added);
    }
}
