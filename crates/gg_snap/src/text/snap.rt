//! Snapshots: the state of a circuit before a cycle, as a text and back.
ghost use Rattle.std.specs.Prelude.{◌≡◌, ◌≤◌, IfOk, IfErr};
ghost use Rattle.gg_bits.specs.Limits.{cycle_limit};
ghost use Rattle.gg_flat.specs.State.{IsState};
ghost use Rattle.gg_snap.specs.text.Known.{AreKnown, CanSave};
ghost use Rattle.gg_snap.specs.text.Standing.{IfFault, IsFirstFault, IsSnap};
ghost use Rattle.gg_snap.specs.text.Table.{rows_of};

use crate::text::draft::StateDraft;
use crate::text::fault::SnapFault;
use crate::text::heading::read_heading;
use crate::text::reading::take_lines;
use crate::text::table::rows_of;
use crate::text::writing::text_of;
use gg_bits::Name;
use gg_order::{Design, State};
use std::alloc::{AllocError, Global};
use std::marker::Model;

/// A snapshot: the state of a design's circuit before a cycle. A contract sees the design, the cycle and the state. The cycle is at
/// most 1,000,000, and each value of the state fits its width.
pub struct Snap<'a> {
    design: &'a Design,
    cycle: u64,
    state: State,
}

impl Drop for Snap<'_> {
    fn drop(self) {
        let Self {
            design: _,
            cycle: _,
            state,
        } = self;
        drop(state);
    }
}

impl<'a> Model for Snap<'a> {
    ghost use Rattle.std.specs.Prelude.{◌≤◌};
    ghost use Rattle.gg_flat.specs.State.{IsState};
    ghost use Rattle.gg_bits.specs.Limits.{cycle_limit};
    ghost use Rattle.gg_snap.specs.inside.Snap.{Snapshot};

    ghost Value = { Snapshot };

    ghost view = { λ snap. record { design = snap.design.now; cycle = snap.cycle; state = snap.state } };

    ghost invariant = { λ snap. (snap.cycle ≤ cycle_limit) × IsState snap.design.now.circuit snap.state };
}

impl<'a> Snap<'a> {
    /// The snapshot of this state of a design's circuit, before this cycle. Does not allocate.
    pub fn new(design: &'a Design, cycle: u64, state: State) -> Snap<'a>
        requires within { cycle ≤ cycle_limit }
        requires typed { IsState design.now.circuit state }
        ensures design { result.design ≡ design.now }
        ensures cycle { result.cycle ≡ cycle }
        ensures state { result.state ≡ state }
    {
        Snap {
            design,
            cycle,
            state,
        }
    }

    /// The cycle.
    pub fn cycle(&self) -> u64
        ensures is { result ≡ self.now.cycle }
        ensures within { result ≤ cycle_limit }
    {
        self.cycle
    }

    /// The state before the cycle.
    pub fn state(&self) -> &State
        ensures is { result.now ≡ self.now.state }
        ensures typed { IsState self.now.design.circuit result.now }
    {
        &self.state
    }

    /// The state before the cycle. Does not allocate.
    pub fn into_state(self) -> State
        ensures is { result ≡ self.entry.state }
        ensures typed { IsState self.entry.design.circuit result }
    {
        let Self {
            design: _,
            cycle: _,
            state,
        } = self;
        state
    }
}

/// The snapshot of a design's circuit from its text.
///
/// # Errors
///
/// Returns `SnapFault::S1` with the number of the first line that can't be in the text of any snapshot of the circuit, together with the lines before
/// it. If all lines can be there, and there are fewer than two, it is the number of lines and one more. Returns `SnapFault::NoMemory` if an
/// allocation fails.
///
/// # Examples
///
/// The circuit has one register `count` of 4 bits.
///
/// ```text
/// let snap = read_snap(alloc, &design, b"golden snapshot 1\ncycle 3\nreg count 8\n")?;
/// snap.cycle()              // 3
/// snap.state().registers()  // [8]
/// read_snap(alloc, &design, b"golden snapshot 1\ncycle 3\nreg count 0\n")  // Err(S1 { line: 3 }): a value 0 has no line
/// read_snap(alloc, &design, b"golden snapshot 1\n")                        // Err(S1 { line: 2 }): the second line is missing
/// ```
pub fn read_snap<'a>(alloc: Global, design: &'a Design, bytes: &[u8]) -> Result<Snap<'a>, SnapFault>
    requires { CanSave design.now.circuit design.now.tree }
    ensures design { IfOk result (λ snap. snap.design ≡ design.now) }
    ensures read { IfOk result (λ snap. IsSnap design.now.circuit design.now.tree bytes.now snap.cycle snap.state) }
    ensures known { IfOk result (λ _. AreKnown design.now.circuit (rows_of design.now.circuit design.now.tree)) }
    ensures refused { IfErr result (IfFault (IsFirstFault design.now.circuit design.now.tree bytes.now)) }
{
    let rows = rows_of(alloc, design)?;
    let (cycle, rest) = read_heading(alloc, bytes)?;
    let mut draft = StateDraft::new(alloc, design.piece())?;
    if let Some(count) = take_lines(alloc, &rows, &mut draft, rest)? {
        return Err(SnapFault::S1 { line: count + 3 });
    }
    let state = draft.into_state(alloc)?;
    Ok(Snap {
        design,
        cycle,
        state,
    })
}

/// The text of a snapshot. It has a line for each value that isn't 0.
///
/// # Errors
///
/// Returns `AllocError` if an allocation fails.
///
/// # Examples
///
/// The circuit has one register `count` of 4 bits, with the value 8 before cycle 3.
///
/// ```text
/// snap_text(alloc, &snap)?  // "golden snapshot 1\ncycle 3\nreg count 8\n"
/// ```
/// With the value 0 only the first two lines are left.
pub fn snap_text(alloc: Global, snap: &Snap<'_>) -> Result<Name, AllocError>
    requires { CanSave snap.now.design.circuit snap.now.design.tree }
    ensures known { IfOk result (λ _. AreKnown snap.now.design.circuit (rows_of snap.now.design.circuit snap.now.design.tree)) }
    ensures text { IfOk result (λ text. IsSnap snap.now.design.circuit snap.now.design.tree text snap.now.cycle snap.now.state) }
{
    let rows = rows_of(alloc, snap.design)?;
    text_of(alloc, &rows, snap.cycle, &snap.state)
}
