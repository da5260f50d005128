//! The lines of registers: how they are added to a tape, and what they give.
ghost use Rattle.std.specs.Prelude.{◌≡◌, ℕ, ◌<◌, ◌≤◌, ◌^◌, ⊤, List, MatchOption, length, IfOk, OnOk};
ghost use Rattle.gg_bits.specs.Shape.{Shape, shape, Fits};
ghost use Rattle.gg_flat.specs.Line.{HasType, IsSource};
ghost use Rattle.gg_flat.specs.inside.Line.{HasValue};
ghost use Rattle.gg_flat.specs.State.{next_register, taken_value, connected_or};
ghost use Rattle.gg_flat.specs.WellFormed.{IsRegister, IsReset};
ghost use Rattle.gg_order.specs.runs.Room.{next_length, register_length};
ghost use Rattle.gg_tape.specs.inside.Tape.{Grows, IsTapedNext, IsTapedReset, IsTapedRegister};

use crate::cells::Cells;
use crate::code::{Code, Stretch};
use crate::taped::{TapedRegister, TapedReset};
use gg_bits::Ty;
use gg_flat::{Line, Register, Reset};
use gg_order::ticks;
use std::alloc::AllocError;

impl Code {
    // Adds the instructions of a register's lines.
    pub(crate) fn tell_register(
        &mut self,
        signals: usize,
        register: &Register,
    ) -> Result<TapedRegister, AllocError>
        requires few { signals < 2 ^ 32 }
        requires lines { (shapes : List Shape) × IsRegister (HasType shapes) register.now }
        ensures told { IfOk result (λ taped. IsTapedRegister signals self.new taped register.now) }
        ensures grown { OnOk result (Grows self.old self.new) }
    {
        let reset = self.tell_reset(signals, &register.reset, register.ty)?;
        let next = self.tell_next(signals, &register.next, register.ty)?;
        Ok(TapedRegister {
            clock: register.clock,
            reset,
            next,
        })
    }

    // Adds the instructions of the lines of a reset, if there is one, of a register of this type.
    fn tell_reset(
        &mut self,
        signals: usize,
        reset: &Option<Reset>,
        sink: Ty,
    ) -> Result<Option<TapedReset>, AllocError>
        requires few { signals < 2 ^ 32 }
        requires lines { (shapes : List Shape) × MatchOption reset.now ⊤ (IsReset (HasType shapes) (shape sink)) }
        ensures told { IfOk result (λ taped. IsTapedReset signals self.new (shape sink) taped reset.now) }
        ensures grown { OnOk result (Grows self.old self.new) }
    {
        match reset {
            Some(reset) => {
                let condition = self.tell(signals, &reset.condition, reset.condition.ty())?;
                let init = self.tell(signals, &reset.init, sink)?;
                Ok(Some(TapedReset { condition, init }))
            }
            None => Ok(None),
        }
    }

    // Adds the instructions of a connection, if there is one, to a register of this type.
    fn tell_next(
        &mut self,
        signals: usize,
        next: &Option<Line>,
        sink: Ty,
    ) -> Result<Option<Stretch>, AllocError>
        requires few { signals < 2 ^ 32 }
        requires line { (shapes : List Shape) × MatchOption next.now ⊤ (IsSource (HasType shapes) (shape sink)) }
        ensures told { IfOk result (λ taped. IsTapedNext signals self.new (shape sink) taped next.now) }
        ensures grown { OnOk result (Grows self.old self.new) }
    {
        match next {
            Some(line) => {
                let stretch = self.tell(signals, line, sink)?;
                Ok(Some(stretch))
            }
            None => Ok(None),
        }
    }

    // The value of a register after a tick with these edges. At an edge of its clock this is its init if its reset
    // condition is 1, otherwise its connected value, or its own if it has no connection. Without an edge it is its own.
    pub(crate) fn next_value(
        &self,
        taped: &TapedRegister,
        _register: &Register,
        own: u128,
        edges: &[bool],
        cells: &mut Cells,
    ) -> u128
        requires taped { IsTapedRegister (length cells.old.values) self.now taped.now _register.now }
        requires lines { IsRegister (HasValue cells.old.values) _register.now }
        requires own { Fits (shape _register.now.ty) own }
        requires room { register_length _register.now ≤ cells.old.room }
        ensures value { result ≡ next_register edges.now cells.old.values _register.now own }
        ensures fits { Fits (shape _register.now.ty) result }
        ensures same { cells.new ≡ cells.old }
    {
        if !ticks(edges, taped.clock) {
            return own;
        }
        match &taped.reset {
            Some(reset) => self.reset_value(reset, taped, _register, own, cells),
            None => self.connected_or(&taped.next, _register, own, cells),
        }
    }

    // The value that a register with this reset takes at an edge of its clock.
    fn reset_value(
        &self,
        reset: &TapedReset,
        taped: &TapedRegister,
        _register: &Register,
        own: u128,
        cells: &mut Cells,
    ) -> u128
        requires taped { IsTapedRegister (length cells.old.values) self.now taped.now _register.now }
        requires reset { taped.now.reset ≡ Some reset.now }
        requires lines { IsRegister (HasValue cells.old.values) _register.now }
        requires own { Fits (shape _register.now.ty) own }
        requires room { register_length _register.now ≤ cells.old.room }
        ensures value { result ≡ taken_value cells.old.values _register.now own }
        ensures fits { Fits (shape _register.now.ty) result }
        ensures same { cells.new ≡ cells.old }
    {
        let condition = self.value(&reset.condition, cells);
        if condition == 1 {
            self.connected(&reset.init, cells)
        } else {
            self.connected_or(&taped.next, _register, own, cells)
        }
    }

    // The connected value of a register, or its own if it has no connection.
    #[inline(always)]
    fn connected_or(
        &self,
        next: &Option<Stretch>,
        _register: &Register,
        own: u128,
        cells: &mut Cells,
    ) -> u128
        requires taped { IsTapedNext (length cells.old.values) self.now (shape _register.now.ty) next.now _register.now.next }
        requires line { MatchOption _register.now.next ⊤ (IsSource (HasValue cells.old.values) (shape _register.now.ty)) }
        requires own { Fits (shape _register.now.ty) own }
        requires room { next_length _register.now.next ≤ cells.old.room }
        ensures value { result ≡ connected_or cells.old.values (shape _register.now.ty) _register.now.next own }
        ensures fits { Fits (shape _register.now.ty) result }
        ensures same { cells.new ≡ cells.old }
    {
        match next {
            Some(stretch) => self.connected(stretch, cells),
            None => own,
        }
    }
}
