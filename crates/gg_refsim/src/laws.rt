//! A run, cycle by cycle. Laws: facts about the definitions. Each is the contract of a function with an empty body.
ghost use Rattle.std.specs.Prelude.{◌≡◌, ℕ, List, []};
ghost use Rattle.gg_flat.specs.Circuit.{FlatCircuit};
ghost use Rattle.gg_flat.specs.Run.{Start, IsRunFrom, state_at};
ghost use Rattle.gg_refsim.specs.inside.RunByCycles.{RunContinues, StateContinues};

/// The empty list of rows is the run of 0 cycles from a start. The state after it is the start's.
pub fn run_begins()
    ensures run { (circuit : FlatCircuit) (start : Start) (columns : List (List ℕ)) → IsRunFrom circuit start columns 0 [] }
    ensures state { (circuit : FlatCircuit) (start : Start) → start.state ≡ state_at circuit start [] 0 }
{}

/// A run of n cycles is extended by one cycle to a run of n + 1 cycles. The cycle begins in the state that the run
/// leads to, and has the inputs of the next cycle number. The longer run leads to the state after that cycle.
pub fn run_continues()
    ensures run { RunContinues }
    ensures state { StateContinues }
{}
