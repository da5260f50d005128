//! Laws: facts about the definitions. Each is the contract of a function with an empty body.
ghost use Rattle.std.specs.Prelude.{◌≡◌, ℕ, List, Bool, length};
ghost use Rattle.gg_flat.specs.Circuit.{FlatCircuit};
ghost use Rattle.gg_flat.specs.Reads.{IsLoop};
ghost use Rattle.gg_flat.specs.State.{State, IsState, opening};
ghost use Rattle.gg_flat.specs.Settled.{Settled};
ghost use Rattle.gg_flat.specs.Order.{IsOrder};
ghost use Rattle.gg_flat.specs.declared.memory.Memory.{Memory};
ghost use Rattle.gg_flat.specs.Memory.{Bank, IsBank, next_bank};
ghost use Rattle.gg_flat.specs.inside.Served.{due_list, after_accesses};
ghost use Rattle.gg_order.specs.inside.AccessLaws.{ServesOneMore, AccessKeepsBank};
ghost use Rattle.gg_order.specs.inside.AgreeLaws.{DriverNeedsItsNames, RegisterNeedsItsNames, MemoryNeedsItsNames, AccessNeedsItsNames};
ghost use Rattle.gg_order.specs.inside.RunLaws.{RunsOnce, OpensOnce, RunsAlong, OpensAlong, StatesAreTyped, RunsJoin, FirstRowsRun, LastRowsRun};
ghost use Rattle.gg_order.specs.inside.SettledLaws.{DependsOnReached, SettlesAlong};

/// If a circuit has an order, there is at most one settled row for a state and a list of inputs.
pub fn settled_once()
    ensures { (circuit : FlatCircuit) (order : List ℕ) (state : State) (inputs v w : List ℕ) → IsOrder circuit order → Settled circuit state inputs v → Settled circuit state inputs w → v ≡ w }
{}

/// If a circuit has an order, the value of a signal depends only on the in-signals that the signal reaches.
pub fn depends_on_reached()
    ensures { DependsOnReached }
{}

/// If a circuit has an order, there is at most one run of a length from a start with columns of inputs. The opening is
/// such a start.
pub fn run_once()
    ensures from { RunsOnce }
    ensures opening { OpensOnce }
{}

/// A circuit that has an order has no combinational loop.
pub fn no_loop()
    ensures { (circuit : FlatCircuit) (order loop : List ℕ) → IsOrder circuit order → ¬ IsLoop circuit loop }
{}

/// The row computed along an order is settled. With `settled_once`: a state and inputs have exactly one settled row.
pub fn settles_along()
    ensures { SettlesAlong }
{}

/// The rows computed along an order are a run. With `run_once`: columns have exactly one run of each length from each
/// start. The opening is such a start.
pub fn runs_along()
    ensures from { RunsAlong }
    ensures opening { OpensAlong }
{}

/// The opening is a state of the circuit, and each state before a cycle of a run is one if the run starts from one.
pub fn states_typed()
    ensures opening { (circuit : FlatCircuit) → IsState circuit (opening circuit) }
    ensures at { StatesAreTyped }
{}

/// Runs can be joined. If a second run starts at the cycle and in the state that a first one leads to, the rows of
/// both, one after the other, are a run from the first start.
pub fn runs_on()
    ensures { RunsJoin }
{}

/// The contents of a memory that has served all accesses of its due list, one after another, are its contents after the
/// cycle.
pub fn all_served()
    ensures { (edges : List Bool) (signals : List ℕ) (memory : Memory) (bank : Bank) → IsBank memory bank
        → after_accesses edges signals memory bank (length (due_list memory)) ≡ next_bank edges signals memory bank }
{}

/// A memory that serves one more access then holds what that access leaves. What an access leaves depends only on the
/// signals that its port's fields name. It has the memory's counts and types.
pub fn one_served()
    ensures more { ServesOneMore }
    ensures agree { AccessNeedsItsNames }
    ensures typed { AccessKeepsBank }
{}

/// A driver's value, a register's next value and a memory's next contents depend only on the signals that they name.
/// Two lists of values that agree on these give the same.
pub fn values_agree()
    ensures drivers { DriverNeedsItsNames }
    ensures registers { RegisterNeedsItsNames }
    ensures memories { MemoryNeedsItsNames }
{}

/// A run can be split. The first n rows of a longer run are a run from the same start, and the rest are a run from
/// where these lead to.
pub fn runs_split()
    ensures first { FirstRowsRun }
    ensures rest { LastRowsRun }
{}
