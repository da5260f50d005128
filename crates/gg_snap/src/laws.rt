//! Laws: facts about snapshots. Each is the contract of a function with an empty body.
ghost use Rattle.gg_snap.specs.inside.StatesHeld.{MachinesAreInTheState, MemoriesAreKept, PlansAreWhole, PlansCanSave, RegistersAreHeld, TheWholeStateIsThere};

/// A state of the circuit that a plan's network computes can be saved.
pub fn plans_can_save()
    ensures { PlansCanSave }
{}

/// Each register of the circuit that a plan's network computes is held by a signal, and each of its memories is in the tree.
pub fn plans_are_whole()
    ensures { PlansAreWhole }
{}

/// The machines of a plan hold all registers of the design's circuit, and have all of its memories.
pub fn plans_have_all()
    ensures registers { RegistersAreHeld }
    ensures memories { MemoriesAreKept }
{}

/// At the end of a run each machine of the network of a plan without bridges is in its part of the state of the reference circuit. The channel of
/// each pipe has one token, the value of the pipe's register. Therefore the network has all of that state.
pub fn networks_hold_states()
    ensures inside { MachinesAreInTheState }
    ensures all { TheWholeStateIsThere }
{}
