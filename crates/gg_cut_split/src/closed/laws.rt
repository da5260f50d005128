//! Laws: facts about the definitions. Each is the contract of a function with an empty body.
ghost use Rattle.std.specs.Prelude.{◌≡◌, None};
ghost use Rattle.gg_part.specs.KeepsToTree.{KeepsToTree};
ghost use Rattle.gg_order.specs.Design.{Ordered};
ghost use Rattle.gg_partfile.specs.declared.request.Request.{Request};
ghost use Rattle.gg_cut_plan.specs.Listed.{listed_of};
ghost use Rattle.gg_cut_plan.specs.Fault.{entry_faults, first_fault};
ghost use Rattle.gg_bits.specs.Lists.{first_of};
ghost use Rattle.gg_cut_split.specs.inside.Apart.{AreApart, AreFew};
ghost use Rattle.gg_cut_split.specs.inside.OwnersByPath.{SignalsBelongByPath, InstancesBelongByPath, MemoriesBelongByPath, MachinesHaveListedNames};
ghost use Rattle.gg_cut_split.specs.inside.CutChannels.{OwnersAreAtEnds, SignalsHaveOneChannel, ChannelsHaveTwoEnds};
ghost use Rattle.gg_cut_split.specs.inside.Closed.{DriversNameWithin, RegistersNameWithin, MachinesMakeParts};

/// What a request lists is apart, if its entries have no fault. If the request has no fault at all, it lists at most 256 units
/// and memories, and the plan has at most 16,384 channels.
pub fn listed_apart()
    ensures apart { (design : Ordered) (request : Request) → KeepsToTree design.circuit design.tree
        → first_of (entry_faults design.tree request) ≡ None → AreApart design.tree (listed_of design.tree request) }
    ensures few { (design : Ordered) (request : Request) → first_fault design request ≡ None → AreFew design.circuit design.tree request }
{}

/// Let a request have no fault. A signal belongs to the machine of the longest listed path that holds the signal's path. An instance or a memory
/// belongs to the machine of the longest listed path that is its path or holds it. If there is no such path, it is the hub. In each case exactly one
/// machine fits. The machine of a listed path has that path as its name.
pub fn owner_by_path()
    ensures signals { SignalsBelongByPath }
    ensures instances { InstancesBelongByPath }
    ensures memories { MemoriesBelongByPath }
    ensures names { MachinesHaveListedNames }
{}

/// If what is listed is apart, each channel has the owner of its signal at one of its ends. A port of a unit or a field of a listed memory belongs to
/// the unit or the memory, whichever end gives its value. A port of the top belongs to the hub.
pub fn owner_at_end()
    ensures { OwnersAreAtEnds }
{}

/// If what is listed is apart, no two channels carry the same signal, and the ends of each are two different
/// machines.
pub fn channels_once()
    ensures once { SignalsHaveOneChannel }
    ensures ends { ChannelsHaveTwoEnds }
{}

/// If what is listed is apart, a machine is closed: take a signal that the hub, a unit or a memory makes. Each signal
/// that its driver or its register names is made or taken by the same machine.
pub fn machine_closed()
    ensures drivers { DriversNameWithin }
    ensures registers { RegistersNameWithin }
{}

/// If what is listed is apart, the hub, a unit and a memory each make a part of the circuit. The part has exactly the signals that the machine makes
/// or takes, each once, and exactly the memories that belong to it, each once. Its in-signals are the signals of the channels that the machine takes,
/// its out-signals the signals of the channels that it gives.
pub fn machine_makes_part()
    ensures { MachinesMakeParts }
{}
