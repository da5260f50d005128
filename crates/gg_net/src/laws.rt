//! Laws: facts about the definitions. Each is the contract of a function with an empty body.
ghost use Rattle.std.specs.Prelude.{◌≡◌, ℕ, ◌<◌, length};
ghost use Rattle.gg_flat.specs.Streams.{Flow};
ghost use Rattle.gg_node.specs.Machine.{machine_at};
ghost use Rattle.gg_net.specs.declared.event.Event.{Event};
ghost use Rattle.gg_net.specs.declared.event.StepRefusal.{StepRefusal};
ghost use Rattle.gg_net.specs.Network.{Network, frame_of};
ghost use Rattle.gg_net.specs.inside.Network.{SameCounts};
ghost use Rattle.gg_net.specs.Kept.{Kept};
ghost use Rattle.gg_net.specs.Step.{Ready, Refused, Step};
ghost use Rattle.gg_net.specs.inside.TrayLaws.{TraysTell, TraysTellOnly};

/// An event of a network that is kept, if it may be done, can be done in exactly one way. It isn't refused.
pub fn goes_once()
    ensures goes { (flow : Flow) (net : Network) (event : Event) → Kept flow net → Ready net event → (new : Network) × Step net event new }
    ensures once { (flow : Flow) (net : Network) (event : Event) (one other : Network) → Kept flow net → Step net event one → Step net event other → one ≡ other }
    ensures never { (net : Network) (event : Event) (cause : StepRefusal) → Ready net event → Refused net event cause → ⊥ }
{}

/// A network that is kept is determined by its flow, its frame, and its counts.
pub fn counted_once()
    ensures { (flow : Flow) (a b : Network) → Kept flow a → Kept flow b → frame_of a ≡ frame_of b → SameCounts a b → a ≡ b }
{}

/// A network that is kept goes on: while a machine has cycles left, some event may be done.
pub fn goes_on()
    ensures { (flow : Flow) (net : Network) (m : ℕ) → Kept flow net → m < length net.machines → (machine_at net.machines m).cycle < net.end → (event : Event) × Ready net event }
{}

/// An event of a network that is kept is refused for one cause only.
pub fn refused_once()
    ensures { (flow : Flow) (net : Network) (event : Event) (cause other : StepRefusal) → Kept flow net → Refused net event cause → Refused net event other → cause ≡ other }
{}

/// A tray of a network that is kept has the values of its channel in its last `rows` cycles, since the beginning, and
/// no others.
pub fn trays_tell()
    ensures tells { TraysTell }
    ensures only { TraysTellOnly }
{}
