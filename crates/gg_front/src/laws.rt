//! Laws of what the bytes of a circuit file mean.
ghost use Rattle.std.specs.Prelude.{◌≡◌, ◌≢◌, ℕ, List};
ghost use Rattle.gg_ast.specs.Tree.{CircuitTree};
ghost use Rattle.gg_flat.specs.Circuit.{FlatCircuit};
ghost use Rattle.gg_order.specs.Design.{IsDesign, Ordered};
ghost use Rattle.gg_read.specs.Text.{Spells, HasReadFault};
ghost use Rattle.gg_read.specs.declared.text.ReadFault.{ReadFault};
ghost use Rattle.gg_read.specs.declared.text.ReadFault.TheVariants as unread;
ghost use Rattle.gg_shape.specs.declared.fault.Fault.{Fault};
ghost use Rattle.gg_front.specs.Accepted.{IsAccepted, IsAcceptedText};
ghost use Rattle.gg_front.specs.inside.Agreement.{Agree};
ghost use Rattle.gg_front.specs.Fault.{HasFrontFault, IsFaulty};
ghost use Rattle.gg_front.specs.Meaning.{Means, MeansDesign, MeansOne};
ghost use Rattle.gg_front.specs.declared.fault.FrontFault.{FrontFault};
ghost use Rattle.gg_front.specs.declared.fault.FrontFault.TheVariants.{NoMemory};

use gg_read::{one_circuit, one_fault_line};

/// The bytes of a circuit file mean at most one flat circuit and one tree of instances. Two designs that they mean
/// therefore differ only in their order.
pub fn one_meaning()
    ensures flat { (bytes : List ℕ) (one other : FlatCircuit) → Means bytes one → Means bytes other → one ≡ other }
    ensures tree { (bytes : List ℕ) (one other : Ordered) → MeansDesign bytes one → MeansDesign bytes other → one.tree ≡ other.tree }
{
    one_circuit();
    gg_elab_sites::one_flat();
}

/// The bytes of an accepted circuit mean a design: a well-formed flat circuit, the tree of its instances and an order.
pub fn each_has_design()
    ensures { (bytes : List ℕ) → IsAcceptedText bytes → (design : Ordered) × IsDesign design × MeansDesign bytes design }
{}

/// The bytes of an accepted circuit mean exactly one flat circuit, which has exactly one run for each trace.
pub fn each_has_one_run()
    ensures { (bytes : List ℕ) → IsAcceptedText bytes → MeansOne bytes }
{
    one_meaning();
}

/// If one circuit that a text spells is accepted, each is.
pub fn acceptance_agrees()
    ensures { (text : List ℕ) (one other : CircuitTree) → Spells text one → Spells text other → IsAccepted one → IsAccepted other }
{
    one_circuit();
}

/// An accepted text has no fault. A text with a fault of reading has no fault of a circuit.
pub fn faults_apart()
    ensures accepted { (text : List ℕ) (fault : FrontFault) → IsAcceptedText text → fault ≢ NoMemory → HasFrontFault text fault → ⊥ }
    ensures read { (text : List ℕ) (one : ReadFault) (fault : Fault) → one ≢ unread.NoMemory → HasReadFault text one → IsFaulty text fault → ⊥ }
{
    one_circuit();
}

/// Two faults of a text, other than `NoMemory`, are the same, or both are rings of modules, or both are combinational
/// loops.
pub fn one_fault()
    ensures { (text : List ℕ) (one other : FrontFault) → HasFrontFault text one → HasFrontFault text other → Agree one other }
{
    one_circuit();
    one_fault_line();
}
