//! Laws: facts about snapshots. Each is the contract of a function with an empty body.
ghost use Rattle.std.specs.Prelude.{◌≡◌, ℕ, List};
ghost use Rattle.gg_flat.specs.Circuit.{FlatCircuit};
ghost use Rattle.gg_flat.specs.State.{State};
ghost use Rattle.gg_flat_tree.specs.Tree.{InstanceTree};
ghost use Rattle.gg_snap.specs.text.Known.{CanSave};
ghost use Rattle.gg_snap.specs.text.Standing.{IsFirstFault, IsSnap};
ghost use Rattle.gg_snap.specs.inside.OneSnap.{SnapshotIsOne, TreesCanSave};

/// The states of a circuit with its tree can be saved, if no two signals hold one register, and no path has a blank or a line feed.
pub fn trees_can_save()
    ensures { TreesCanSave }
{}

/// A text is the snapshot of at most one cycle, and of at most one state where each register has a signal that holds it and each memory a
/// place in the tree. Where the circuit can be saved, the text of a snapshot has no fault. Each text has at most one first fault.
pub fn one_snapshot()
    ensures once { SnapshotIsOne }
    ensures cycle { (circuit : FlatCircuit) (tree : InstanceTree) (text : List ℕ) (c d : ℕ) (s t : State) → IsSnap circuit tree text c s → IsSnap circuit tree text d t → c ≡ d }
    ensures apart { (circuit : FlatCircuit) (tree : InstanceTree) (text : List ℕ) (cycle line : ℕ) (s : State) →
        CanSave circuit tree → IsSnap circuit tree text cycle s → IsFirstFault circuit tree text line → ⊥ }
    ensures first { (circuit : FlatCircuit) (tree : InstanceTree) (text : List ℕ) (line other : ℕ) → IsFirstFault circuit tree text line → IsFirstFault circuit tree text other → line ≡ other }
{}
