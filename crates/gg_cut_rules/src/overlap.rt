//! Units that are in one another.
ghost use Rattle.std.specs.Prelude.{◌≡◌, ℕ, List, ◌<◌, ◌||◌, false, length, option_map};
ghost use Rattle.std.specs.List.{list_any};
ghost use Rattle.gg_flat_tree.specs.Tree.{instance_at};
ghost use Rattle.gg_order.specs.Marks.{is_marked};
ghost use Rattle.gg_cut_plan.specs.inside.Listed.{ParentsBefore, AreMarks};
ghost use Rattle.gg_cut_plan.specs.Listed.{instance_of, lies};
ghost use Rattle.gg_cut_plan.specs.Fault.{Tells, overlapping};
ghost use Rattle.gg_cut_plan.specs.declared.fault.CutFault.TheVariants.{Doubled};

use crate::entries::doubled;
use crate::paths::instance;
use gg_bits::Name;
use gg_cut_plan::{CutFault, parent_of, unmarked};
use gg_flat_tree::Tree;
use std::alloc::Global;

// Checks that no unit holds an earlier one, is in an earlier one or equals one.
//
// In the tree each instance comes after its parent.
//
// # Errors
//
// Returns `Doubled` with the first unit that does, or `NoMemory` if an allocation fails.
pub(crate) fn none_overlap(alloc: Global, tree: &Tree, units: &[Name]) -> Result<(), CutFault>
    requires some { 0 < length tree.now.instances }
    requires parents { ParentsBefore tree.now }
    ensures { Tells (option_map Doubled (overlapping tree.now units.now)) result }
{
    let mut own = unmarked(alloc, tree.len())?;
    let mut above = unmarked(alloc, tree.len())?;
    check_apart(tree, units, &mut own, &mut above)
}

// Checks that no unit overlaps an earlier one. At first nothing is marked. Marks the units in `own`, and the
// instances that they are in in `above`.
fn check_apart(
    tree: &Tree,
    units: &[Name],
    own: &mut [bool],
    above: &mut [bool],
) -> Result<(), CutFault>
    requires some { 0 < length tree.now.instances }
    requires parents { ParentsBefore tree.now }
    requires own { (k : ℕ) → is_marked own.old k ≡ false }
    requires above { (k : ℕ) → is_marked above.old k ≡ false }
    requires own_count { length own.old ≡ length tree.now.instances }
    requires above_count { length above.old ≡ length tree.now.instances }
    ensures { Tells (option_map Doubled (overlapping tree.now units.now)) result }
{
    for path in units {
        let place = place(tree, path);
        if overlaps(tree, own, above, place) {
            return Err(doubled(path));
        }
        own[place as usize] = true;
        mark_above(tree, above, place);
    }
    Ok(())
}

// Whether an instance is in a unit or holds one. The units are marked in `own`, and what they are in is marked in
// `above`.
fn overlaps(tree: &Tree, own: &[bool], above: &[bool], place: u32) -> bool
    requires parents { ParentsBefore tree.now }
    requires known { place < length tree.now.instances }
    requires own { length own.now ≡ length tree.now.instances }
    requires above { length above.now ≡ length tree.now.instances }
    ensures { (units : List ℕ) → AreMarks units own.now → result ≡ (list_any (lies tree.now place) units || is_marked above.now place) }
{
    lies_in_marked(tree, own, place) || above[place as usize]
}

// The place of the instance with a path, or of the top if there is none.
pub(crate) fn place(tree: &Tree, path: &Name) -> u32
    requires some { 0 < length tree.now.instances }
    ensures place { result ≡ instance_of tree.now path.now }
    ensures within { result < length tree.now.instances }
{
    // for the invariant only
    let _ = tree.len();
    match instance(tree, path) {
        Some(place) => place,
        None => 0,
    }
}

// Whether an instance is marked, or is in a marked one.
fn lies_in_marked(tree: &Tree, marks: &[bool], place: u32) -> bool
    requires parents { ParentsBefore tree.now }
    requires known { place < length tree.now.instances }
    requires count { length marks.now ≡ length tree.now.instances }
    ensures { (units : List ℕ) → AreMarks units marks.now → result ≡ list_any (lies tree.now place) units }
{
    let mut node = place;
    'chain: loop {
        if marks[node as usize] {
            return true;
        }
        match parent_of(tree, node) {
            Some(parent) => node = parent,
            None => return false,
        }
    }
}

// Marks an instance and all instances that it is in.
fn mark_above(tree: &Tree, marks: &mut [bool], place: u32)
    requires parents { ParentsBefore tree.now }
    requires known { place < length tree.now.instances }
    requires count { length marks.old ≡ length tree.now.instances }
    ensures above { (k : ℕ) → is_marked marks.new k ≡ (is_marked marks.old k || lies tree.now place k) }
    ensures count { length marks.new ≡ length marks.old }
{
    let mut node = place;
    'chain: loop {
        marks[node as usize] = true;
        match parent_of(tree, node) {
            Some(parent) => node = parent,
            None => return,
        }
    }
}
