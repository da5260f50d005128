//! The machine that each instance belongs to.
ghost use Rattle.std.specs.Prelude.{◌≡◌, ℕ, ◌<◌, ◌==◌, length, replicate, All, IfOk};
ghost use Rattle.gg_flat.specs.Line.{value_at};
ghost use Rattle.gg_flat_tree.specs.Tree.{instance_at};
ghost use Rattle.gg_cut_plan.specs.inside.Listed.{ParentsBefore};
ghost use Rattle.gg_cut_plan.specs.Listed.{unit_or_hub, first_place, owner_of_instance};
ghost use Rattle.gg_cut_plan.specs.inside.Owners.{earlier, above};

use crate::numbering::Numbering;
use gg_flat_tree::Tree;
use std::alloc::{AllocError, Global};

/// The parent of an instance. The top has none.
pub fn parent_of(tree: &Tree, place: u32) -> Option<u32>
    requires { place < length tree.now.instances }
    ensures { result ≡ (instance_at tree.now place).parent }
{
    tree.instances()[place as usize].parent
}

/// The machines of the instances, by their places: the unit that an instance is in, otherwise the hub. Units are
/// instances, and in the tree each instance comes after its parent.
///
/// # Errors
///
/// Returns `AllocError` if an allocation fails.
pub fn owners_of(
    alloc: Global,
    tree: &Tree,
    numbering: &Numbering,
    units: &[u32],
) -> Result<Vec<u32>, AllocError>
    requires parents { ParentsBefore tree.now }
    requires known { All (λ unit. unit < length tree.now.instances) units.now }
    requires units { numbering.now.units ≡ length units.now }
    ensures count { IfOk result (λ owners. length owners.items ≡ length tree.now.instances) }
    ensures owners { IfOk result (λ owners. (k : ℕ) → k < length tree.now.instances → value_at owners.items k ≡ owner_of_instance tree.now units.now k) }
{
    let mut owners = zeros(alloc, tree.len())?;
    fill_owners(tree, numbering, units, &mut owners);
    Ok(owners)
}

// Gives each instance its machine. At first all have 0.
fn fill_owners(tree: &Tree, numbering: &Numbering, units: &[u32], owners: &mut [u32])
    requires parents { ParentsBefore tree.now }
    requires known { All (λ unit. unit < length tree.now.instances) units.now }
    requires units { numbering.now.units ≡ length units.now }
    requires zeros { (k : ℕ) → value_at owners.old k ≡ 0 }
    requires count { length owners.old ≡ length tree.now.instances }
    ensures count { length owners.new ≡ length owners.old }
    ensures owners { (k : ℕ) → k < length tree.now.instances → value_at owners.new k ≡ owner_of_instance tree.now units.now k }
{
    number_units(owners, numbering, units);
    for place in 0..tree.len() {
        let above = owner_above(tree, owners, place as u32);
        let owner = earlier_of(owners[place], above);
        owners[place] = owner;
    }
}

// This many zeros.
fn zeros(alloc: Global, count: usize) -> Result<Vec<u32>, AllocError>
    ensures { IfOk result (λ zeros. zeros.items ≡ replicate count 0) }
{
    vec![in alloc; 0; count]
}

// Gives each unit its machine's number. At first all have 0. A unit that is listed twice gets the number of its first
// place.
fn number_units(owners: &mut [u32], numbering: &Numbering, units: &[u32])
    requires known { All (λ unit. unit < length owners.old) units.now }
    requires units { numbering.now.units ≡ length units.now }
    requires zeros { (k : ℕ) → value_at owners.old k ≡ 0 }
    ensures count { length owners.new ≡ length owners.old }
    ensures numbers { (k : ℕ) → value_at owners.new k ≡ unit_or_hub (first_place (λ unit. k == unit) units.now) }
{
    for number in 0..units.len() {
        let unit = units[number];
        if owners[unit as usize] == 0 {
            owners[unit as usize] = numbering.unit(number);
        }
    }
}

// The machine of an instance's parent, or the hub if it has none.
fn owner_above(tree: &Tree, owners: &[u32], place: u32) -> u32
    requires parents { ParentsBefore tree.now }
    requires known { place < length tree.now.instances }
    requires count { length owners.now ≡ length tree.now.instances }
    ensures { result ≡ above tree.now owners.now place }
{
    match parent_of(tree, place) {
        Some(parent) => owners[parent as usize],
        None => 0,
    }
}

// The earlier of two units, by their machines; 0 is the hub, which comes last.
fn earlier_of(a: u32, b: u32) -> u32
    ensures { result ≡ earlier a b }
{
    if a == 0 {
        b
    } else if b == 0 || a < b {
        a
    } else {
        b
    }
}
