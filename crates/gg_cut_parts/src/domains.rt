//! `Domains`: what the machines of a cut follow.
ghost use Rattle.std.specs.Prelude.{◌≡◌, ℕ, ◌≤◌, ◌<◌, ◌^◌, [], length, slice_index_or, All, IfOk, OnOk};
ghost use Rattle.gg_part.specs.KeepsToTree.{KeepsToTree};
ghost use Rattle.gg_cut_plan.specs.Held.{AreHeldOnce};
ghost use Rattle.gg_cut_plan.specs.Machines.{first_unit, first_memory};
ghost use Rattle.gg_cut_plan.specs.Plan.{clock_home};
ghost use Rattle.gg_cut_parts.specs.inside.Domains.{AreDomains, AreUnitClocks};

use crate::tables::{inner_table, innermost, port_table, register_table};
use crate::whole::whole_clocking;
use gg_bits::Items;
use gg_cut_plan::{Listed, marks_of};
use gg_flat_tree::ClockNumbers;
use gg_order::Design;
use gg_part::Clocking;
use std::alloc::{AllocError, Global};

/// The clocks that the machines of a cut follow. Code that makes a `Domains` has to ensure `AreDomains` (`specs/inside/Domains`), as `domains_of`
/// does.
pub struct Domains {
    /// The clocks of the circuit that registers and ports follow.
    pub whole: Clocking,
    /// The Clock inputs of the units that registers and ports follow inside of them.
    pub units: Clocking,
    /// For each instance the clocks of the circuit that its Clock inputs follow.
    pub clocks: Items<ClockNumbers>,
}

impl Drop for Domains {
    fn drop(self) {
        let Self {
            whole,
            units,
            clocks,
        } = self;
        drop(whole);
        drop(units);
        drop(clocks);
    }
}

impl Domains {
    /// What the registers and ports of a machine follow: the Clock inputs of a unit, and for the hub and for a memory the clocks of the
    /// circuit.
    pub fn clocking(&self, listed: &Listed, machine: usize) -> &Clocking
        ensures hub { machine ≡ 0 → result.now ≡ self.now.whole }
        ensures unit { first_unit ≤ machine → machine < first_memory listed.now → result.now ≡ self.now.units }
        ensures memory { first_memory listed.now ≤ machine → result.now ≡ self.now.whole }
    {
        if machine == 0 || machine > listed.units.as_slice().len() {
            &self.whole
        } else {
            &self.units
        }
    }

    /// For each clock of a machine the clock of the circuit that it follows, if any.
    pub fn clocks(&self, listed: &Listed, machine: usize) -> &[Option<u32>]
        ensures { result.now ≡ slice_index_or self.now.clocks (clock_home listed.now machine) [] }
    {
        let home = home_of(listed, machine);
        match self.clocks.as_slice().get(home as usize) {
            Some(clocks) => clocks.as_slice(),
            None => &[],
        }
    }
}

// The instance with the Clock inputs of a machine.
fn home_of(listed: &Listed, machine: usize) -> u32
    ensures { result ≡ clock_home listed.now machine }
{
    if machine == 0 {
        return 0;
    }
    match listed.units.as_slice().get(machine - 1) {
        Some(unit) => *unit,
        None => 0,
    }
}

/// The clocks that the machines of a cut follow.
///
/// # Errors
///
/// Returns `AllocError` if an allocation fails, or if an instance has more than 4,294,967,295 Clock inputs.
pub fn domains_of(alloc: Global, design: &Design, listed: &Listed) -> Result<Domains, AllocError>
    requires keeps { KeepsToTree design.now.circuit design.now.tree }
    requires held { AreHeldOnce design.now.circuit }
    requires units { All (λ k. k < length design.now.tree.instances) listed.now.units }
    ensures { IfOk result (λ domains. AreDomains design.now listed.now domains) }
{
    let whole = whole_clocking(alloc, design.piece())?;
    let units = unit_clocking(alloc, design, listed)?;
    let clocks = design.tree().top_clocks(alloc)?;
    check_few(&clocks)?;
    Ok(Domains {
        whole,
        units,
        clocks: Items::from(clocks),
    })
}

// Refuses an instance with more than 4,294,967,295 Clock inputs.
fn check_few(clocks: &[ClockNumbers]) -> Result<(), AllocError>
    ensures { OnOk result ((k : ℕ) → length (slice_index_or clocks.now k []) < 2 ^ 32) }
{
    for own in clocks {
        if own.as_slice().len() > u32::MAX as usize {
            return Err(AllocError);
        }
    }
    Ok(())
}

// What registers and ports follow inside of the units.
fn unit_clocking(alloc: Global, design: &Design, listed: &Listed) -> Result<Clocking, AllocError>
    requires keeps { KeepsToTree design.now.circuit design.now.tree }
    requires held { AreHeldOnce design.now.circuit }
    requires units { All (λ k. k < length design.now.tree.instances) listed.now.units }
    ensures { IfOk result (λ clocking. AreUnitClocks design.now listed.now clocking) }
{
    let piece = design.piece();
    let tree = design.tree();
    let homes = marks_of(alloc, tree.instances().len(), listed.units.as_slice())?;
    let inner = inner_table(alloc, tree, &homes)?;
    let places = innermost(alloc, tree, piece.signals().len())?;
    let registers = register_table(alloc, piece, tree, &inner, &places)?;
    let ports = port_table(alloc, tree.memories(), &inner)?;
    Ok(Clocking {
        registers: ClockNumbers::from(registers),
        ports: Items::from(ports),
    })
}
