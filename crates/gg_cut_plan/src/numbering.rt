//! `Numbering`: the numbers of a cut's machines.
ghost use Rattle.std.specs.Prelude.{◌≡◌, ◌+◌, ◌-◌, ◌<◌, ◌^◌, Some, None, length, if◌then◌else◌};
ghost use Rattle.gg_flat.specs.Line.{value_at};
ghost use Rattle.gg_cut_plan.specs.Machines.{unit_number, memory_after, source_after, first_memory, is_memory};
ghost use Rattle.gg_cut_plan.specs.inside.Machines.{bridge_after, count_end, end_after, silent_by, tray_after, IsRole};

use crate::listed::Listed;
use std::marker::Model;

/// How many machines of each kind a cut has, and thereby which number each of them has: first the hub, then the units, the listed memories, a source
/// for each top input that no bridge drives, a tray for each top output that no bridge sees and for each stop, and the bridges. There are fewer than
/// 2^32. A contract sees the counts.
#[derive(Clone, Copy)]
pub struct Numbering {
    units: u32,
    memories: u32,
    sources: u32,
    trays: u32,
    bridges: u32,
}

/// What a machine is: the hub, or a unit, a listed memory, a source, a tray or a bridge, by its place in its kind.
#[derive(Clone, Copy, PartialEq, Eq)]
pub enum Role {
    Hub,
    Unit(u32),
    Memory(u32),
    Source(u32),
    Tray(u32),
    Bridge(u32),
}

impl Model for Numbering {
    ghost use Rattle.std.specs.Prelude.{◌<◌, ◌^◌};
    ghost use Rattle.gg_cut_plan.specs.inside.Machines.{Counts, end_after};

    ghost Value = { Counts };

    ghost view = { λ n. record { units = n.units; memories = n.memories; sources = n.sources; trays = n.trays; bridges = n.bridges } };

    ghost inverse = { λ n. record { units = n.units; memories = n.memories; sources = n.sources; trays = n.trays; bridges = n.bridges } };

    ghost invariant = { λ n. end_after n.units n.memories n.sources n.trays n.bridges < 2 ^ 32 };
}

impl Numbering {
    /// The numbers of the machines of a cut that lists this, with so many sources, trays and bridges.
    pub fn of(listed: &Listed, sources: usize, trays: usize, bridges: usize) -> Numbering
        requires { end_after (length listed.now.units) (length listed.now.memories) sources trays bridges < 2 ^ 32 }
        ensures { result ≡ record { units = length listed.now.units; memories = length listed.now.memories; sources = sources; trays = trays; bridges = bridges } }
    {
        Numbering {
            units: listed.units.as_slice().len() as u32,
            memories: listed.memories.as_slice().len() as u32,
            sources: sources as u32,
            trays: trays as u32,
            bridges: bridges as u32,
        }
    }

    /// The number of the unit at a place.
    pub fn unit(&self, place: usize) -> u32
        requires { place < self.now.units }
        ensures { result ≡ unit_number place }
    {
        // counted back from the number after the last unit
        let memory = 1 + self.units;
        memory - (self.units - place as u32)
    }

    /// The number of the listed memory at a place.
    pub fn memory(&self, place: usize) -> u32
        requires { place < self.now.memories }
        ensures { result ≡ memory_after self.now.units + place }
    {
        1 + self.units + place as u32
    }

    /// The number of the first source, after the listed memories.
    pub fn first_source(&self) -> usize
        ensures { result ≡ source_after self.now.units self.now.memories }
    {
        (1 + self.units + self.memories) as usize
    }

    /// The number of the first tray, after the sources.
    pub fn first_tray(&self) -> usize
        ensures { result ≡ tray_after self.now.units self.now.memories self.now.sources }
    {
        (1 + self.units + self.memories + self.sources) as usize
    }

    /// The number of the first bridge, after the trays.
    pub fn first_bridge(&self) -> usize
        ensures { result ≡ bridge_after self.now.units self.now.memories self.now.sources self.now.trays }
    {
        (1 + self.units + self.memories + self.sources + self.trays) as usize
    }

    /// How many machines there are.
    pub fn count(&self) -> usize
        ensures { result ≡ count_end self.now }
    {
        (1 + self.units + self.memories + self.sources + self.trays + self.bridges) as usize
    }

    /// Whether the machine with a number is a listed memory or a bridge.
    pub fn is_silent(&self, machine: u32) -> bool
        ensures { result ≡ silent_by self.now machine }
    {
        let memory = 1 + self.units;
        let source = memory + self.memories;
        let bridge = source + self.sources + self.trays;
        (machine >= memory && machine < source) || machine >= bridge
    }

    /// What the machine with a number is.
    pub fn role(&self, machine: usize) -> Role
        requires { machine < count_end self.now }
        ensures { IsRole self.now machine result }
    {
        let memory = 1 + self.units;
        let source = memory + self.memories;
        let tray = source + self.sources;
        let bridge = tray + self.trays;
        let number = machine as u32;
        if number == 0 {
            Role::Hub
        } else if number < memory {
            Role::Unit(number - 1)
        } else if number < source {
            Role::Memory(number - memory)
        } else if number < tray {
            Role::Source(number - source)
        } else if number < bridge {
            Role::Tray(number - tray)
        } else {
            Role::Bridge(number - bridge)
        }
    }
}

impl Listed {
    /// The place in the tree of the listed memory that a machine is; `None` if it isn't one.
    pub fn memory_of(&self, machine: usize) -> Option<u32>
        ensures { result ≡ (if is_memory self.now machine then Some (value_at self.now.memories (machine - first_memory self.now)) else None) }
    {
        let first = 1 + self.units.as_slice().len();
        let memories = self.memories.as_slice();
        if machine >= first && machine - first < memories.len() {
            Some(memories[machine - first])
        } else {
            None
        }
    }
}
