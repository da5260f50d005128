//! What the machines of a plan have, by their numbers: names, hosts and channels.
ghost use Rattle.std.specs.Prelude.{◌≡◌, ◌<◌, [], length, slice_index_or, IfOk};
ghost use Rattle.gg_cut_parts.specs.inside.Draft.{IsDraft};
ghost use Rattle.gg_cut_machines.specs.inside.Drafted.{AreDraftPlaces};

use crate::hosts::{Hosts, hosts_of};
use crate::names::machine_names;
use gg_bits::Name;
use gg_cut_parts::Draft;
use gg_cut_split::{Sides, sides_of};
use std::alloc::{AllocError, Global};

/// The names and the hosts of machines, and the channels that they take and give, by the machines' numbers.
pub struct Places {
    /// The names.
    pub names: Vec<Name>,
    /// The hosts.
    pub hosts: Hosts,
    /// The channels that each machine takes and gives.
    pub sides: Sides,
}

impl Drop for Places {
    fn drop(self) {
        let Self {
            names,
            hosts,
            sides,
        } = self;
        drop(names);
        drop(hosts);
        drop(sides);
    }
}

/// The names, the hosts and the channels of all machines of a plan.
///
/// # Errors
///
/// Returns `AllocError` if an allocation fails.
pub fn places_of(alloc: Global, draft: &Draft) -> Result<Places, AllocError>
    requires { IsDraft draft.now }
    ensures { IfOk result (λ places. AreDraftPlaces draft.now places) }
{
    let count = draft.numbering().count();
    let names = machine_names(alloc, draft)?;
    let hosts = hosts_of(alloc, draft, count)?;
    let sides = sides_of(alloc, draft.wires(), count)?;
    Ok(Places {
        names,
        hosts,
        sides,
    })
}

/// The channels that a machine takes.
pub fn taken(places: &Places, number: usize) -> &[u32]
    requires { number < length places.now.sides.ins.items }
    ensures { result.now ≡ slice_index_or places.now.sides.ins.items number [] }
{
    places.sides.ins[number].as_slice()
}

/// The channels that a machine gives.
pub fn given(places: &Places, number: usize) -> &[u32]
    requires { number < length places.now.sides.outs.items }
    ensures { result.now ≡ slice_index_or places.now.sides.outs.items number [] }
{
    places.sides.outs[number].as_slice()
}
