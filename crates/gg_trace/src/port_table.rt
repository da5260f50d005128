//! The places of ports by their names.

ghost use Rattle.std.specs.Prelude.{◌≡◌, length, MatchOption, IfOk};
ghost use Rattle.gg_trace.specs.Ports.{IsNamed};
ghost use Rattle.gg_trace.specs.inside.Ports.{NamesNone};
ghost use Rattle.gg_trace.specs.inside.Places.{TellsPorts};

use gg_flat::Port;
use std::alloc::{AllocError, Global};
use std::collections::HashMap;
use std::marker::Model;

// The place of each port by its name. A contract sees the list of the ports.
pub(crate) struct PortTable<'a> {
    ports: &'a [Port],
    places: HashMap<&'a [u8], usize>,
}

impl Drop for PortTable<'_> {
    fn drop(self) {
        let Self { ports: _, places } = self;
        drop(places);
    }
}

impl<'a> Model for PortTable<'a> {
    ghost use Rattle.std.specs.Prelude.{List, length};
    ghost use Rattle.gg_flat.specs.declared.ports.Port.{Port as PortValue};
    ghost use Rattle.gg_trace.specs.inside.Places.{TellsPorts};

    ghost Value = { List PortValue };

    ghost view = { λ table. table.ports.now };

    ghost invariant = { λ table. TellsPorts table.ports.now (length table.ports.now) table.places };
}

// The place of each port by its name. If several ports have the same name, the last one counts.
fn places_of(alloc: Global, ports: &[Port]) -> Result<HashMap<&[u8], usize>, AllocError>
    ensures { IfOk result (TellsPorts ports.now (length ports.now)) }
{
    let mut places = HashMap::new(alloc);
    for (i, port) in ports.iter().enumerate() {
        places.insert(port.name.as_bytes(), i)?;
    }
    Ok(places)
}

impl<'a> PortTable<'a> {
    // The table of these ports.
    pub(crate) fn of(alloc: Global, ports: &'a [Port]) -> Result<PortTable<'a>, AllocError>
        ensures { IfOk result (λ table. table ≡ ports.now) }
    {
        let places = places_of(alloc, ports)?;
        Ok(PortTable { ports, places })
    }

    // The number of ports.
    pub(crate) fn len(&self) -> usize
        ensures { result ≡ length self.now }
    {
        self.ports.len()
    }

    // The place of the port with this name, if there is one.
    pub(crate) fn place(&self, name: &[u8]) -> Option<usize>
        ensures { MatchOption result (NamesNone self.now name.now) (IsNamed self.now name.now) }
    {
        self.places.get(name).copied()
    }
}
