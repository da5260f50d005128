//! The memories, the ports and the stops of the flat circuit.
ghost use Rattle.std.specs.Prelude.{◌≡◌, ◌<◌, ◌++◌, ◌∷◌, [], List, map, length, All, IfOk, OnOk};
ghost use Rattle.gg_ast.specs.declared.module.Direction.TheVariants as direction;
ghost use Rattle.gg_elab_sites.specs.Sites.{module_at};
ghost use Rattle.gg_flat_tree.specs.Clocked.{clock_at as clock_at_number};
ghost use Rattle.gg_flat_tree.specs.Tree.{joined as joined_text};
ghost use Rattle.gg_elab_sites.specs.Clocks.{port_clock as clock_of_port, site_clocks};
ghost use Rattle.gg_elab_sites.specs.inside.Views.{IsPlaceIn, site_of, AreDigests};
ghost use Rattle.gg_elab.specs.inside.Building.{HasMemories, memory_of};
ghost use Rattle.gg_elab_sites.specs.Flat.{FlatMemory, flat_memories, stop_paths};
ghost use Rattle.gg_elab_sites.specs.IsFlat.{IsMemoryOf, reader_of, writer_of, number_of, field_number, port_names};
ghost use Rattle.gg_elab_sites.specs.Known.{types_of};

use crate::site::Site;
use gg_ast::{Direction, Port};
use gg_bits::{Name, Paths};
use gg_elab_sites::{
    Digest, OwnMemory, OwnStop, Place, Table, field_name, joined, number, port_clock,
};
use gg_flat::{Memory, Piece, Reader, Readers, Writer, Writers};
use gg_flat_tree::clock_at;
use gg_types::{Typed, ground_type};
use std::alloc::{AllocError, Global};

// The field of a port of the memory of this path, as a signal.
fn field(
    alloc: Global,
    paths: &Paths,
    memory: &Name,
    port: &Name,
    name: &str,
) -> Result<u32, AllocError>
    ensures { IfOk result (λ signal. signal ≡ field_number paths.now memory.now port.now name.now) }
{
    let path = field_name(alloc, memory, port, name)?;
    Ok(number(paths, &path))
}

// The clock of the circuit that a port of a memory of a site follows.
fn clock(alloc: Global, site: &Site, memory: &Name, port: &Name) -> Result<Option<u32>, AllocError>
    ensures { IfOk result (λ clock. clock ≡ clock_at_number
        (site_clocks site.now.typed.now.circuit.modules (site_of site.now.place.now))
        (clock_of_port (module_at site.now.typed.now.circuit.modules site.now.place.now.number) memory.now port.now)) }
{
    let number = site.place.number;
    let own = port_clock(alloc, site.typed, site.digests, number, memory, port)?;
    Ok(clock_at(site.place.clocks.as_slice(), own))
}

// A reader of a memory of a site. The memory's path is given.
fn reader(
    alloc: Global,
    site: &Site,
    own: &OwnMemory,
    path: &Name,
    port: &Name,
) -> Result<Reader, AllocError>
    requires { path.now ≡ joined_text site.now.place.now.path own.now.name.now }
    ensures { IfOk result (λ reader. reader ≡ reader_of site.now.table.now.paths (memory_of site.now own.now) port.now) }
{
    let paths = &site.table.paths;
    Ok(Reader {
        addr: field(alloc, paths, path, port, "addr")?,
        en: field(alloc, paths, path, port, "en")?,
        word: field(alloc, paths, path, port, "data")?,
        clock: clock(alloc, site, own.name, port)?,
    })
}

// A writer of a memory of a site. The memory's path is given.
fn writer(
    alloc: Global,
    site: &Site,
    own: &OwnMemory,
    path: &Name,
    port: &Name,
) -> Result<Writer, AllocError>
    requires { path.now ≡ joined_text site.now.place.now.path own.now.name.now }
    ensures { IfOk result (λ writer. writer ≡ writer_of site.now.table.now.paths (memory_of site.now own.now) port.now) }
{
    let paths = &site.table.paths;
    Ok(Writer {
        addr: field(alloc, paths, path, port, "addr")?,
        en: field(alloc, paths, path, port, "en")?,
        word: field(alloc, paths, path, port, "data")?,
        mask: field(alloc, paths, path, port, "mask")?,
        clock: clock(alloc, site, own.name, port)?,
    })
}

// The readers of a memory of a site. The memory's path is given.
fn readers(
    alloc: Global,
    site: &Site,
    own: &OwnMemory,
    path: &Name,
) -> Result<Vec<Reader>, AllocError>
    requires { path.now ≡ joined_text site.now.place.now.path own.now.name.now }
    ensures { IfOk result (λ readers. readers.items ≡ map (λ port. reader_of site.now.table.now.paths (memory_of site.now own.now) port.now) own.now.bank.readers.items) }
{
    let mut readers = Vec::new(alloc);
    let ports = own.bank.readers.as_slice();
    for port in ports {
        let next = reader(alloc, site, own, path, port)?;
        readers.reserve(1)?;
        readers.push_reserved(next);
    }
    Ok(readers)
}

// The writers of a memory of a site. The memory's path is given.
fn writers(
    alloc: Global,
    site: &Site,
    own: &OwnMemory,
    path: &Name,
) -> Result<Vec<Writer>, AllocError>
    requires { path.now ≡ joined_text site.now.place.now.path own.now.name.now }
    ensures { IfOk result (λ writers. writers.items ≡ map (λ port. writer_of site.now.table.now.paths (memory_of site.now own.now) port.now) own.now.bank.writers.items) }
{
    let mut writers = Vec::new(alloc);
    let ports = own.bank.writers.as_slice();
    for port in ports {
        let next = writer(alloc, site, own, path, port)?;
        writers.reserve(1)?;
        writers.push_reserved(next);
    }
    Ok(writers)
}

// A memory of a site.
fn memory(alloc: Global, site: &Site, own: &OwnMemory) -> Result<Memory, AllocError>
    ensures { IfOk result (IsMemoryOf site.now.table.now.paths (memory_of site.now own.now)) }
{
    let path = joined(alloc, &site.place.path, own.name)?;
    let bank = &own.bank;
    Ok(Memory {
        word: bank.word,
        depth: bank.depth,
        latency: bank.latency,
        readers: Readers::from(readers(alloc, site, own, &path)?),
        writers: Writers::from(writers(alloc, site, own, &path)?),
    })
}

// Adds these memories of a site.
fn add_memories(
    alloc: Global,
    site: &Site,
    memories: &[OwnMemory],
    piece: &mut Piece,
) -> Result<(), AllocError>
    ensures { OnOk result ((said : List FlatMemory) → HasMemories site.now.table.now.paths said piece.old piece.old
        → HasMemories site.now.table.now.paths (said ++ map (memory_of site.now) memories.now) piece.old piece.new) }
{
    for own in memories {
        let made = memory(alloc, site, own)?;
        piece.add_memory(made)?;
    }
    Ok(())
}

// Adds the memories of all sites.
pub(crate) fn add_all_memories<'a>(
    alloc: Global,
    typed: &Typed<'a>,
    table: &Table,
    digests: &[Digest<'a>],
    places: &[Place<'a>],
    piece: &mut Piece,
) -> Result<(), AllocError>
    requires even { length table.now.types.items ≡ length table.now.paths }
    requires digests { AreDigests (types_of typed.now.circuit) typed.now.circuit.modules digests.now }
    requires places { All (IsPlaceIn typed.now.circuit.modules) places.now }
    requires none { piece.old.memories ≡ [] }
    ensures { OnOk result (HasMemories table.now.paths (flat_memories typed.now.circuit.modules (map site_of places.now)) piece.old piece.new) }
{
    for place in places {
        let site = Site {
            typed,
            table,
            digests,
            place,
        };
        let memories = digests[place.number as usize].memories.as_slice();
        add_memories(alloc, &site, memories, piece)?;
    }
    Ok(())
}

// Adds a port of the top, unless it is a Clock.
fn add_port(paths: &Paths, port: &Port, piece: &mut Piece) -> Result<(), AllocError>
    ensures ins { OnOk result (piece.new.ins ≡ piece.old.ins ++ map (number_of paths.now) (port_names direction.Input (port.now ∷ []))) }
    ensures outs { OnOk result (piece.new.outs ≡ piece.old.outs ++ map (number_of paths.now) (port_names direction.Output (port.now ∷ []))) }
    ensures rest { OnOk result (piece.new ≡ record piece.old { ins = piece.new.ins; outs = piece.new.outs }) }
{
    if ground_type(port.ty).is_none() {
        return Ok(());
    }
    let signal = number(paths, &port.name);
    match port.direction {
        Direction::Input => Ok(piece.add_in(signal)?),
        Direction::Output => Ok(piece.add_out(signal)?),
    }
}

// Adds the ports of the top.
pub(crate) fn add_ports(paths: &Paths, ports: &[Port], piece: &mut Piece) -> Result<(), AllocError>
    ensures ins { OnOk result (piece.new.ins ≡ piece.old.ins ++ map (number_of paths.now) (port_names direction.Input ports.now)) }
    ensures outs { OnOk result (piece.new.outs ≡ piece.old.outs ++ map (number_of paths.now) (port_names direction.Output ports.now)) }
    ensures rest { OnOk result (piece.new ≡ record piece.old { ins = piece.new.ins; outs = piece.new.outs }) }
{
    for port in ports {
        add_port(paths, port, piece)?;
    }
    Ok(())
}

// Adds these stops of the site with this path to the ports.
fn add_site_stops(
    alloc: Global,
    paths: &Paths,
    path: &Name,
    stops: &[OwnStop],
    piece: &mut Piece,
) -> Result<(), AllocError>
    ensures { OnOk result (piece.new ≡ record piece.old { outs = piece.old.outs ++ map (λ stop. number_of paths.now (joined_text path.now stop.name)) stops.now }) }
{
    for stop in stops {
        let own = joined(alloc, path, &stop.name)?;
        piece.add_out(number(paths, &own))?;
    }
    Ok(())
}

// Adds the stops of all sites to the ports.
pub(crate) fn add_stops(
    alloc: Global,
    _typed: &Typed,
    paths: &Paths,
    digests: &[Digest],
    places: &[Place],
    piece: &mut Piece,
) -> Result<(), AllocError>
    requires digests { AreDigests (types_of _typed.now.circuit) _typed.now.circuit.modules digests.now }
    requires places { All (IsPlaceIn _typed.now.circuit.modules) places.now }
    ensures { OnOk result (piece.new ≡ record piece.old { outs = piece.old.outs ++ map (number_of paths.now) (stop_paths _typed.now.circuit.modules (map site_of places.now)) }) }
{
    for place in places {
        let digest = &digests[place.number as usize];
        add_site_stops(alloc, paths, &place.path, digest.stops.as_slice(), piece)?;
    }
    Ok(())
}
