//! The ports of a memory that is served.
ghost use Rattle.std.specs.Prelude.{◌≡◌, ◌+◌, ◌^◌, ◌<◌, ◌++◌, length, map, IfOk, OnOk};
ghost use Rattle.gg_flat.specs.Served.{by_readers, by_writers, due_of};
ghost use Rattle.gg_memunit.specs.MemoryUnit.{port_of, ports_by};
ghost use Rattle.gg_net.specs.inside.Net.{entry_of};

use gg_bits::Ids;
use gg_flat::{Latency, Memory, Reader, UnderWrite, Writer};
use gg_net::ServedPort;
use std::alloc::{AllocError, Global};

// Adds the ports of these readers.
fn add_readers(
    alloc: Global,
    readers: &[Reader],
    ports: &mut Vec<ServedPort>,
) -> Result<(), AllocError>
    requires { length readers.now < 2 ^ 32 }
    ensures { OnOk result (ports.new.items ≡ ports.old.items ++ map entry_of (map (port_of (length readers.now)) (by_readers 0 readers.now))) }
{
    for place in 0..readers.len() {
        let reader = readers[place];
        let fields = Ids::from(vec![in alloc; reader.addr, reader.en]?);
        let number = place as u32;
        ports.push(ServedPort { number, fields })?;
    }
    Ok(())
}

// Adds the ports of these writers. They are numbered after this many readers.
fn add_writers(
    alloc: Global,
    readers: u32,
    writers: &[Writer],
    ports: &mut Vec<ServedPort>,
) -> Result<(), AllocError>
    requires { readers + length writers.now < 2 ^ 32 }
    ensures { OnOk result (ports.new.items ≡ ports.old.items ++ map entry_of (map (port_of readers) (by_writers 0 writers.now))) }
{
    for place in 0..writers.len() {
        let writer = writers[place];
        let fields = Ids::from(vec![in alloc; writer.addr, writer.en, writer.word, writer.mask]?);
        let number = readers + place as u32;
        ports.push(ServedPort { number, fields })?;
    }
    Ok(())
}

// Adds the ports of these readers and writers, in the order of serving.
fn add_ports(
    alloc: Global,
    latency: Latency,
    readers: &[Reader],
    writers: &[Writer],
    ports: &mut Vec<ServedPort>,
) -> Result<(), AllocError>
    requires { length readers.now + length writers.now < 2 ^ 32 }
    ensures { OnOk result (ports.new.items ≡ ports.old.items ++ map entry_of (ports_by latency readers.now writers.now)) }
{
    let first = readers.len() as u32;
    match latency {
        Latency::Zero => add_writers(alloc, first, writers, ports),
        Latency::One(UnderWrite::Old) => {
            add_readers(alloc, readers, ports)?;
            add_writers(alloc, first, writers, ports)
        }
        Latency::One(UnderWrite::Undefined) => {
            add_readers(alloc, readers, ports)?;
            add_writers(alloc, first, writers, ports)
        }
        Latency::One(UnderWrite::New) => {
            add_writers(alloc, first, writers, ports)?;
            add_readers(alloc, readers, ports)
        }
    }
}

// The ports of a memory that are served in a cycle, in their order.
//
// # Errors
//
// Returns `AllocError` if an allocation fails.
pub(crate) fn ports_of(alloc: Global, memory: &Memory) -> Result<Vec<ServedPort>, AllocError>
    requires { length memory.now.readers + length memory.now.writers < 2 ^ 32 }
    ensures { IfOk result (λ ports. ports.items ≡ map entry_of (ports_by memory.now.latency memory.now.readers memory.now.writers)) }
{
    let mut ports = Vec::new(alloc);
    let (readers, writers) = (memory.readers.as_slice(), memory.writers.as_slice());
    add_ports(alloc, memory.latency, readers, writers, &mut ports)?;
    Ok(ports)
}
