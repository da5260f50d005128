//! The contents of each module, read once.
ghost use Rattle.std.specs.Prelude.{◌≡◌, ◌<◌, ◌^◌, map, length, option_map, option_to_list, ◌++◌, IfOk, OnOk};
ghost use Rattle.gg_elab_sites.specs.Sites.{held_by, held_by_kind, module_at};
ghost use Rattle.gg_elab_sites.specs.Known.{types_of};
ghost use Rattle.gg_elab_sites.specs.Signals.{own_bank, own_banks, bank_of_kind};
ghost use Rattle.gg_elab_sites.specs.inside.Views.{held_of, own_bank_of, IsDigest, AreDigests};
ghost use Rattle.gg_types.specs.inside.Memories.{bank_seen};

use crate::connections::{Sinks, connections};
use crate::own::{OwnSignal, own_signals};
use crate::stops::{OwnStop, stops};
use gg_ast::{Circuit, Module, Stmt, StmtKind};
use gg_bits::Name;
use gg_types::{Bank, Typed, bank_of};
use std::alloc::{AllocError, Global};

/// An instance that a module holds.
#[derive(Clone, Copy)]
pub struct Instance<'a> {
    /// Its name.
    pub name: &'a Name,
    /// The place of its module.
    pub number: u32,
}

/// A memory of a module.
pub struct OwnMemory<'a> {
    /// Its name.
    pub name: &'a Name,
    /// Its words, its latency and its ports, from its fields.
    pub bank: Bank<'a>,
}

impl Drop for OwnMemory<'_> {
    fn drop(self) {
        let Self { name: _, bank } = self;
        drop(bank);
    }
}

/// A module: its signals, the instances that it holds, its memories and its stops, each in the order of the file, and
/// its connections.
pub struct Digest<'a> {
    pub signals: Vec<OwnSignal<'a>>,
    pub instances: Vec<Instance<'a>>,
    pub memories: Vec<OwnMemory<'a>>,
    pub stops: Vec<OwnStop<'a>>,
    pub sinks: Sinks<'a>,
}

impl Drop for Digest<'_> {
    fn drop(self) {
        let Self {
            signals,
            instances,
            memories,
            stops,
            sinks,
        } = self;
        drop(signals);
        drop(instances);
        drop(memories);
        drop(stops);
        drop(sinks);
    }
}

// The instances that statements make.
fn instances<'a>(
    alloc: Global,
    circuit: &Circuit,
    statements: &'a [Stmt],
) -> Result<Vec<Instance<'a>>, AllocError>
    requires { length circuit.now.modules < 2 ^ 32 }
    ensures { IfOk result (λ instances. map held_of instances.items ≡ held_by circuit.now.modules statements.now) }
{
    let mut instances = Vec::new(alloc);
    for statement in statements {
        add_instance(&mut instances, instance_of(circuit, &statement.kind))?;
    }
    Ok(instances)
}

// Adds an instance, if there is one.
fn add_instance<'a>(
    instances: &mut Vec<Instance<'a>>,
    instance: Option<Instance<'a>>,
) -> Result<(), AllocError>
    ensures { OnOk result (map held_of instances.new.items ≡ map held_of instances.old.items ++ option_to_list (option_map held_of instance.entry)) }
{
    match instance {
        None => Ok(()),
        Some(instance) => {
            instances.reserve(1)?;
            instances.push_reserved(instance);
            Ok(())
        }
    }
}

// The instance that a statement makes, if its module exists.
fn instance_of<'a>(circuit: &Circuit, kind: &'a StmtKind) -> Option<Instance<'a>>
    requires { length circuit.now.modules < 2 ^ 32 }
    ensures { option_map held_of result ≡ held_by_kind circuit.now.modules kind.now }
{
    match kind {
        StmtKind::Instance { name, module } => match circuit.module(module.as_str()) {
            Some(number) => Some(Instance { name, number }),
            None => None,
        },
        _ => None,
    }
}

// The memories that statements make.
fn memories<'a>(alloc: Global, statements: &'a [Stmt]) -> Result<Vec<OwnMemory<'a>>, AllocError>
    ensures { IfOk result (λ memories. map own_bank_of memories.items ≡ own_banks statements.now) }
{
    let mut memories = Vec::new(alloc);
    for statement in statements {
        add_statement_memory(alloc, &mut memories, &statement.kind)?;
    }
    Ok(memories)
}

// Adds the memory of a statement, if it makes one.
fn add_statement_memory<'a>(
    alloc: Global,
    memories: &mut Vec<OwnMemory<'a>>,
    kind: &'a StmtKind,
) -> Result<(), AllocError>
    ensures { OnOk result (map own_bank_of memories.new.items ≡ map own_bank_of memories.old.items ++ option_to_list (bank_of_kind kind.now)) }
{
    match kind {
        StmtKind::Memory { name, fields } => {
            let bank = bank_of(alloc, fields.as_slice())?;
            add_memory(memories, name, bank)
        }
        _ => Ok(()),
    }
}

// Adds a memory of this name, if there is one.
fn add_memory<'a>(
    memories: &mut Vec<OwnMemory<'a>>,
    name: &'a Name,
    bank: Option<Bank<'a>>,
) -> Result<(), AllocError>
    ensures { OnOk result (map own_bank_of memories.new.items ≡ map own_bank_of memories.old.items ++ option_to_list (option_map (own_bank name.now) (option_map bank_seen bank.entry))) }
{
    match bank {
        None => Ok(()),
        Some(bank) => {
            memories.reserve(1)?;
            memories.push_reserved(OwnMemory { name, bank });
            Ok(())
        }
    }
}

// The digest of the module at a place.
fn digest_of<'a>(
    alloc: Global,
    typed: &Typed,
    circuit: &Circuit,
    number: u32,
    body: &'a Module,
) -> Result<Digest<'a>, AllocError>
    requires few { length circuit.now.modules < 2 ^ 32 }
    requires same { circuit.now ≡ typed.now.circuit }
    requires there { number < length typed.now.circuit.modules }
    requires body { body.now ≡ module_at circuit.now.modules number }
    ensures { IfOk result (IsDigest (types_of typed.now.circuit) typed.now.circuit.modules number) }
{
    let statements = body.statements();
    let stops = stops(alloc, statements)?;
    Ok(Digest {
        signals: own_signals(alloc, typed, number, body, stops.as_slice())?,
        instances: instances(alloc, circuit, statements)?,
        memories: memories(alloc, statements)?,
        stops,
        sinks: connections(alloc, statements)?,
    })
}

/// The digest of each module of a circuit, by the modules' places.
///
/// # Errors
///
/// Returns `AllocError` if an allocation fails.
pub fn digests<'a>(alloc: Global, typed: &Typed<'a>) -> Result<Vec<Digest<'a>>, AllocError>
    requires { length typed.now.circuit.modules < 2 ^ 32 }
    ensures { IfOk result (λ digests. AreDigests (types_of typed.now.circuit) typed.now.circuit.modules digests.items) }
{
    let circuit = typed.names().circuit();
    let modules = circuit.modules();
    let mut digests = Vec::new(alloc);
    for body in modules {
        let next = digest_of(alloc, typed, circuit, digests.len() as u32, body)?;
        digests.reserve(1)?;
        digests.push_reserved(next);
    }
    Ok(digests)
}
