//! The signals that a module has of its own.
ghost use Rattle.std.specs.Prelude.{◌≡◌, ◌≤◌, ◌<◌, ◌^◌, ◌++◌, ◌∷◌, [], map, filter_map, flat_map, option_map, option_to_list, length, IfOk, OnOk};
ghost use Rattle.gg_bits.specs.Shape.{shape};
ghost use Rattle.gg_ast.specs.declared.statement.Stmt.{Stmt};
ghost use Rattle.gg_elab_sites.specs.Known.{types_of};
ghost use Rattle.gg_elab_sites.specs.Signals.{own, own_of_port, own_of_kind, own_signals as signals_of_module, own_stops, stop_signal, memory_signals, reader_signals, readers_signals, writer_signals};
ghost use Rattle.gg_elab_sites.specs.inside.Views.{own_of, own_stop_of, cause_of};
ghost use Rattle.gg_types.specs.inside.Memories.{bank_seen};

use crate::known::value_type;
use crate::names::field_name;
use crate::stops::OwnStop;
use gg_ast::{Direction, Expr, Module, Port, Reference, Reset, Stmt, StmtKind};
use gg_bits::{Kind, Name, Ty};
use gg_flat::{Latency, address_width};
use gg_types::{Bank, Typed, bank_of, ground_type};
use std::alloc::{AllocError, Global};

/// The source of a signal's value in its module.
#[derive(Clone, Copy)]
pub enum Origin<'a> {
    /// An input port: its value comes from what holds the module.
    FromOutside,
    /// An output port, a wire, or a field that is given to a memory: its connection.
    Connected,
    /// A node, or a stop's condition: an expression.
    Expressed(&'a Expr),
    /// A register, with what is written for its clock and with its reset: its state.
    Kept(&'a Expr, Option<&'a Reset>),
    /// The data of a reader: what the memory answers. It has the memory's name, the reader's name, the reader's place
    /// and the latency.
    Answered(&'a Name, &'a Name, u32, Latency),
}

/// A signal of a module: its name as it is written there, its type, and the source of its value.
pub struct OwnSignal<'a> {
    pub name: Name,
    pub ty: Ty,
    pub origin: Origin<'a>,
}

impl Drop for OwnSignal<'_> {
    fn drop(self) {
        let Self {
            name,
            ty: _,
            origin: _,
        } = self;
        drop(name);
    }
}

// Adds a signal.
fn add<'a>(
    signals: &mut Vec<OwnSignal<'a>>,
    name: Name,
    ty: Ty,
    origin: Origin<'a>,
) -> Result<(), AllocError>
    ensures { OnOk result (map own_of signals.new.items ≡ map own_of signals.old.items ++ (record { name = name; shape = shape ty; cause = cause_of origin.entry }) ∷ []) }
{
    signals.reserve(1)?;
    signals.push_reserved(OwnSignal { name, ty, origin });
    Ok(())
}

// Adds the signal of a port, unless it is a Clock.
fn add_port<'a>(signals: &mut Vec<OwnSignal<'a>>, port: &'a Port) -> Result<(), AllocError>
    ensures { OnOk result (map own_of signals.new.items ≡ map own_of signals.old.items ++ option_to_list (own_of_port port.now)) }
{
    let Some(ty) = ground_type(port.ty) else {
        return Ok(());
    };
    let origin = match port.direction {
        Direction::Input => Origin::FromOutside,
        Direction::Output => Origin::Connected,
    };
    add(signals, port.name.clone()?, ty, origin)
}

// Adds the signals of ports.
fn add_ports<'a>(signals: &mut Vec<OwnSignal<'a>>, ports: &'a [Port]) -> Result<(), AllocError>
    ensures { OnOk result (map own_of signals.new.items ≡ map own_of signals.old.items ++ filter_map own_of_port ports.now) }
{
    for port in ports {
        add_port(signals, port)?;
    }
    Ok(())
}

// Adds the fields of the reader at a place.
fn add_reader<'a>(
    alloc: Global,
    signals: &mut Vec<OwnSignal<'a>>,
    memory: &'a Name,
    bank: &Bank<'a>,
    place: u32,
    port: &'a Name,
) -> Result<(), AllocError>
    ensures { OnOk result (map own_of signals.new.items ≡ map own_of signals.old.items ++ reader_signals memory.now (bank_seen bank.now) place port.now) }
{
    let address = Ty::new(Kind::UInt, address_width(bank.depth));
    let bit = Ty::new(Kind::UInt, 1);
    let addr = field_name(alloc, memory, port, "addr")?;
    add(signals, addr, address, Origin::Connected)?;
    let en = field_name(alloc, memory, port, "en")?;
    add(signals, en, bit, Origin::Connected)?;
    let word = field_name(alloc, memory, port, "data")?;
    add(
        signals,
        word,
        bank.word,
        Origin::Answered(memory, port, place, bank.latency),
    )
}

// Adds the fields of a writer.
fn add_writer<'a>(
    alloc: Global,
    signals: &mut Vec<OwnSignal<'a>>,
    memory: &'a Name,
    bank: &Bank<'a>,
    port: &'a Name,
) -> Result<(), AllocError>
    ensures { OnOk result (map own_of signals.new.items ≡ map own_of signals.old.items ++ writer_signals memory.now (bank_seen bank.now) port.now) }
{
    let address = Ty::new(Kind::UInt, address_width(bank.depth));
    let bit = Ty::new(Kind::UInt, 1);
    let addr = field_name(alloc, memory, port, "addr")?;
    add(signals, addr, address, Origin::Connected)?;
    let en = field_name(alloc, memory, port, "en")?;
    add(signals, en, bit, Origin::Connected)?;
    let word = field_name(alloc, memory, port, "data")?;
    add(signals, word, bank.word, Origin::Connected)?;
    let mask = field_name(alloc, memory, port, "mask")?;
    add(signals, mask, bit, Origin::Connected)
}

// Adds the fields of all readers.
fn add_readers<'a>(
    alloc: Global,
    signals: &mut Vec<OwnSignal<'a>>,
    memory: &'a Name,
    bank: &Bank<'a>,
) -> Result<(), AllocError>
    ensures { OnOk result (map own_of signals.new.items ≡ map own_of signals.old.items ++ readers_signals memory.now (bank_seen bank.now) 0 (bank_seen bank.now).readers) }
{
    let ports = bank.readers.as_slice();
    let mut place = 0u32;
    for port in ports {
        add_reader(alloc, signals, memory, bank, place, port)?;
        if place == u32::MAX {
            return Err(AllocError);
        }
        place += 1;
    }
    Ok(())
}

// Adds the fields of all writers.
fn add_writers<'a>(
    alloc: Global,
    signals: &mut Vec<OwnSignal<'a>>,
    memory: &'a Name,
    bank: &Bank<'a>,
) -> Result<(), AllocError>
    ensures { OnOk result (map own_of signals.new.items ≡ map own_of signals.old.items ++ flat_map (writer_signals memory.now (bank_seen bank.now)) (bank_seen bank.now).writers) }
{
    let ports = bank.writers.as_slice();
    for port in ports {
        add_writer(alloc, signals, memory, bank, port)?;
    }
    Ok(())
}

// Adds the fields of a memory.
fn add_memory<'a>(
    alloc: Global,
    signals: &mut Vec<OwnSignal<'a>>,
    memory: &'a Name,
    bank: &Option<Bank<'a>>,
) -> Result<(), AllocError>
    ensures { OnOk result (map own_of signals.new.items ≡ map own_of signals.old.items ++ memory_signals memory.now (option_map bank_seen bank.now)) }
{
    match bank {
        None => Ok(()),
        Some(bank) => {
            add_readers(alloc, signals, memory, bank)?;
            add_writers(alloc, signals, memory, bank)
        }
    }
}

// Adds a signal, if it has a type.
fn add_typed<'a>(
    signals: &mut Vec<OwnSignal<'a>>,
    name: &Name,
    ty: Option<Ty>,
    origin: Origin<'a>,
) -> Result<(), AllocError>
    ensures { OnOk result (map own_of signals.new.items ≡ map own_of signals.old.items ++ option_to_list (option_map (own name.now (cause_of origin.entry)) (option_map (λ t. shape t) ty))) }
{
    match ty {
        None => Ok(()),
        Some(ty) => add(signals, name.clone()?, ty, origin),
    }
}

// Adds the signals of a statement.
fn add_statement<'a>(
    alloc: Global,
    typed: &Typed,
    number: u32,
    signals: &mut Vec<OwnSignal<'a>>,
    kind: &'a StmtKind,
) -> Result<(), AllocError>
    requires { number < length typed.now.circuit.modules }
    ensures { OnOk result (map own_of signals.new.items ≡ map own_of signals.old.items ++ own_of_kind (types_of typed.now.circuit) number kind.now) }
{
    match kind {
        StmtKind::Wire { name, ty } => {
            add_typed(signals, name, ground_type(*ty), Origin::Connected)
        }
        StmtKind::Node { name, value } => {
            let ty = value_type(typed, number, &Reference::Local(name.clone()?));
            add_typed(signals, name, ty, Origin::Expressed(value))
        }
        StmtKind::Register {
            name,
            ty,
            clock,
            reset,
        } => add_typed(
            signals,
            name,
            ground_type(*ty),
            Origin::Kept(clock, reset.as_ref()),
        ),
        StmtKind::Memory { name, fields } => {
            let bank = bank_of(alloc, fields.as_slice())?;
            add_memory(alloc, signals, name, &bank)
        }
        _ => Ok(()),
    }
}

// Adds the signals of statements.
fn add_statements<'a>(
    alloc: Global,
    typed: &Typed,
    number: u32,
    signals: &mut Vec<OwnSignal<'a>>,
    statements: &'a [Stmt],
) -> Result<(), AllocError>
    requires { number < length typed.now.circuit.modules }
    ensures { OnOk result (map own_of signals.new.items ≡ map own_of signals.old.items ++ flat_map (λ (s : Stmt). own_of_kind (types_of typed.now.circuit) number s.kind) statements.now) }
{
    for statement in statements {
        add_statement(alloc, typed, number, signals, &statement.kind)?;
    }
    Ok(())
}

// Adds the signals of stops.
fn add_stops<'a>(signals: &mut Vec<OwnSignal<'a>>, stops: &[OwnStop<'a>]) -> Result<(), AllocError>
    ensures { OnOk result (map own_of signals.new.items ≡ map own_of signals.old.items ++ map (λ stop. stop_signal (own_stop_of stop)) stops.now) }
{
    let bit = Ty::new(Kind::UInt, 1);
    for stop in stops {
        add(
            signals,
            stop.name.clone()?,
            bit,
            Origin::Expressed(stop.condition),
        )?;
    }
    Ok(())
}

// The signals of the module at this place, which has these stops: its ports, then what its statements declare, then
// the stops.
pub(crate) fn own_signals<'a>(
    alloc: Global,
    typed: &Typed,
    number: u32,
    body: &'a Module,
    stops: &[OwnStop<'a>],
) -> Result<Vec<OwnSignal<'a>>, AllocError>
    requires there { number < length typed.now.circuit.modules }
    requires stops { map own_stop_of stops.now ≡ own_stops body.now.statements }
    ensures { IfOk result (λ signals. map own_of signals.items ≡ signals_of_module (types_of typed.now.circuit) number body.now) }
{
    let mut signals = Vec::new(alloc);
    add_ports(&mut signals, body.ports())?;
    add_statements(alloc, typed, number, &mut signals, body.statements())?;
    add_stops(&mut signals, stops)?;
    Ok(signals)
}
