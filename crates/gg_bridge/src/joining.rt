//! The circuit with a model in it.
ghost use Rattle.std.specs.Prelude.{◌≡◌, ◌≢◌, ◌<◌, ◌≤◌, ◌+◌, ◌-◌, ◌^◌, [], ◌∷◌, ◌++◌, length, map, slice_index_or, IfOk, OnOk, AllPairs, Contains, true, None};
ghost use Rattle.std.specs.List.{range_with_len};
ghost use Rattle.gg_bits.specs.declared.paths.AddError.TheVariants.{Doubled};
ghost use Rattle.gg_flat.specs.declared.piece.Signal.{Signal};
ghost use Rattle.gg_flat.specs.Circuit.{no_circuit};
ghost use Rattle.gg_flat.specs.Line.{value_at};
ghost use Rattle.gg_flat_tree.specs.Tree.{path_at};
ghost use Rattle.gg_flat.specs.Renaming.{renamed_register, renamed_memory};
ghost use Rattle.gg_flat.specs.WellFormed.{IsWellFormed};
ghost use Rattle.gg_bridge.specs.Model.{IsModel};
ghost use Rattle.gg_bridge.specs.inside.Joined.{CanJoin, place_at};
ghost use Rattle.gg_bridge.specs.Joined.{behind_by, joined, copy_line, left_at, linked, linked_signal, with_model, driver_behind, signal_behind, globals_behind, held_behind, memories_behind, without};
ghost use Rattle.gg_bits.specs.Lists.{by_number};

use crate::numbers::{left_of, numbers_at, numbers_from, place_at, places_of};
use gg_bits::{AddError, Name, Ty};
use gg_flat::{
    Driver, Line, Lists, Node, Op, Piece, Signal, number_at, renamed_driver, renamed_memory,
    renamed_register,
};
use std::alloc::{AllocError, Global};

// ---- drivers

// A bare reference to a signal.
fn copy_line(alloc: Global, ty: Ty, signal: u32) -> Result<Line, AllocError>
    ensures { IfOk result (λ line. line ≡ copy_line ty signal) }
{
    let mut line = Line::new(alloc);
    line.push(Node {
        ty,
        op: Op::Ref(signal),
    })?;
    Ok(line)
}

// The driver of a signal that isn't driven by the bridge, by its place among the inputs that are left.
fn left_driver(left: Option<u32>, driver: &Driver) -> Result<Driver, AllocError>
    ensures { IfOk result (λ own. own ≡ left_at left driver.now) }
{
    match driver {
        Driver::Input(_) => match left {
            Some(place) => Ok(Driver::Input(place)),
            None => Ok(Driver::Input(0)),
        },
        other => Ok(other.clone()?),
    }
}

// A signal of the circuit, by the places of the driven signals and of the inputs that are left.
fn linked(
    alloc: Global,
    outs: &[u32],
    driven: &[Option<u32>],
    left: &[Option<u32>],
    number: u32,
    signal: &Signal,
) -> Result<Signal, AllocError>
    ensures { IfOk result (λ own. own ≡ linked_signal outs.now (place_at driven.now number) (place_at left.now number) signal.now) }
{
    let driver = match place_at(driven, number) {
        Some(place) => Driver::Computed(copy_line(alloc, signal.ty, number_at(outs, place))?),
        None => left_driver(place_at(left, number), &signal.driver)?,
    };
    Ok(Signal {
        ty: signal.ty,
        driver,
    })
}

// The numbers of a model's parts, after the circuit's.
#[derive(Drop)]
struct Behind {
    // The numbers of its signals.
    globals: Vec<u32>,
    // The numbers of its registers.
    held: Vec<u32>,
    // The numbers of its memories.
    memories: Vec<u32>,
}

impl Behind {
    // The lists of the numbers, and the clock of every tick.
    fn lists(&self) -> Lists
        ensures signals { result.signals.now ≡ self.now.globals.items }
        ensures registers { result.registers.now ≡ self.now.held.items }
        ensures memories { result.memories.now ≡ self.now.memories.items }
        ensures clock { result.clock ≡ None }
    {
        Lists {
            signals: self.globals.as_slice(),
            registers: self.held.as_slice(),
            memories: self.memories.as_slice(),
            clock: None,
        }
    }
}

// The driver of a signal of the model, after the circuit's signals.
fn driver_behind(
    alloc: Global,
    behind: &Behind,
    sees: &[u32],
    ty: Ty,
    driver: &Driver,
) -> Result<Driver, AllocError>
    ensures { IfOk result (λ own. own ≡ driver_behind behind.now.globals.items behind.now.held.items behind.now.memories.items sees.now ty driver.now) }
{
    match driver {
        Driver::Input(place) => Ok(Driver::Computed(copy_line(
            alloc,
            ty,
            number_at(sees, *place),
        )?)),
        other => {
            let own = renamed_driver(alloc, &behind.lists(), other)?;
            Ok(own)
        }
    }
}

// A signal of the model, after the circuit's signals.
fn signal_behind(
    alloc: Global,
    behind: &Behind,
    sees: &[u32],
    signal: &Signal,
) -> Result<Signal, AllocError>
    ensures { IfOk result (λ own. own ≡ signal_behind behind.now.globals.items behind.now.held.items behind.now.memories.items sees.now signal.now) }
{
    let driver = driver_behind(alloc, behind, sees, signal.ty, &signal.driver)?;
    Ok(Signal {
        ty: signal.ty,
        driver,
    })
}

// ---- signals

// A word followed by the path of a signal.
fn path_behind(alloc: Global, word: &str, one: &Piece, signal: u32) -> Result<Name, AllocError>
    requires { signal < length one.now.paths }
    ensures { IfOk result (λ name. name ≡ word.now ++ path_at one.now.paths signal) }
{
    let path = one.path(signal).unwrap();
    let mut text = String::from_str(alloc, word)?;
    text.push_str(path.as_str())?;
    Ok(Name::from(text))
}

// The error of a failed allocation, since no path was added twice.
fn refused(error: AddError) -> AllocError
    requires { error ≢ Doubled }
{
    match error {
        AddError::NoMemory => AllocError,
        AddError::Doubled => unreachable!(),
    }
}

// Adds a signal of a circuit under its path, with this word before it.
fn add_as(
    alloc: Global,
    word: &str,
    one: &Piece,
    number: u32,
    signal: Signal,
    piece: &mut Piece,
) -> Result<(), AllocError>
    requires number { number < length one.now.paths }
    requires few { length piece.old.signals < 2 ^ 32 - 1 }
    requires fresh { ¬ Contains piece.old.paths (word.now ++ path_at one.now.paths number) }
    ensures { OnOk result (piece.new ≡ record piece.old { paths = piece.old.paths ++ (word.now ++ path_at one.now.paths number) ∷ []; signals = piece.old.signals ++ signal ∷ [] }) }
{
    let path = path_behind(alloc, word, one, number)?;
    match piece.add_signal(path, signal) {
        Ok(()) => Ok(()),
        Err(error) => Err(refused(error)),
    }
}

// Adds the circuit's signals.
fn add_front(
    alloc: Global,
    one: &Piece,
    outs: &[u32],
    drives: &[u32],
    left: &[u32],
    piece: &mut Piece,
) -> Result<(), AllocError>
    requires empty { piece.old ≡ no_circuit }
    requires driven { length drives.now ≤ 2 ^ 32 }
    requires left { length left.now ≤ 2 ^ 32 }
    ensures { OnOk result (piece.new ≡ record no_circuit { paths = one.now.paths; signals = by_number (linked outs.now drives.now left.now) 0 one.now.signals }) }
{
    let driven = places_of(alloc, one.signal_count(), drives)?;
    let kept = places_of(alloc, one.signal_count(), left)?;
    for place in 0..one.signal_count() {
        let number = place as u32;
        let signal = linked(alloc, outs, &driven, &kept, number, &one.signals()[place])?;
        add_as(alloc, "", one, number, signal, piece)?;
    }
    Ok(())
}

// Adds the model's signals.
fn add_behind(
    alloc: Global,
    front: &str,
    model: &Piece,
    behind: &Behind,
    sees: &[u32],
    piece: &mut Piece,
) -> Result<(), AllocError>
    requires few { length piece.old.signals + length model.now.signals < 2 ^ 32 }
    requires distinct { AllPairs (λ a b. a ≢ b) (piece.old.paths ++ map (λ path. front.now ++ path) model.now.paths) }
    ensures { OnOk result (piece.new ≡ record piece.old {
      paths = piece.old.paths
          ++ map (λ path. front.now ++ path) model.now.paths;
      signals = piece.old.signals
          ++ map (signal_behind behind.now.globals.items behind.now.held.items behind.now.memories.items sees.now)
          model.now.signals;
    }) }
{
    for place in 0..model.signal_count() {
        let signal = signal_behind(alloc, behind, sees, &model.signals()[place])?;
        add_as(alloc, front, model, place as u32, signal, piece)?;
    }
    Ok(())
}

// ---- registers and memories

// Adds the circuit's registers.
fn copy_registers(one: &Piece, piece: &mut Piece) -> Result<(), AllocError>
    ensures { OnOk result (piece.new ≡ record piece.old { registers = piece.old.registers ++ one.now.registers }) }
{
    for register in one.registers() {
        piece.add_register(register.clone()?)?;
    }
    Ok(())
}

// Adds the model's registers.
fn move_registers(
    alloc: Global,
    model: &Piece,
    behind: &Behind,
    piece: &mut Piece,
) -> Result<(), AllocError>
    ensures { OnOk result (piece.new ≡ record piece.old {
      registers = piece.old.registers
          ++ map (λ register. renamed_register (behind_by behind.now.globals.items behind.now.held.items behind.now.memories.items) register) model.now.registers;
    }) }
{
    let by = behind.lists();
    for register in model.registers() {
        piece.add_register(renamed_register(alloc, &by, register)?)?;
    }
    Ok(())
}

// Adds the circuit's memories.
fn copy_memories(one: &Piece, piece: &mut Piece) -> Result<(), AllocError>
    ensures { OnOk result (piece.new ≡ record piece.old { memories = piece.old.memories ++ one.now.memories }) }
{
    for memory in one.memories() {
        piece.add_memory(memory.clone()?)?;
    }
    Ok(())
}

// Adds the model's memories.
fn move_memories(
    alloc: Global,
    model: &Piece,
    behind: &Behind,
    piece: &mut Piece,
) -> Result<(), AllocError>
    ensures { OnOk result (piece.new ≡ record piece.old {
      memories = piece.old.memories
          ++ map (λ memory. renamed_memory (behind_by behind.now.globals.items behind.now.held.items behind.now.memories.items) memory) model.now.memories;
    }) }
{
    let by = behind.lists();
    for memory in model.memories() {
        piece.add_memory(renamed_memory(alloc, &by, memory)?)?;
    }
    Ok(())
}

// ---- ports

// Adds these in-signals.
fn add_ins(ins: &[u32], piece: &mut Piece) -> Result<(), AllocError>
    ensures { OnOk result (piece.new ≡ record piece.old { ins = piece.old.ins ++ ins.now }) }
{
    for signal in ins {
        piece.add_in(*signal)?;
    }
    Ok(())
}

// Adds these out-signals.
fn add_outs(outs: &[u32], piece: &mut Piece) -> Result<(), AllocError>
    ensures { OnOk result (piece.new ≡ record piece.old { outs = piece.old.outs ++ outs.now }) }
{
    for signal in outs {
        piece.add_out(*signal)?;
    }
    Ok(())
}

// ---- the circuit

// The numbers of a model's parts, after the circuit's.
fn behind_of(alloc: Global, one: &Piece, model: &Piece) -> Result<Behind, AllocError>
    requires signals { length one.now.signals + length model.now.signals < 2 ^ 32 }
    requires registers { length one.now.registers + length model.now.registers ≤ 2 ^ 32 }
    requires memories { length one.now.memories + length model.now.memories ≤ 2 ^ 32 }
    ensures globals { IfOk result (λ behind. behind.globals.items ≡ globals_behind one.now model.now) }
    ensures held { IfOk result (λ behind. behind.held.items ≡ held_behind one.now model.now) }
    ensures memories { IfOk result (λ behind. behind.memories.items ≡ memories_behind one.now model.now) }
{
    Ok(Behind {
        globals: numbers_from(alloc, one.signals().len(), model.signals().len())?,
        held: numbers_from(alloc, one.registers().len(), model.registers().len())?,
        memories: numbers_from(alloc, one.memories().len(), model.memories().len())?,
    })
}

// Whether two numbers together are less than 4,294,967,296.
fn fit(a: usize, b: usize) -> bool
    ensures { result ≡ true → a + b < 2 ^ 32 }
{
    (a as u128) + (b as u128) < 4294967296
}

// The ports and their numbers in the circuit with the model.
#[derive(Drop)]
struct Links<'a> {
    // What the bridge sees and drives.
    sees: &'a [u32],
    drives: &'a [u32],
    // The model's out-signals.
    said: &'a [u32],
    // The ports that are left.
    ins: &'a [u32],
    outs: &'a [u32],
}

// The circuit with the model, by these numbers.
fn made(
    alloc: Global,
    one: &Piece,
    front: &str,
    model: &Piece,
    behind: &Behind,
    links: &Links<'_>,
) -> Result<Piece, AllocError>
    requires driven { length links.now.drives.now ≤ 2 ^ 32 }
    requires ins { length links.now.ins.now ≤ 2 ^ 32 }
    requires few { length one.now.signals + length model.now.signals < 2 ^ 32 }
    requires distinct { AllPairs (λ a b. a ≢ b) (one.now.paths ++ map (λ path. front.now ++ path) model.now.paths) }
    ensures { IfOk result (λ piece. piece ≡ with_model one.now front.now model.now behind.now.globals.items behind.now.held.items
        behind.now.memories.items links.now.sees.now links.now.drives.now links.now.said.now links.now.ins.now
        links.now.outs.now) }
{
    let mut piece = Piece::new(alloc);
    add_front(alloc, one, links.said, links.drives, links.ins, &mut piece)?;
    add_behind(alloc, front, model, behind, links.sees, &mut piece)?;
    copy_registers(one, &mut piece)?;
    move_registers(alloc, model, behind, &mut piece)?;
    copy_memories(one, &mut piece)?;
    move_memories(alloc, model, behind, &mut piece)?;
    add_ins(links.ins, &mut piece)?;
    add_outs(links.outs, &mut piece)?;
    piece.set_clocks(one.clocks());
    Ok(piece)
}

// The circuit with a model in it. The paths of the model's signals get this front. The bridge sees the signals `sees`, one for each in-signal of the
// model, and drives the in-signals `drives`, one for each out-signal.
//
// # Errors
//
// Returns `AllocError` if an allocation fails, or if there are 4,294,967,296 signals, registers, memories or in-signals, or more.
pub(crate) fn join_circuit(
    alloc: Global,
    one: &Piece,
    front: &str,
    model: &Piece,
    sees: &[u32],
    drives: &[u32],
) -> Result<Piece, AllocError>
    requires can { CanJoin one.now front.now model.now sees.now drives.now }
    requires formed { IsWellFormed one.now }
    requires model { IsModel model.now }
    ensures { IfOk result (λ piece. piece ≡ joined one.now front.now model.now sees.now drives.now) }
{
    if !fit(one.signals().len(), model.signals().len())
        || !fit(one.registers().len(), model.registers().len())
        || !fit(one.memories().len(), model.memories().len())
        || !fit(sees.len(), 0)
        || !fit(drives.len(), 0)
    {
        return Err(AllocError);
    }
    let behind = behind_of(alloc, one, model)?;
    let said = numbers_at(alloc, &behind.globals, model.outs())?;
    let count = one.signals().len();
    let ins = left_of(alloc, count, drives, one.ins())?;
    let outs = left_of(alloc, count, sees, one.outs())?;
    if !fit(ins.len(), 0) {
        return Err(AllocError);
    }
    let links = Links {
        sees,
        drives,
        said: &said,
        ins: &ins,
        outs: &outs,
    };
    let piece = made(alloc, one, front, model, &behind, &links)?;
    Ok(piece)
}
