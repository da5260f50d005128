//! Whether a piece is well formed.
ghost use Rattle.std.specs.Prelude.{◌≡◌, ℕ, ◌<◌, ◌↔◌, Ok, length, map, slice_index_or, All, IsTrue};
ghost use Rattle.gg_bits.specs.Shape.{shape, Fits};
ghost use Rattle.gg_bits.specs.inside.Shape.{shape_of};
ghost use Rattle.gg_flat.specs.Line.{shape_at, value_at, shapes_of, op_at, line_shape, HasShape, HasType, IsLine, IsSource, IsCondition};
ghost use Rattle.gg_flat.specs.Circuit.{signal_shapes, driver_at};
ghost use Rattle.gg_flat.specs.WellFormed.{MayDrive, IsReset, IsRegister, IsWellFormed};
ghost use Rattle.gg_flat.specs.declared.piece.Driver.TheVariants.{Input};

use crate::check_clocks::are_clocked;
use crate::check_memory::{are_memories, are_read, is_data_of};
use gg_bits::{Bad, Kind, Ty, Val, result_const, result_mux, result1, result2};
use gg_flat::{Driver, Line, Node, Op, Piece, Register, Reset, Signal, op_of, type_of};

// Whether a value is of a type.
fn fits(value: Val, ty: Ty) -> bool
    ensures { IsTrue result ↔ Fits (shape ty) value.0 }
{
    ty.width == 128 || value.0 < 1 << ty.width
}

// Whether two types are the same.
fn same_type(a: Ty, b: Ty) -> bool
    ensures { IsTrue result ↔ (shape a ≡ shape b) }
{
    a.kind == b.kind && a.width == b.width
}

// Whether an operation's result is of a type.
fn results_in(found: Result<Ty, Bad>, ty: Ty) -> bool
    ensures { IsTrue result ↔ (shape_of found ≡ Ok (shape ty)) }
{
    match found {
        Ok(result) => same_type(result, ty),
        Err(_) => false,
    }
}

// Whether a signal is one of these and has this type.
pub(crate) fn is_typed(signals: &[Signal], signal: u32, ty: Ty) -> bool
    ensures { IsTrue result ↔ HasType (map (λ s. shape s.ty) signals.now) signal (shape ty) }
{
    if signal as usize >= signals.len() {
        return false;
    }
    same_type(signals[signal as usize].ty, ty)
}

// Whether a node has its declared type.
fn is_node(signals: &[Signal], nodes: &[Node], k: usize) -> bool
    requires { k < length nodes.now }
    ensures { IsTrue result ↔ HasShape (HasType (map (λ s. shape s.ty) signals.now)) (shapes_of nodes.now) k (shape_at (shapes_of nodes.now) k) (op_at nodes.now k) }
{
    let ty = type_of(nodes, k);
    match op_of(nodes, k) {
        Op::Ref(signal) => is_typed(signals, *signal, ty),
        Op::Literal(value) => fits(*value, ty),
        Op::One(op, i) => {
            let i = *i as usize;
            i < k && results_in(result1(*op, type_of(nodes, i)), ty)
        }
        Op::Two(op, i, j) => {
            let (i, j) = (*i as usize, *j as usize);
            i < k && j < k && results_in(result2(*op, type_of(nodes, i), type_of(nodes, j)), ty)
        }
        Op::Fix(op, i, n, m) => {
            let i = *i as usize;
            i < k && results_in(result_const(*op, type_of(nodes, i), *n, *m), ty)
        }
        Op::Mux(c, i, j) => {
            let (c, i, j) = (*c as usize, *i as usize, *j as usize);
            if c >= k || i >= k || j >= k {
                return false;
            }
            let (first, second) = (type_of(nodes, i), type_of(nodes, j));
            results_in(result_mux(type_of(nodes, c), first, second), ty)
        }
    }
}

// Whether the nodes are a line.
fn is_line(signals: &[Signal], nodes: &[Node]) -> bool
    ensures { IsTrue result ↔ IsLine (HasType (map (λ s. shape s.ty) signals.now)) nodes.now }
{
    if nodes.is_empty() {
        return false;
    }
    for k in 0..nodes.len() {
        if !is_node(signals, nodes, k) {
            return false;
        }
    }
    true
}

// Whether a line may be connected to a sink of a type.
fn is_source(signals: &[Signal], sink: Ty, line: &Line) -> bool
    ensures { IsTrue result ↔ IsSource (HasType (map (λ s. shape s.ty) signals.now)) (shape sink) line.now }
{
    if !is_line(signals, line.as_slice()) {
        return false;
    }
    let ty = line.ty();
    ty.kind == sink.kind && ty.width <= sink.width
}

// Whether a line may be a condition.
fn is_condition(signals: &[Signal], line: &Line) -> bool
    ensures { IsTrue result ↔ IsCondition (HasType (map (λ s. shape s.ty) signals.now)) line.now }
{
    if !is_line(signals, line.as_slice()) {
        return false;
    }
    let ty = line.ty();
    ty.kind == Kind::UInt && ty.width == 1
}

// Whether a reset fits a register of a type.
fn is_reset(signals: &[Signal], sink: Ty, reset: &Reset) -> bool
    ensures { IsTrue result ↔ IsReset (HasType (map (λ s. shape s.ty) signals.now)) (shape sink) reset.now }
{
    if !is_condition(signals, &reset.condition) {
        return false;
    }
    is_source(signals, sink, &reset.init)
}

// Whether a register's lines may be connected to it.
fn is_register(signals: &[Signal], register: &Register) -> bool
    ensures { IsTrue result ↔ IsRegister (HasType (map (λ s. shape s.ty) signals.now)) register.now }
{
    if let Some(reset) = &register.reset {
        if !is_reset(signals, register.ty, reset) {
            return false;
        }
    }
    match &register.next {
        Some(line) => is_source(signals, register.ty, line),
        None => true,
    }
}

// Whether every register's lines may be connected to it.
fn are_registers(signals: &[Signal], registers: &[Register]) -> bool
    ensures { IsTrue result ↔ All (IsRegister (HasType (map (λ s. shape s.ty) signals.now))) registers.now }
{
    for register in registers {
        if !is_register(signals, register) {
            return false;
        }
    }
    true
}

// Whether a signal may have its driver.
fn may_drive(piece: &Piece, s: usize) -> bool
    requires { s < length piece.now.signals }
    ensures { IsTrue result ↔ MayDrive piece.now s (driver_at piece.now s) }
{
    let signal = &piece.signals()[s];
    match &signal.driver {
        Driver::Input(place) => {
            (*place as usize) < piece.ins().len() && piece.ins()[*place as usize] as usize == s
        }
        Driver::Held(register) => {
            let register = *register as usize;
            register < piece.registers().len()
                && same_type(piece.registers()[register].ty, signal.ty)
        }
        Driver::MemoryWord(memory, reader, _, _) | Driver::ReadRegister(memory, reader) => {
            is_data_of(piece.memories(), *memory as usize, *reader as usize, s)
        }
        Driver::Computed(line) => is_source(piece.signals(), signal.ty, line),
    }
}

// Whether every signal may have its driver.
fn may_drive_all(piece: &Piece) -> bool
    ensures { IsTrue result ↔ ((s : ℕ) → s < length piece.now.signals → MayDrive piece.now s (driver_at piece.now s)) }
{
    for s in 0..piece.signals().len() {
        if !may_drive(piece, s) {
            return false;
        }
    }
    true
}

// Whether every in-signal is a signal, and its driver names its place among the in-signals.
fn are_ins(piece: &Piece) -> bool
    ensures { IsTrue result ↔ ((place : ℕ) → place < length piece.now.ins
        → (value_at piece.now.ins place < length piece.now.signals)
        × (driver_at piece.now (value_at piece.now.ins place) ≡ Input place)) }
{
    for place in 0..piece.ins().len() {
        if !is_input(piece.signals(), piece.ins()[place], place) {
            return false;
        }
    }
    true
}

// Whether every out-signal is a signal.
fn are_outs(piece: &Piece) -> bool
    ensures { IsTrue result ↔ ((place : ℕ) → place < length piece.now.outs → value_at piece.now.outs place < length piece.now.signals) }
{
    for out in piece.outs() {
        if *out as usize >= piece.signals().len() {
            return false;
        }
    }
    true
}

/// Whether a piece is well formed. It does not allocate.
pub fn is_well_formed(piece: &Piece) -> bool
    ensures { IsTrue result ↔ IsWellFormed piece.now }
{
    // for the invariant only: each signal has its own path
    let _ = piece.signal_count();
    if !are_ins(piece) {
        return false;
    }
    if !are_outs(piece) {
        return false;
    }
    if !may_drive_all(piece) {
        return false;
    }
    if !are_read(piece) {
        return false;
    }
    if !are_clocked(piece) {
        return false;
    }
    if !are_memories(piece.signals(), piece.memories()) {
        return false;
    }
    are_registers(piece.signals(), piece.registers())
}

// Whether a signal is one of these and is driven by the input at this place.
fn is_input(signals: &[Signal], signal: u32, place: usize) -> bool
    ensures { IsTrue result ↔ ((signal < length signals.now) × (slice_index_or (map (λ s. s.driver) signals.now) signal (Input 0) ≡ Input place)) }
{
    if signal as usize >= signals.len() {
        return false;
    }
    match &signals[signal as usize].driver {
        Driver::Input(found) => *found as usize == place,
        _ => false,
    }
}
