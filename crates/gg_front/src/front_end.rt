//! `front`: from the bytes of a circuit file to a design.
ghost use Rattle.std.specs.Prelude.{◌≡◌, ◌<◌, ◌^◌, ℕ, List, [], None, IfOk, IfErr, length, map};
ghost use Rattle.std.specs.List.{All};
ghost use Rattle.gg_elab_sites.specs.IsFlat.{IsFlat};
ghost use Rattle.gg_elab_tree.specs.IsTreeOf.{IsTreeOf};
ghost use Rattle.gg_flat.specs.Reads.{IsLoop};
ghost use Rattle.gg_flat_tree.specs.Tree.{path_at};
ghost use Rattle.gg_flat.specs.WellFormed.{IsWellFormed};
ghost use Rattle.gg_part.specs.KeepsToTree.{KeepsToTree};
ghost use Rattle.gg_order.specs.inside.Fault.{IfLoop};
ghost use Rattle.gg_order.specs.Loop.{IsToldLoop};
ghost use Rattle.gg_read.specs.Text.{Spells, HasNoFaultLine};
ghost use Rattle.gg_shape.specs.Judged.{IsShaped};
ghost use Rattle.gg_elab_tree.specs.Held.{AreHeldOnce};
ghost use Rattle.gg_front.specs.Accepted.{IsSound, IsAccepted, excess_of};
ghost use Rattle.gg_front.specs.Fault.{HasFrontFault, over_limit};
ghost use Rattle.gg_front.specs.inside.Fault.{IfFirstFault, IfTellsLoop, IsUnread, fault_by};
ghost use Rattle.gg_front.specs.Meaning.{MeansDesign};

use crate::copies;
use crate::fault::FrontFault;
use gg_ast::Circuit;
use gg_bits::{Name, Names};
use gg_elab::{ElabFault, flatten, limit_of};
use gg_elab_sites::{Excess, one_flat};
use gg_flat::Piece;
use gg_flat_tree::Tree;
use gg_order::{Design, OrderFault, order};
use gg_read::{ReadFault, read_circuit};
use gg_shape::{CheckFault, Fault, shaped};
use gg_shape_names::Namespace;
use gg_types::Typed;
use gg_types_rules::typed;
use std::alloc::{AllocError, Global};

/// The design of a circuit file: a well-formed flat circuit that the bytes mean, with the tree of the circuit that they
/// spell and an order of evaluation. Each register is held by exactly one signal. The circuit keeps to its tree, and
/// instances of one module are copies of each other.
///
/// # Errors
///
/// Returns `Read` with the fault of reading if the bytes are not a text or a line is at fault. Returns `Fault` with the
/// first fault if the bytes spell a circuit that isn't accepted: a fault of shape (F1 to F8), of types (F9 to F14), of
/// the limits (F15), or a loop (F16). Any one of several rings of modules, or of several loops, may be reported.
/// Returns `NoMemory` if an allocation fails.
///
/// # Examples
///
/// ```rust
/// let text = "circuit Inverter :
///   module Inverter :
///     input a : UInt<8>
///     output b : UInt<8>
///     b <= not(a)
/// ";
/// let design = front(alloc, text.as_bytes())?;
/// // Signal 0 is `a`, and signal 1 is `b`. Because `b` reads `a`, `design.order()` is `[0, 1]`.
/// ```
///
/// Without the last line of the module the result is `Fault` with F5: the sink `b` of line 4 has no connection.
pub fn front(alloc: Global, bytes: &[u8]) -> Result<Design, FrontFault>
    requires { length bytes.now < 2 ^ 32 }
    ensures ok { IfOk result (λ design. MeansDesign bytes.now design) }
    ensures held { IfOk result (λ design. AreHeldOnce design.circuit) }
    ensures keeps { IfOk result (λ design. KeepsToTree design.circuit design.tree) }
    ensures refused { IfErr result (HasFrontFault bytes.now) }
{
    let circuit = read(alloc, bytes)?;
    design_of(alloc, &circuit)
}

// The circuit that a text spells, if none of its lines is at fault.
fn read(alloc: Global, bytes: &[u8]) -> Result<Circuit, FrontFault>
    requires { length bytes.now < 2 ^ 32 }
    ensures spelt { IfOk result (λ circuit. Spells bytes.now circuit) }
    ensures faultless { IfOk result (λ _. HasNoFaultLine bytes.now) }
    ensures unread { IfErr result (IsUnread bytes.now) }
{
    match read_circuit(alloc, bytes) {
        Ok(circuit) => Ok(circuit),
        Err(ReadFault::NoMemory) => Err(FrontFault::NoMemory),
        Err(fault) => Err(FrontFault::Read(fault)),
    }
}

// The design of an accepted circuit, or the circuit's first fault.
fn design_of(alloc: Global, circuit: &Circuit) -> Result<Design, FrontFault>
    ensures accepted { IfOk result (λ _. IsAccepted circuit.now) }
    ensures flat { IfOk result (λ design. IsFlat circuit.now design.circuit) }
    ensures grown { IfOk result (λ design. IsTreeOf circuit.now design.tree) }
    ensures formed { IfOk result (λ design. IsWellFormed design.circuit) }
    ensures held { IfOk result (λ design. AreHeldOnce design.circuit) }
    ensures keeps { IfOk result (λ design. KeepsToTree design.circuit design.tree) }
    ensures refused { IfErr result (IfFirstFault circuit.now) }
{
    one_flat();
    let (piece, tree) = flat_circuit(alloc, circuit)?;
    ordered(alloc, piece, tree)
}

// The flat circuit of a circuit with its tree, or the first of F1 to F15.
fn flat_circuit(alloc: Global, circuit: &Circuit) -> Result<(Piece, Tree), FrontFault>
    ensures sound { IfOk result (λ _. IsSound circuit.now) }
    ensures within { IfOk result (λ _. excess_of circuit.now ≡ None) }
    ensures flat { IfOk result (λ made. IsFlat circuit.now made.0) }
    ensures grown { IfOk result (λ made. IsTreeOf circuit.now made.1) }
    ensures formed { IfOk result (λ made. IsWellFormed made.0) }
    ensures held { IfOk result (λ made. AreHeldOnce made.0) }
    ensures keeps { IfOk result (λ made. KeepsToTree made.0 made.1) }
    ensures refused { IfErr result (IfFirstFault circuit.now) }
{
    let checked = checked(alloc, circuit)?;
    let made = flattened(alloc, &checked);
    drop(checked);
    made
}

// The circuit with its types, or the first of F1 to F14.
fn checked<'a>(alloc: Global, circuit: &'a Circuit) -> Result<Typed<'a>, FrontFault>
    ensures circuit { IfOk result (λ typed. typed.circuit ≡ circuit.now) }
    ensures sound { IfOk result (λ _. IsSound circuit.now) }
    ensures refused { IfErr result (IfFirstFault circuit.now) }
{
    match shaped(alloc, circuit) {
        Ok(names) => with_types(alloc, names),
        Err(refusal) => Err(fault_by(refusal)),
    }
}

// The circuit with these names and its types, or the first of F9 to F14.
fn with_types<'a>(alloc: Global, names: Namespace<'a>) -> Result<Typed<'a>, FrontFault>
    requires shaped { IsShaped names }
    ensures circuit { IfOk result (λ typed. typed.circuit ≡ names.entry) }
    ensures sound { IfOk result (λ _. IsSound names.entry) }
    ensures refused { IfErr result (IfFirstFault names.entry) }
{
    match typed(alloc, names) {
        Ok(typed) => Ok(typed),
        Err(refusal) => Err(fault_by(refusal)),
    }
}

// The fault of a check that refuses a circuit.
fn fault_by(refusal: CheckFault) -> FrontFault
    ensures { result ≡ fault_by refusal }
{
    match refusal {
        CheckFault::F(fault) => FrontFault::Fault(fault),
        CheckFault::NoMemory => FrontFault::NoMemory,
    }
}

// The flat circuit of a sound circuit with its tree, or the first count above its limit.
fn flattened(alloc: Global, checked: &Typed) -> Result<(Piece, Tree), FrontFault>
    requires { IsSound checked.now.circuit }
    ensures within { IfOk result (λ _. excess_of checked.now.circuit ≡ None) }
    ensures flat { IfOk result (λ made. IsFlat checked.now.circuit made.0) }
    ensures grown { IfOk result (λ made. IsTreeOf checked.now.circuit made.1) }
    ensures formed { IfOk result (λ made. IsWellFormed made.0) }
    ensures held { IfOk result (λ made. AreHeldOnce made.0) }
    ensures keeps { IfOk result (λ made. KeepsToTree made.0 made.1) }
    ensures refused { IfErr result (IfFirstFault checked.now.circuit) }
{
    match flatten(alloc, checked) {
        Ok((piece, tree)) => {
            copies(checked, &piece, &tree);
            Ok((piece, tree))
        }
        Err(ElabFault::TooLarge(excess)) => Err(FrontFault::Fault(over_limit(excess))),
        Err(ElabFault::NoMemory) => Err(FrontFault::NoMemory),
    }
}

// F15 with this count.
fn over_limit(excess: Excess) -> Fault
    ensures { result ≡ over_limit excess }
{
    Fault::OverLimit {
        limit: limit_of(excess.measure),
        count: excess.count,
    }
}

// The flat circuit with its tree and an order, or a loop of it.
fn ordered(alloc: Global, piece: Piece, tree: Tree) -> Result<Design, FrontFault>
    requires formed { IsWellFormed piece }
    ensures circuit { IfOk result (λ design. design.circuit ≡ piece) }
    ensures grown { IfOk result (λ design. design.tree ≡ tree) }
    ensures free { IfOk result (λ _. (loop : List ℕ) → ¬ IsLoop piece loop) }
    ensures refused { IfErr result (IfTellsLoop piece) }
{
    match order(alloc, &piece) {
        Ok(order) => Ok(Design::new(piece, tree, order)),
        Err(fault) => Err(loop_by(alloc, &piece, fault)),
    }
}

// F16 with the paths of the loop.
fn loop_by(alloc: Global, piece: &Piece, fault: OrderFault) -> FrontFault
    requires formed { IsWellFormed piece.now }
    requires told { IfLoop (IsToldLoop piece.now) fault }
    ensures { IfTellsLoop piece.now result }
{
    match fault {
        OrderFault::Loop(signals) => loop_of(alloc, piece, signals.as_slice()),
        OrderFault::NoMemory => FrontFault::NoMemory,
    }
}

// F16 with the paths of these signals.
fn loop_of(alloc: Global, piece: &Piece, signals: &[u32]) -> FrontFault
    requires formed { IsWellFormed piece.now }
    requires told { IsToldLoop piece.now signals.now }
    ensures { IfTellsLoop piece.now result }
{
    match paths(alloc, piece, signals) {
        Ok(paths) => FrontFault::Fault(Fault::Loop { paths }),
        Err(_) => FrontFault::NoMemory,
    }
}

// The paths of these signals.
fn paths(alloc: Global, piece: &Piece, signals: &[u32]) -> Result<Names, AllocError>
    requires formed { IsWellFormed piece.now }
    requires known { All (λ s. s < length piece.now.signals) signals.now }
    ensures { IfOk result (λ paths. paths ≡ map (path_at piece.now.paths) signals.now) }
{
    let mut paths = Vec::new(alloc);
    for signal in signals {
        paths.push(path(piece, *signal)?)?;
    }
    Ok(Names::from(paths))
}

// The path of a signal.
fn path(piece: &Piece, signal: u32) -> Result<Name, AllocError>
    requires formed { IsWellFormed piece.now }
    requires known { signal < length piece.now.signals }
    ensures { IfOk result (λ path. path ≡ path_at piece.now.paths signal) }
{
    match piece.path(signal) {
        Some(path) => path.clone(),
        None => unreachable!(),
    }
}
