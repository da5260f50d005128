//! Which Clock inputs the expressions, the memories and the instances of a module follow.
ghost use Rattle.std.specs.Prelude.{◌≡◌, ◌<◌, ◌++◌, ◌∷◌, [], length, map, IfOk, OnOk};
ghost use Rattle.gg_elab_sites.specs.Sites.{module_at};
ghost use Rattle.gg_elab_sites.specs.Clocks.{clock_of as clock_of_term, clock_connected as clock_of_connection, port_clock as clock_of_port, clocks_given as clocks_of_instance, clocks_of_top};
ghost use Rattle.gg_elab_sites.specs.Connection.{connection_in};
ghost use Rattle.gg_elab_sites.specs.Known.{types_of};
ghost use Rattle.gg_elab_sites.specs.Signals.{dotted as dotted_text};
ghost use Rattle.gg_elab_sites.specs.inside.Views.{seen, AreDigests};
ghost use Rattle.gg_types.specs.Clocks.{clock_inputs};

use crate::connections::Source;
use crate::digest::Digest;
use crate::names::{dotted, field_name};
use gg_ast::{Expr, ExprKind, Module, Port};
use gg_bits::Name;
use gg_types::{Typed, is_clock_input};
use std::alloc::{AllocError, Global};

/// The Clock input that an expression follows in the module at a place. None if it isn't a reference, or follows no Clock
/// input.
pub fn clock_of(typed: &Typed, number: u32, value: &Expr) -> Option<u32>
    requires { number < length typed.now.circuit.modules }
    ensures { result ≡ clock_of_term (module_at typed.now.circuit.modules number) value.now }
{
    match &value.kind {
        ExprKind::Named(reference) => typed.clock(number, reference),
        ExprKind::Constant(_)
        | ExprKind::Unary(_, _)
        | ExprKind::Binary(_, _, _)
        | ExprKind::Fixed(_, _, _, _)
        | ExprKind::Mux(_, _, _) => None,
    }
}

// The Clock input that a connection follows in the module at a place.
fn clock_connected(typed: &Typed, number: u32, source: Option<Source>) -> Option<u32>
    requires { number < length typed.now.circuit.modules }
    ensures { result ≡ clock_of_connection (module_at typed.now.circuit.modules number) (seen source.entry) }
{
    match source {
        Some(Source::Of(value)) => clock_of(typed, number, value),
        Some(Source::Zero) | None => None,
    }
}

// The Clock input that the sink of a written name follows in the module at a place.
fn clock_of_sink(typed: &Typed, digests: &[Digest], number: u32, sink: &Name) -> Option<u32>
    requires digests { AreDigests (types_of typed.now.circuit) typed.now.circuit.modules digests.now }
    requires there { number < length typed.now.circuit.modules }
    ensures { result ≡ clock_of_connection (module_at typed.now.circuit.modules number) (connection_in (module_at typed.now.circuit.modules number).statements sink.now) }
{
    let sinks = &digests[number as usize].sinks;
    clock_connected(typed, number, sinks.source(sink))
}

/// The Clock input that a port of a memory follows in the module at a place.
///
/// # Errors
///
/// Returns `AllocError` if an allocation fails.
pub fn port_clock(
    alloc: Global,
    typed: &Typed,
    digests: &[Digest],
    number: u32,
    memory: &Name,
    port: &Name,
) -> Result<Option<u32>, AllocError>
    requires digests { AreDigests (types_of typed.now.circuit) typed.now.circuit.modules digests.now }
    requires there { number < length typed.now.circuit.modules }
    ensures { IfOk result (λ clock. clock ≡ clock_of_port (module_at typed.now.circuit.modules number) memory.now port.now) }
{
    let sink = field_name(alloc, memory, port, "clk")?;
    Ok(clock_of_sink(typed, digests, number, &sink))
}

// Adds what a port of an instance of this name follows, if it is a Clock input.
fn add_given(
    alloc: Global,
    typed: &Typed,
    digests: &[Digest],
    around: u32,
    name: &Name,
    port: &Port,
    clocks: &mut Vec<Option<u32>>,
) -> Result<(), AllocError>
    requires digests { AreDigests (types_of typed.now.circuit) typed.now.circuit.modules digests.now }
    requires there { around < length typed.now.circuit.modules }
    ensures { OnOk result (clocks.new.items ≡ clocks.old.items
        ++ map (λ port. clock_of_connection (module_at typed.now.circuit.modules around)
        (connection_in (module_at typed.now.circuit.modules around).statements (dotted_text name.now port)))
        (clock_inputs (port.now ∷ []))) }
{
    if !is_clock_input(port) {
        return Ok(());
    }
    let sink = dotted(alloc, name.as_str(), port.name.as_str())?;
    clocks.push(clock_of_sink(typed, digests, around, &sink))?;
    Ok(())
}

// For each Clock input of a module, in port order, the Clock input that it follows of the module at the place `around`,
// which has an instance of it under this name.
pub(crate) fn clocks_given(
    alloc: Global,
    typed: &Typed,
    digests: &[Digest],
    around: u32,
    name: &Name,
    body: &Module,
) -> Result<Vec<Option<u32>>, AllocError>
    requires digests { AreDigests (types_of typed.now.circuit) typed.now.circuit.modules digests.now }
    requires there { around < length typed.now.circuit.modules }
    ensures { IfOk result (λ clocks. clocks.items ≡ clocks_of_instance (module_at typed.now.circuit.modules around) name.now body.now) }
{
    let mut clocks = Vec::new(alloc);
    let ports = body.ports();
    for port in ports {
        add_given(alloc, typed, digests, around, name, port, &mut clocks)?;
    }
    Ok(clocks)
}

/// How many Clock inputs there are among these ports.
///
/// # Errors
///
/// Returns `AllocError` for more than 4,294,967,295.
pub fn clock_count(ports: &[Port]) -> Result<u32, AllocError>
    ensures { IfOk result (λ count. count ≡ length (clock_inputs ports.now)) }
{
    let mut count = 0u32;
    for port in ports {
        if is_clock_input(port) {
            if count == u32::MAX {
                return Err(AllocError);
            }
            count += 1;
        }
    }
    Ok(count)
}

// The clocks of the circuit that the Clock inputs of the top are.
pub(crate) fn top_clocks(alloc: Global, body: &Module) -> Result<Vec<Option<u32>>, AllocError>
    ensures { IfOk result (λ clocks. clocks.items ≡ clocks_of_top body.now) }
{
    let mut clocks = Vec::new(alloc);
    let count = clock_count(body.ports())?;
    for number in 0..count {
        clocks.push(Some(number))?;
    }
    Ok(clocks)
}
