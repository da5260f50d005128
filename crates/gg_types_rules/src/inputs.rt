//! The Clock inputs of a module, counted in port order.
ghost use Rattle.std.specs.Prelude.{◌≡◌, None, IfOk, map, slice_index_or};
ghost use Rattle.gg_types.specs.Clocks.{counted_clock, clock_number as number_of_port};
ghost use Rattle.gg_types.specs.inside.Clocks.{clock_numbers as numbers_of_ports};

use gg_ast::Port;
use gg_types::is_clock_input;
use std::alloc::{AllocError, Global};

// The number of a port among the Clock inputs, if there are `count` before it; none if it isn't one.
fn clock_number(count: u32, port: &Port) -> Option<u32>
    ensures { result ≡ number_of_port count port.now }
{
    if is_clock_input(port) {
        Some(count)
    } else {
        None
    }
}

// How many Clock inputs there are with this port. Returns `AllocError` for more than 4,294,967,295.
fn counted(count: u32, port: &Port) -> Result<u32, AllocError>
    ensures { IfOk result (λ more. more ≡ counted_clock count port.now) }
{
    if !is_clock_input(port) {
        return Ok(count);
    }
    if count == u32::MAX {
        return Err(AllocError);
    }
    Ok(count + 1)
}

// For each port its number among the Clock inputs, counted from 0 in port order; none for any other port.
//
// # Errors
//
// Returns `AllocError` if an allocation fails, or if there are more than 4,294,967,295 Clock inputs.
pub(crate) fn clock_numbers(alloc: Global, ports: &[Port]) -> Result<Vec<Option<u32>>, AllocError>
    ensures { IfOk result (λ numbers. numbers.items ≡ numbers_of_ports 0 ports.now) }
{
    let mut numbers = Vec::new(alloc);
    let mut count = 0u32;
    for port in ports {
        numbers.push(clock_number(count, port))?;
        count = counted(count, port)?;
    }
    Ok(numbers)
}

// The number at a place, if there is one.
fn number_at(numbers: &[Option<u32>], place: usize) -> Option<u32>
    ensures { result ≡ slice_index_or numbers.now place None }
{
    match numbers.get(place) {
        Some(number) => *number,
        None => None,
    }
}

// The numbers at these places.
//
// # Errors
//
// Returns `AllocError` if an allocation fails.
pub(crate) fn numbers_reached(
    alloc: Global,
    numbers: &[Option<u32>],
    places: &Vec<usize>,
) -> Result<Vec<Option<u32>>, AllocError>
    ensures { IfOk result (λ found. found.items ≡ map (λ place. slice_index_or numbers.now place None) places.now.items) }
{
    let mut found = Vec::new(alloc);
    for place in places {
        found.push(number_at(numbers, *place))?;
    }
    Ok(found)
}
