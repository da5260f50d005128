//! The tables of a plan.
ghost use Rattle.std.specs.Prelude.{◌≡◌, ◌≢◌, ℕ, ◌<◌, ◌≤◌, ◌+◌, ◌^◌, [], ◌∷◌, ◌++◌, if◌then◌else◌, length, map, filter, replicate, IfOk, OnOk, All, AllPairs};
ghost use Rattle.std.specs.List.{range_with_len};
ghost use Rattle.gg_flat.specs.declared.piece.Driver.TheVariants.{Held};
ghost use Rattle.gg_flat.specs.Circuit.{driver_at};
ghost use Rattle.gg_order.specs.Marks.{is_marked};
ghost use Rattle.gg_cut_plan.specs.Held.{AreHeldOnce};
ghost use Rattle.gg_cut_pipes.specs.inside.Tables.{IsFilled, AreHolding, held_by, piped_places, piped_signals, piped_takers, CanFill, AreTables};

use crate::tables::Tables;
use gg_bits::{Ids, copied};
use gg_cut_plan::{Channel, Wire, marks_of};
use gg_cut_split::Owned;
use gg_flat::{Driver, Piece, number_at};
use std::alloc::{AllocError, Global};

// The tables of a plan with these channels, and with the pipes of these signals.
//
// # Errors
//
// Returns `AllocError` if an allocation fails.
pub(crate) fn tables_of(
    alloc: Global,
    one: &Piece,
    channels: &[Channel],
    pipes: &[u32],
    owned: &Owned,
) -> Result<Tables, AllocError>
    requires { CanFill one.now channels.now pipes.now owned.now }
    ensures { IfOk result (λ tables. AreTables one.now channels.now pipes.now owned.now tables) }
{
    let count = one.signals().len();
    let places = places_in(alloc, channels)?;
    let takers = takers_in(alloc, channels)?;
    let takers = table_of(alloc, count, &places, &takers)?;
    let numbers = numbers_from(alloc, count, pipes.len())?;
    let numbers = table_of(alloc, count, pipes, &numbers)?;
    let makers = makers_of(alloc, owned)?;
    let holders = holders_of(alloc, one, &makers)?;
    let keepers = copied(alloc, owned.memories.as_slice())?;
    Ok(Tables {
        makers: Ids::from(makers),
        holders: Ids::from(holders),
        keepers,
        takers: Ids::from(takers),
        pipes: Ids::from(numbers),
    })
}

// ---- lists

// The signals of the piped channels, by their numbers. All are below `count`.
//
// # Errors
//
// Returns `AllocError` if an allocation fails.
pub(crate) fn pipes_in(
    alloc: Global,
    count: usize,
    channels: &[Channel],
) -> Result<Vec<u32>, AllocError>
    requires known { All (λ s. s < count) (piped_places channels.now) }
    requires few { count ≤ 2 ^ 32 }
    ensures { IfOk result (λ pipes. pipes.items ≡ piped_signals count channels.now) }
{
    let places = places_in(alloc, channels)?;
    let marks = marks_of(alloc, count, &places)?;
    let pipes = marked_in(alloc, &marks)?;
    Ok(pipes)
}

// The numbers that are marked, ascending.
fn marked_in(alloc: Global, marks: &[bool]) -> Result<Vec<u32>, AllocError>
    requires { length marks.now ≤ 2 ^ 32 }
    ensures { IfOk result (λ numbers. numbers.items ≡ filter (is_marked marks.now) (range_with_len 0 (length marks.now))) }
{
    let mut numbers = Vec::new(alloc);
    for number in 0..marks.len() {
        push_if(&mut numbers, number as u32, marks[number])?;
    }
    Ok(numbers)
}

// Adds a number at the end, if it is marked.
fn push_if(numbers: &mut Vec<u32>, number: u32, marked: bool) -> Result<(), AllocError>
    ensures { OnOk result (numbers.new.items ≡ numbers.old.items ++ (if marked then number ∷ [] else [])) }
{
    if marked {
        numbers.push(number)?;
    }
    Ok(())
}

// The signals of the piped channels, in the order of the channels.
fn places_in(alloc: Global, channels: &[Channel]) -> Result<Vec<u32>, AllocError>
    ensures { IfOk result (λ places. places.items ≡ piped_places channels.now) }
{
    let mut places = Vec::new(alloc);
    for channel in channels {
        if channel.pipe {
            places.push(channel.signal)?;
        }
    }
    Ok(places)
}

// The machines that take the piped channels, in the order of the channels.
fn takers_in(alloc: Global, channels: &[Channel]) -> Result<Vec<u32>, AllocError>
    ensures { IfOk result (λ takers. takers.items ≡ piped_takers channels.now) }
{
    let mut takers = Vec::new(alloc);
    for channel in channels {
        if channel.pipe {
            takers.push(channel.consumer)?;
        }
    }
    Ok(takers)
}

// This many numbers, starting at `first`.
//
// # Errors
//
// Returns `AllocError` if an allocation fails.
pub(crate) fn numbers_from(
    alloc: Global,
    first: usize,
    count: usize,
) -> Result<Vec<u32>, AllocError>
    requires { first + count ≤ 2 ^ 32 }
    ensures { IfOk result (λ numbers. numbers.items ≡ range_with_len first count) }
{
    let mut numbers = Vec::new(alloc);
    for step in 0..count {
        numbers.push((first + step) as u32)?;
    }
    Ok(numbers)
}

// ---- tables

// A table with `count` numbers: each value at its place, otherwise 0.
fn table_of(
    alloc: Global,
    count: usize,
    places: &[u32],
    values: &[u32],
) -> Result<Vec<u32>, AllocError>
    requires known { All (λ s. s < count) places.now }
    requires once { AllPairs (λ a b. a ≢ b) places.now }
    requires values { length values.now ≡ length places.now }
    ensures { IfOk result (λ table. IsFilled places.now values.now (length places.now) (replicate count 0) table.items) }
{
    let mut table = filled_with(alloc, 0, count)?;
    fill(&mut table, places, values);
    Ok(table)
}

// This many times a number.
fn filled_with(alloc: Global, number: u32, count: usize) -> Result<Vec<u32>, AllocError>
    ensures { IfOk result (λ numbers. numbers.items ≡ replicate count number) }
{
    vec![in alloc; number; count]
}

// Writes each value at its place.
fn fill(table: &mut [u32], places: &[u32], values: &[u32])
    requires known { All (λ s. s < length table.old) places.now }
    requires once { AllPairs (λ a b. a ≢ b) places.now }
    requires values { length values.now ≡ length places.now }
    ensures { IsFilled places.now values.now (length places.now) table.old table.new }
{
    for place in 0..places.len() {
        table[places[place] as usize] = values[place];
    }
}

// The machine with each signal's driver.
fn makers_of(alloc: Global, owned: &Owned) -> Result<Vec<u32>, AllocError>
    requires known { All (λ w. w.signal < length owned.now.signals) owned.now.wires }
    requires once { AllPairs (λ v w. v.signal ≢ w.signal) owned.now.wires }
    ensures { IfOk result (λ makers. IsFilled (map (λ w. w.signal) owned.now.wires) (map (λ w. w.producer) owned.now.wires) (length owned.now.wires) owned.now.signals makers.items) }
{
    let mut makers = Vec::from_slice(alloc, owned.signals.as_slice())?;
    mark_makers(&mut makers, owned.wires.as_slice());
    Ok(makers)
}

// Gives the signal of each channel the channel's producer.
fn mark_makers(makers: &mut [u32], wires: &[Wire])
    requires known { All (λ w. w.signal < length makers.old) wires.now }
    requires once { AllPairs (λ v w. v.signal ≢ w.signal) wires.now }
    ensures { IsFilled (map (λ w. w.signal) wires.now) (map (λ w. w.producer) wires.now) (length wires.now) makers.old makers.new }
{
    for place in 0..wires.len() {
        makers[wires[place].signal as usize] = wires[place].producer;
    }
}

// The machine that holds each register, from the machines with the signals' drivers: the hub, if no signal holds it.
fn holders_of(alloc: Global, one: &Piece, makers: &[u32]) -> Result<Vec<u32>, AllocError>
    requires known { (s r : ℕ) → s < length one.now.signals → driver_at one.now s ≡ Held r → r < length one.now.registers }
    requires few { length one.now.signals < 2 ^ 32 }
    requires once { AreHeldOnce one.now }
    ensures { IfOk result (λ holders. AreHolding one.now makers.now (length one.now.signals) (replicate (length one.now.registers) 0) holders.items) }
{
    let mut holders = filled_with(alloc, 0, one.registers().len())?;
    mark_holders(one, makers, &mut holders);
    Ok(holders)
}

// Gives each register the machine of the signal that holds it.
fn mark_holders(one: &Piece, makers: &[u32], holders: &mut [u32])
    requires known { (s r : ℕ) → s < length one.now.signals → driver_at one.now s ≡ Held r → r < length holders.old }
    requires few { length one.now.signals < 2 ^ 32 }
    requires once { AreHeldOnce one.now }
    ensures { AreHolding one.now makers.now (length one.now.signals) holders.old holders.new }
{
    for place in 0..one.signals().len() {
        let maker = number_at(makers, place as u32);
        mark_holder(&one.signals()[place].driver, maker, holders);
    }
}

// Gives the register that a driver holds a machine.
fn mark_holder(driver: &Driver, maker: u32, holders: &mut [u32])
    requires { (r : ℕ) → driver.now ≡ Held r → r < length holders.old }
    ensures { holders.new ≡ held_by maker driver.now holders.old }
{
    match driver {
        Driver::Held(register) => holders[*register as usize] = maker,
        _ => {}
    }
}
