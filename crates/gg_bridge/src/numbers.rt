//! Lists of numbers.
ghost use Rattle.std.specs.Prelude.{◌≡◌, ℕ, ◌≤◌, ◌<◌, ◌+◌, ◌^◌, [], map, length, IfOk};
ghost use Rattle.std.specs.List.{range_with_len};
ghost use Rattle.gg_flat.specs.Line.{value_at};
ghost use Rattle.gg_bridge.specs.inside.Joined.{HasPlaces, is_free, place_at};
ghost use Rattle.gg_bridge.specs.Joined.{without};

use gg_flat::number_at;
use std::alloc::{AllocError, Global};

/// For each of the first `count` numbers its first place in a list, if it is there.
///
/// # Errors
///
/// Returns `AllocError` if an allocation fails.
pub fn places_of(alloc: Global, count: usize, list: &[u32]) -> Result<Vec<Option<u32>>, AllocError>
    requires { length list.now ≤ 2 ^ 32 }
    ensures { IfOk result (λ places. HasPlaces list.now count places.items) }
{
    let mut places = vec![in alloc; None; count]?;
    fill_places(list, &mut places);
    Ok(places)
}

/// The entry of a number in a table of places; none past its end.
pub fn place_at(places: &[Option<u32>], number: u32) -> Option<u32>
    ensures { result ≡ place_at places.now number }
{
    match places.get(number as usize) {
        Some(place) => *place,
        None => None,
    }
}

// Whether a table has an entry for a number, and that has no place yet.
fn is_free(places: &[Option<u32>], number: u32) -> bool
    ensures { result ≡ is_free places.now number }
{
    (number as usize) < places.len() && place_at(places, number).is_none()
}

// Gives each number below the table's length the first place where the list has it.
fn fill_places(list: &[u32], places: &mut [Option<u32>])
    requires few { length list.now ≤ 2 ^ 32 }
    requires none { HasPlaces [] (length places.old) places.old }
    ensures { HasPlaces list.now (length places.old) places.new }
{
    for place in 0..list.len() {
        if is_free(places, list[place]) {
            places[list[place] as usize] = Some(place as u32);
        }
    }
}

// A list of some of the first `count` numbers, without the numbers of another list.
//
// # Errors
//
// Returns `AllocError` if an allocation fails.
pub(crate) fn left_of(
    alloc: Global,
    count: usize,
    gone: &[u32],
    list: &[u32],
) -> Result<Vec<u32>, AllocError>
    requires few { length gone.now ≤ 2 ^ 32 }
    requires below { (i : ℕ) → i < length list.now → value_at list.now i < count }
    ensures { IfOk result (λ left. left.items ≡ without gone.now list.now) }
{
    let places = places_of(alloc, count, gone)?;
    let mut left = Vec::new(alloc);
    for number in list {
        if place_at(&places, *number).is_none() {
            left.push(*number)?;
        }
    }
    Ok(left)
}

// This many numbers, starting at `first`.
//
// # Errors
//
// Returns `AllocError` if an allocation fails.
pub(crate) fn numbers_from(
    alloc: Global,
    first: usize,
    count: usize,
) -> Result<Vec<u32>, AllocError>
    requires { first + count ≤ 2 ^ 32 }
    ensures { IfOk result (λ numbers. numbers.items ≡ range_with_len first count) }
{
    let mut numbers = Vec::new(alloc);
    for step in 0..count {
        numbers.push((first + step) as u32)?;
    }
    Ok(numbers)
}

// The numbers at these places of a list; 0 past its end.
//
// # Errors
//
// Returns `AllocError` if an allocation fails.
pub(crate) fn numbers_at(
    alloc: Global,
    list: &[u32],
    places: &[u32],
) -> Result<Vec<u32>, AllocError>
    ensures { IfOk result (λ numbers. numbers.items ≡ map (value_at list.now) places.now) }
{
    let mut numbers = Vec::new(alloc);
    for place in places {
        numbers.push(number_at(list, *place))?;
    }
    Ok(numbers)
}
