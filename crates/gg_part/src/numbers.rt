//! `Numbers`: numbers of the whole circuit, each with its place.
ghost use Rattle.std.specs.Prelude.{◌≡◌, ℕ, ◌<◌, ◌≤◌, ◌^◌, length, replicate, IfOk, IfSome, IfNone, All, Contains};
ghost use Rattle.gg_flat.specs.Line.{value_at};
ghost use Rattle.gg_part.specs.inside.Numbers.{ArePlaces};

use gg_bits::Ids;
use std::alloc::{AllocError, Global};
use std::marker::Model;

// Numbers of the whole circuit's signals, registers or memories. The number at a place is the number in the whole
// circuit of what the part has at that place. A contract sees the list. A table has the place of each number. It has an
// entry for everything that the whole circuit has.
pub(crate) struct Numbers {
    items: Vec<u32>,
    places: Vec<u32>,
}

impl Drop for Numbers {
    fn drop(self) {
        let Self { items, places } = self;
        drop(items);
        drop(places);
    }
}

impl Model for Numbers {
    ghost use Rattle.std.specs.Prelude.{List, ℕ, length};
    ghost use Rattle.gg_part.specs.inside.Numbers.{ArePlaces};

    ghost Value = { List ℕ };

    ghost view = { λ numbers. numbers.items.items };

    ghost invariant = { λ numbers. ArePlaces numbers.items.items (length numbers.items.items) numbers.places.items };
}

// This many zeros.
fn zeros(alloc: Global, count: usize) -> Result<Vec<u32>, AllocError>
    ensures { IfOk result (λ zeros. zeros.items ≡ replicate count 0) }
{
    vec![in alloc; 0; count]
}

// Writes each number's place into the table.
fn fill(places: &mut [u32], items: &[u32])
    requires below { All (λ s. s < length places.old) items.now }
    requires few { length items.now ≤ 2 ^ 32 }
    ensures { ArePlaces items.now (length items.now) places.new }
{
    for place in 0..items.len() {
        places[items[place] as usize] = place as u32;
    }
}

// The table of the places of these numbers. All of them are below `count`.
fn table(alloc: Global, count: usize, items: &[u32]) -> Result<Vec<u32>, AllocError>
    requires below { All (λ s. s < count) items.now }
    requires few { length items.now ≤ 2 ^ 32 }
    ensures { IfOk result (λ places. ArePlaces items.now (length items.now) places.items) }
{
    let mut places = zeros(alloc, count)?;
    fill(&mut places, items);
    Ok(places)
}

impl Numbers {
    // These numbers, with the table of their places. All of them are below `count`.
    //
    // # Errors
    //
    // Returns `AllocError` if an allocation fails.
    pub(crate) fn of(alloc: Global, count: usize, items: &[u32]) -> Result<Numbers, AllocError>
        requires below { All (λ s. s < count) items.now }
        requires few { length items.now ≤ 2 ^ 32 }
        ensures { IfOk result (λ numbers. numbers ≡ items.now) }
    {
        let places = table(alloc, count, items)?;
        let items = Vec::from_slice(alloc, items)?;
        Ok(Numbers { items, places })
    }

    // The numbers, in order.
    pub(crate) fn as_slice(&self) -> &[u32]
        ensures { result.now ≡ self.now }
    {
        self.items.as_slice()
    }

    // The place of each of these numbers, in a table; its other entries don't matter.
    pub(crate) fn places(&self) -> &[u32]
        ensures { ArePlaces self.now (length self.now) result.now }
    {
        self.places.as_slice()
    }

    // The place of a number, if it is one of these.
    pub(crate) fn find(&self, number: u32) -> Option<u32>
        ensures within { IfSome result (λ place. place < length self.now) }
        ensures found { IfSome result (λ place. value_at self.now place ≡ number) }
        ensures missing { IfNone result (¬ Contains self.now number) }
    {
        let place = *self.places.as_slice().get(number as usize)?;
        if (place as usize) < self.items.len() && self.items[place as usize] == number {
            Some(place)
        } else {
            None
        }
    }

    // The place of one of these numbers.
    pub(crate) fn place(&self, number: u32) -> u32
        requires { Contains self.now number }
        ensures within { result < length self.now }
        ensures found { value_at self.now result ≡ number }
    {
        self.find(number).unwrap()
    }

    // Returns the numbers, in order.
    pub(crate) fn into_ids(self) -> Ids
        ensures { result ≡ self }
    {
        let Self { items, places } = self;
        drop(places);
        Ids::from(items)
    }
}
