//! `Pile`: a growing list, one of several.
ghost use Rattle.std.specs.Prelude.{◌≡◌, ℕ, ◌<◌, [], ◌∷◌, ◌++◌, ◌==◌, length, set, get_or, replicate, OnOk, IfOk};
ghost use Rattle.gg_cut_split.specs.inside.Spread.{IsPut};

use gg_bits::Ids;
use std::alloc::{AllocError, Global};
use std::marker::Model;

/// A growing list of numbers. A contract sees it as the list.
pub struct Pile {
    items: Vec<u32>,
}

impl Drop for Pile {
    fn drop(self) {
        let Self { items } = self;
        drop(items);
    }
}

impl Model for Pile {
    ghost use Rattle.std.specs.Prelude.{ℕ, List};

    ghost Value = { List ℕ };

    ghost view = { λ pile. pile.items.items };
}

impl Pile {
    // An empty pile.
    fn new(alloc: Global) -> Pile
        ensures { result ≡ [] }
    {
        Pile {
            items: Vec::new(alloc),
        }
    }

    // Adds a number at the end.
    fn push(&mut self, number: u32) -> Result<(), AllocError>
        ensures { OnOk result (self.new ≡ self.old ++ number ∷ []) }
    {
        self.items.push(number)?;
        Ok(())
    }

    /// The list.
    pub fn as_slice(&self) -> &[u32]
        ensures { result.now ≡ self.now }
    {
        self.items.as_slice()
    }

    // Returns the list, and leaves the pile empty.
    pub(crate) fn take(&mut self, alloc: Global) -> Ids
        ensures given { result ≡ self.old }
        ensures left { self.new ≡ [] }
    {
        let items = std::mem::replace(&mut self.items, Vec::new(alloc));
        Ids::from(items)
    }
}

// This many empty piles.
pub(crate) fn piles(alloc: Global, count: usize) -> Result<Vec<Pile>, AllocError>
    ensures { IfOk result (λ piles. piles.items ≡ replicate count []) }
{
    let mut piles = Vec::new(alloc);
    for _ in 0..count {
        piles.push(Pile::new(alloc))?;
    }
    Ok(piles)
}

// Adds a number at the end of the pile of a machine.
pub(crate) fn put(piles: &mut [Pile], machine: u32, number: u32) -> Result<(), AllocError>
    requires { machine < length piles.old }
    ensures { OnOk result (IsPut (λ m. machine == m) number piles.old piles.new) }
{
    push_at(piles, machine, number)?;
    Ok(())
}

// Adds a number at the end of the pile at a place.
fn push_at(piles: &mut [Pile], place: u32, number: u32) -> Result<(), AllocError>
    requires { place < length piles.old }
    ensures { OnOk result (piles.new ≡ set piles.old place (get_or piles.old place [] ++ number ∷ [])) }
{
    piles[place as usize].push(number)
}
