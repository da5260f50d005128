//! A list of names, with their places.

ghost use Rattle.std.specs.Prelude.{◌≡◌, ℕ, List, [], ◌∷◌, ◌++◌, ◌<◌, ◌^◌, length, slice_get, option_map, IfOk, OnOk, OnErr};
ghost use Rattle.gg_replay.specs.steps_file.Naming.{first_place};
ghost use Rattle.gg_replay.specs.inside.Table.{TellsNames};

use gg_bits::Name;
use std::alloc::{AllocError, Global};
use std::collections::HashMap;
use std::marker::Model;

// Names by their numbers, with a table that finds the first place of each name. A contract sees the list of names.
pub(crate) struct NameTable<'a> {
    names: Vec<&'a str>,
    places: HashMap<&'a [u8], u32>,
}

impl Drop for NameTable<'_> {
    fn drop(self) {
        let Self { names, places } = self;
        drop(names);
        drop(places);
    }
}

impl<'a> Model for NameTable<'a> {
    ghost use Rattle.std.specs.Prelude.{ℕ, List, map};
    ghost use Rattle.gg_replay.specs.inside.Table.{TellsNames};

    ghost Value = { List (List ℕ) };

    ghost view = { λ table. map (λ name. name.now) table.names.items };

    ghost invariant = { λ table. TellsNames (map (λ name. name.now) table.names.items) table.places };
}

// Adds a name's place in a list to the table, unless the name has an earlier place.
fn note_place<'a>(
    places: &mut HashMap<&'a [u8], u32>,
    name: &'a [u8],
    place: u32,
) -> Result<(), AllocError>
    ensures ok { OnOk result ((names : List (List ℕ)) → TellsNames names places.old → place ≡ length names →
        TellsNames (names ++ name.now ∷ []) places.new) }
    ensures err { OnErr result ((names : List (List ℕ)) → TellsNames names places.old → TellsNames names places.new) }
{
    if places.contains_key(name) {
        return Ok(());
    }
    places.insert(name, place)?;
    Ok(())
}

impl<'a> NameTable<'a> {
    // Returns a table without names.
    pub(crate) fn new(alloc: Global) -> NameTable<'a>
        ensures { result ≡ [] }
    {
        NameTable {
            names: Vec::new(alloc),
            places: HashMap::new(alloc),
        }
    }

    // Appends a name. If an allocation fails the names stay as they were.
    pub(crate) fn push(&mut self, name: &'a str) -> Result<(), AllocError>
        requires { length self.old < 2 ^ 32 }
        ensures ok { OnOk result (self.new ≡ self.old ++ name.now ∷ []) }
        ensures err { OnErr result (self.new ≡ self.old) }
    {
        let place = self.names.len() as u32;
        self.names.push(name)?;
        match note_place(&mut self.places, name.as_bytes(), place) {
            Ok(()) => Ok(()),
            Err(error) => {
                self.names.pop();
                Err(error)
            }
        }
    }

    // The table of these names.
    pub(crate) fn of(alloc: Global, names: &'a [Name]) -> Result<NameTable<'a>, AllocError>
        requires { length names.now < 2 ^ 32 }
        ensures { IfOk result (λ table. table ≡ names.now) }
    {
        let mut table = NameTable::new(alloc);
        for name in names {
            table.push(name.as_str())?;
        }
        Ok(table)
    }

    // The number that a word names.
    pub(crate) fn place(&self, word: &[u8]) -> Option<u32>
        ensures { result ≡ first_place word.now self.now }
    {
        if word.is_empty() {
            return None;
        }
        self.places.get(word).copied()
    }

    // The name of a number, if there is one.
    pub(crate) fn name(&self, number: u32) -> Option<&'a str>
        ensures { option_map (λ name. name.now) result ≡ slice_get self.now number }
    {
        self.names.get(number as usize).copied()
    }
}
