//! Tables of names.
ghost use Rattle.std.specs.Prelude.{◌≡◌, [], ◌∷◌, ◌++◌, ◌<◌, ℕ, List, false, length, IfSome, OnOk, OnErr, option_copied};
ghost use Rattle.std.specs.List.{list_any};
ghost use Rattle.std.specs.Str.{bytes_eq};
ghost use Rattle.gg_ast.specs.Places.{place_of};
ghost use Rattle.gg_shape_names.specs.inside.Tables.{names_told, own_role as role_told};
ghost use Rattle.gg_bits.specs.Lists.{find_word};

use crate::role::Role;
use gg_bits::Name;
use indexmap::{IndexMap, IndexSet};
use std::alloc::{AllocError, Global};
use std::marker::Model;

// The declaration of a name.
#[derive(Drop)]
pub(crate) enum Declared<'a> {
    // A port, a wire, a register or a node: nothing can be named through it.
    Plain(Role),
    // An instance of the module at this place, if that module exists.
    Instance(Option<u32>),
    // A memory with these readers and these writers.
    Memory(Words<'a>, Words<'a>),
}

// Distinct names. A contract sees them as their list.
pub(crate) struct Words<'a> {
    items: IndexSet<&'a str>,
}

impl Drop for Words<'_> {
    fn drop(self) {
        let Self { items } = self;
        drop(items);
    }
}

impl<'a> Model for Words<'a> {
    ghost use Rattle.std.specs.Prelude.{ℕ, List, map};

    ghost Value = { List (List ℕ) };

    ghost view = { λ words. map (λ key. key.now) words.items.keys };
}

impl<'a> Words<'a> {
    // No names.
    pub(crate) fn new(alloc: Global) -> Words<'a>
        ensures { result ≡ [] }
    {
        Words {
            items: IndexSet::new(alloc),
        }
    }

    // Whether a name is one of these.
    pub(crate) fn contains(&self, name: &Name) -> bool
        ensures { result ≡ list_any (bytes_eq name.now) self.now }
    {
        self.items.contains(name.as_str())
    }

    // Adds a name. If it is already one of them they stay the same.
    //
    // # Errors
    //
    // Returns `AllocError` if an allocation fails.
    pub(crate) fn add(&mut self, name: &'a Name) -> Result<(), AllocError>
        ensures { OnOk result ((q : List ℕ) → list_any (bytes_eq q) self.new ≡ list_any (bytes_eq q) (self.old ++ name.now ∷ [])) }
    {
        match self.items.insert(name.as_str()) {
            Ok(_) => Ok(()),
            Err(_) => Err(AllocError),
        }
    }
}

// The distinct names that a module declares, in the order of the file, each with its declaration.
//
// A contract sees the list of pairs of a name's bytes and its declaration.
pub(crate) struct Table<'a> {
    items: IndexMap<&'a str, Declared<'a>>,
}

impl Drop for Table<'_> {
    fn drop(self) {
        let Self { items } = self;
        drop(items);
    }
}

impl<'a> Model for Table<'a> {
    ghost use Rattle.std.specs.Prelude.{ℕ, List, map};
    ghost use Rattle.gg_shape_names.specs.declared.table.Declared.{Declared as Kinds};

    ghost Value = { List (List ℕ × Kinds) };

    ghost view = { λ table. map (λ entry. (entry.0.now, entry.1)) table.items.entries };
}

impl<'a> Table<'a> {
    // A table without names.
    pub(crate) fn new(alloc: Global) -> Table<'a>
        ensures { result ≡ [] }
    {
        Table {
            items: IndexMap::new(alloc),
        }
    }

    // How many names are declared.
    pub(crate) fn len(&self) -> usize
        ensures { result ≡ length self.now }
    {
        self.items.len()
    }

    // Whether a name is declared.
    pub(crate) fn has(&self, name: &Name) -> bool
        ensures { result ≡ list_any (bytes_eq name.now) (names_told self.now) }
    {
        self.items.contains_key(name.as_str())
    }

    // Declares a name that is not declared yet.
    //
    // # Errors
    //
    // Returns `AllocError` if an allocation fails. The table then stays as it was.
    pub(crate) fn declare(&mut self, name: &'a Name, kind: Declared<'a>) -> Result<(), AllocError>
        requires { list_any (bytes_eq name.now) (names_told self.old) ≡ false }
        ensures names { OnOk result (self.new ≡ self.old ++ (name.now, kind.entry) ∷ []) }
        ensures err { OnErr result (self.new ≡ self.old) }
    {
        match self.items.insert(name.as_str(), kind) {
            Ok(_) => Ok(()),
            Err(_) => Err(AllocError),
        }
    }

    // The place of a name, counted from 0.
    pub(crate) fn place(&self, name: &Name) -> Option<usize>
        ensures place { result ≡ place_of name.now (names_told self.now) }
        ensures within { IfSome result (λ place. place < length self.now) }
    {
        self.items.get_index_of(name.as_str())
    }

    // The declaration of a name.
    pub(crate) fn get(&self, name: &Name) -> Option<&Declared<'a>>
        ensures { option_copied result ≡ find_word name.now self.now }
    {
        self.items.get(name.as_str())
    }
}

// The role of the declared name itself.
pub(crate) fn own_role(declared: &Declared) -> Role
    ensures { result ≡ role_told declared.now }
{
    match declared {
        Declared::Plain(role) => *role,
        Declared::Instance(_) => Role::Instance,
        Declared::Memory(_, _) => Role::Memory,
    }
}
