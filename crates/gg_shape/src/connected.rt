//! `Connected`: what is connected in a module.
ghost use Rattle.std.specs.Prelude.{◌≡◌, [], ◌∷◌, ◌++◌, IfOk, OnOk};
ghost use Rattle.gg_ast.specs.declared.expression.Reference.{Reference as References};
ghost use Rattle.gg_shape_names.specs.Scope.{written};
ghost use Rattle.gg_shape.specs.inside.Told.{reference_of, is_among};

use gg_ast::Reference;
use gg_bits::Name;
use indexmap::IndexSet;
use std::alloc::{AllocError, Global};
use std::marker::Model;

// The names of a reference.
#[derive(Clone, Copy, PartialEq, Eq, Hash)]
pub(crate) enum Key<'a> {
    // `x`.
    Local(&'a str),
    // `i.p`.
    PortOf(&'a str, &'a str),
    // `m.r.f`.
    FieldOf(&'a str, &'a str, &'a str),
}

// The names of this reference.
pub(crate) fn key_of(reference: &Reference) -> Key
    ensures { reference_of result ≡ reference.now }
{
    match reference {
        Reference::Local(a) => Key::Local(a.as_str()),
        Reference::PortOf(a, b) => Key::PortOf(a.as_str(), b.as_str()),
        Reference::FieldOf(a, b, c) => Key::FieldOf(a.as_str(), b.as_str(), c.as_str()),
    }
}

// The text of the reference: its names with dots between them.
//
// # Errors
//
// Returns `AllocError` if an allocation fails.
pub(crate) fn text_of(alloc: Global, key: Key) -> Result<Name, AllocError>
    ensures { IfOk result (λ name. name ≡ written (reference_of key.entry)) }
{
    match key {
        Key::Local(a) => Name::from_str(alloc, a),
        Key::PortOf(a, b) => {
            let mut text = String::from_str(alloc, a)?;
            text.push_str(".")?;
            text.push_str(b)?;
            Ok(Name::from(text))
        }
        Key::FieldOf(a, b, c) => {
            let mut text = String::from_str(alloc, a)?;
            text.push_str(".")?;
            text.push_str(b)?;
            text.push_str(".")?;
            text.push_str(c)?;
            Ok(Name::from(text))
        }
    }
}

// A set of references. A contract sees their list.
pub(crate) struct Connected<'a> {
    keys: IndexSet<Key<'a>>,
}

impl Drop for Connected<'_> {
    fn drop(self) {
        let Self { keys } = self;
        drop(keys);
    }
}

impl<'a> Model for Connected<'a> {
    ghost use Rattle.std.specs.Prelude.{List, map};
    ghost use Rattle.gg_ast.specs.declared.expression.Reference.{Reference as References};
    ghost use Rattle.gg_shape.specs.declared.connected.Key.{Key as Keys};

    ghost Value = { List References };

    ghost use Rattle.gg_shape.specs.inside.Told.{reference_of};

    ghost view = { λ connected. map reference_of connected.keys.keys };
}

impl<'a> Connected<'a> {
    // No references.
    pub(crate) fn new(alloc: Global) -> Connected<'a>
        ensures { result ≡ [] }
    {
        Connected {
            keys: IndexSet::new(alloc),
        }
    }

    // Whether a reference is one of these.
    pub(crate) fn contains(&self, key: Key) -> bool
        ensures { result ≡ is_among self.now (reference_of key.entry) }
    {
        self.keys.contains(&key)
    }

    // Adds a reference. If it is already one of them they stay the same.
    //
    // # Errors
    //
    // Returns `AllocError` if an allocation fails.
    pub(crate) fn add(&mut self, key: Key<'a>) -> Result<(), AllocError>
        ensures { OnOk result ((r : References) → is_among self.new r ≡ is_among (self.old ++ reference_of key.entry ∷ []) r) }
    {
        match self.keys.insert(key) {
            Ok(_) => Ok(()),
            Err(_) => Err(AllocError),
        }
    }
}
