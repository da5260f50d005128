//! `Paths`: the paths of signals, instances or memories, no two of them equal.
ghost use Rattle.std.specs.Prelude.{◌≡◌, ◌≢◌, ◌<◌, ◌≤◌, ◌↔◌, ◌^◌, ◌-◌, [], ◌∷◌, ◌++◌, length, OnOk, OnErr, IfSome, IfNone, Some, None, Ok, Err, slice_get, option_copied, AllPairs, Contains};
ghost use Rattle.gg_bits.specs.declared.paths.AddError.TheVariants.{Doubled, NoMemory};

use crate::name::Name;
use indexmap::IndexSet;
use std::alloc::{AllocError, Global};
use std::error::Error;
use std::fmt;
use std::marker::Model;

/// Why a signal, an instance, a memory or a model was not added.
#[derive(Clone, Copy, Debug, PartialEq, Eq)]
pub enum AddError {
    /// The path is taken: by another signal if a signal was to be added, and likewise for an instance and a memory. For
    /// a model, its name is taken.
    Doubled,
    /// An allocation failed.
    NoMemory,
}

impl fmt::Display for AddError {
    ghost use Rattle.std.specs.Prelude.{Some};
    ghost use Rattle.gg_bits.specs.inside.AddErrorText.{error_text};

    ghost output = { λ error. Some (error_text error) };

    fn fmt<W: fmt::Write>(&self, f: &mut fmt::Formatter<W>) -> fmt::Result {
        match self {
            AddError::Doubled => f.write_str("the path is there already"),
            AddError::NoMemory => f.write_str("out of memory"),
        }
    }
}

impl Error for AddError {}

/// The paths of signals, of instances or of memories, in their order, no two of them equal. A contract sees the list of
/// their bytes.
///
/// There are fewer than 4,294,967,296 of them, so a `u32` can number them.
pub struct Paths {
    names: IndexSet<Name>,
}

impl Drop for Paths {
    fn drop(self) {
        let Self { names } = self;
        drop(names);
    }
}

impl Model for Paths {
    ghost use Rattle.std.specs.Prelude.{List, ℕ, ◌<◌, ◌^◌, length, nat_eq};
    ghost use Rattle.std.specs.List.{IsDistinct};
    ghost use Rattle.std.specs.Cmp.Lexicographic.{pointwise};

    ghost Value = { List (List ℕ) };

    ghost view = { λ paths. paths.names.keys };

    ghost invariant = { λ paths. (length paths.names.keys < 2 ^ 32) × IsDistinct (pointwise nat_eq) paths.names.keys };
}

impl Clone for Paths {
    ghost is_clone = { λ paths copy. copy ≡ paths };

    fn clone(&self) -> Result<Paths, AllocError> {
        Ok(Paths {
            names: self.names.clone()?,
        })
    }
}

impl Paths {
    /// No paths.
    pub fn new(alloc: Global) -> Paths
        ensures { result ≡ [] }
    {
        Paths {
            names: IndexSet::new(alloc),
        }
    }

    /// How many paths there are.
    pub fn len(&self) -> usize
        ensures count { result ≡ length self.now }
        ensures few { length self.now < 2 ^ 32 }
        ensures distinct { AllPairs (λ a b. a ≢ b) self.now }
    {
        self.names.len()
    }

    /// The number of a path, if it is one of these.
    pub fn find(&self, path: &Name) -> Option<u32>
        ensures found { IfSome result (λ number. slice_get self.now number ≡ Some path.now) }
        ensures missing { IfNone result (¬ Contains self.now path.now) }
    {
        match self.names.get_index_of(path) {
            Some(number) => Some(number as u32),
            None => None,
        }
    }

    /// The path with this number; none past the end.
    pub fn get(&self, number: u32) -> Option<&Name>
        ensures { option_copied result ≡ slice_get self.now number }
    {
        self.names.get_index(number as usize)
    }

    /// Adds a path at the end. There are at most 4,294,967,294 paths before.
    ///
    /// # Errors
    ///
    /// Returns `Doubled` if the path is one of these. Returns `NoMemory` if an allocation fails. The paths then stay as
    /// they were.
    pub fn add(&mut self, path: Name) -> Result<(), AddError>
        requires { length self.old < 2 ^ 32 - 1 }
        ensures ok { OnOk result (self.new ≡ self.old ++ path ∷ []) }
        ensures fresh { OnOk result (¬ Contains self.old path) }
        ensures doubled { (result ≡ Err Doubled) ↔ Contains self.old path }
        ensures err { OnErr result (self.new ≡ self.old) }
    {
        if self.names.contains(&path) {
            return Err(AddError::Doubled);
        }
        match self.names.insert(path) {
            Ok(_) => Ok(()),
            Err(_) => Err(AddError::NoMemory),
        }
    }
}
