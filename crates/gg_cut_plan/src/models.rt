//! `Models`: flat circuits by their names.
ghost use Rattle.std.specs.Prelude.{◌≡◌, ◌≢◌, ◌↔◌, [], ◌∷◌, ◌++◌, length, OnOk, OnErr, IfSome, IfNone, Some, Err, slice_get, option_copied, AllPairs, Contains};
ghost use Rattle.gg_bits.specs.declared.paths.AddError.TheVariants.{Doubled};
ghost use Rattle.gg_cut_plan.specs.Models.{model_names, model_circuits};

use gg_bits::{AddError, Name};
use gg_flat::Piece;
use indexmap::IndexMap;
use std::alloc::Global;
use std::marker::Model;

/// Named models: flat circuits that say how something outside of a circuit behaves. No two have the same name. A
/// contract sees them in the order of the calls of `add`, each as a pair: its name, as bytes, and its `FlatCircuit`.
pub struct Models {
    pieces: IndexMap<Name, Piece>,
}

impl Drop for Models {
    fn drop(self) {
        let Self { pieces } = self;
        drop(pieces);
    }
}

impl Model for Models {
    ghost use Rattle.std.specs.Prelude.{List, ℕ};
    ghost use Rattle.gg_flat.specs.Circuit.{FlatCircuit};

    ghost Value = { List (List ℕ × FlatCircuit) };

    ghost view = { λ models. models.pieces.entries };
}

impl Models {
    /// No models.
    pub fn new(alloc: Global) -> Models
        ensures { result ≡ [] }
    {
        Models {
            pieces: IndexMap::new(alloc),
        }
    }

    /// How many models there are.
    pub fn len(&self) -> usize
        ensures count { result ≡ length self.now }
        ensures distinct { AllPairs (λ a b. a ≢ b) (model_names self.now) }
    {
        self.pieces.len()
    }

    /// The place of the model with this name, if there is one.
    pub fn find(&self, name: &Name) -> Option<usize>
        ensures found { IfSome result (λ place. slice_get (model_names self.now) place ≡ Some name.now) }
        ensures missing { IfNone result (¬ Contains (model_names self.now) name.now) }
    {
        self.pieces.get_index_of(name)
    }

    /// The name of the model at this place; none past the end.
    pub fn name(&self, place: usize) -> Option<&Name>
        ensures { option_copied result ≡ slice_get (model_names self.now) place }
    {
        match self.pieces.get_index(place) {
            Some((name, _)) => Some(name),
            None => None,
        }
    }

    /// The flat circuit of the model at this place; none past the end.
    pub fn piece(&self, place: usize) -> Option<&Piece>
        ensures { option_copied result ≡ slice_get (model_circuits self.now) place }
    {
        match self.pieces.get_index(place) {
            Some((_, piece)) => Some(piece),
            None => None,
        }
    }

    /// Adds a model, as the last.
    ///
    /// # Errors
    ///
    /// Returns `Doubled` if a model has that name. Returns `NoMemory` if an allocation fails. The models then stay as
    /// they were.
    pub fn add(&mut self, name: Name, piece: Piece) -> Result<(), AddError>
        ensures ok { OnOk result (self.new ≡ self.old ++ (name, piece) ∷ []) }
        ensures fresh { OnOk result (¬ Contains (model_names self.old) name) }
        ensures doubled { (result ≡ Err Doubled) ↔ Contains (model_names self.old) name }
        ensures err { OnErr result (self.new ≡ self.old) }
    {
        if self.pieces.contains_key(&name) {
            return Err(AddError::Doubled);
        }
        match self.pieces.insert(name, piece) {
            Ok(_) => Ok(()),
            Err(_) => Err(AddError::NoMemory),
        }
    }
}
