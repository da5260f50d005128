//! Looking a reference up among the names of a module.
ghost use Rattle.std.specs.Prelude.{◌≡◌, Some};
ghost use Rattle.std.specs.Option.{option_map};
ghost use Rattle.gg_types.specs.Owned.{known_entry};
ghost use Rattle.gg_types_rules.specs.inside.Known.{roles_seen, traced_seen, owned_seen};

use crate::known::Known;
use gg_ast::Reference;
use gg_bits::Name;
use gg_types::{Sort, sort_of_name};

impl<'b, 'a> Known<'b, 'a> {
    // The type of what a reference names, if the type data of its first name is known.
    pub(crate) fn sort(&self, reference: &Reference) -> Option<Sort>
        ensures { option_map (λ s. Some s) result ≡ known_entry (roles_seen self.now) (owned_seen self.now) reference.now }
    {
        sort_of_name(self.names, self.number, self.own.as_slice(), reference)
    }

    // Whether a name leads to an input port.
    pub(crate) fn is_traced(&self, name: &Name) -> bool
        ensures { result ≡ traced_seen self.now name.now }
    {
        match self.names.place(self.number, name) {
            Some(place) if place < self.traced.len() => self.traced[place],
            Some(_) | None => false,
        }
    }
}
