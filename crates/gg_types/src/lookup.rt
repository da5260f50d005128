//! The types of what references name.
ghost use Rattle.std.specs.Prelude.{◌≡◌, ◌<◌, Some, length};
ghost use Rattle.std.specs.Option.{option_map};
ghost use Rattle.gg_shape_names.specs.Modules.{module_at};
ghost use Rattle.gg_shape_names.specs.inside.Namespace.{names_in};
ghost use Rattle.gg_shape_names.specs.Namespace.{scope_of};
ghost use Rattle.gg_types.specs.inside.Named.{owned};
ghost use Rattle.gg_bits.specs.Lists.{find_word};
ghost use Rattle.gg_types.specs.Owned.{known_entry, typed_by, single, field_of};

use crate::sort::{Own, Sort, field_sort, sort_of};
use gg_ast::Reference;
use gg_bits::Name;
use gg_shape_names::{Namespace, PortField, Role, first_name};

/// The type of what a reference names in a module, given the type data of the first of its declared names. None if it names
/// nothing that has a type there.
pub fn sort_of_name(
    names: &Namespace,
    number: u32,
    own: &[Own],
    reference: &Reference,
) -> Option<Sort>
    requires there { number < length names.now.modules }
    ensures { option_map (λ s. Some s) result ≡ known_entry (scope_of names.now.modules (module_at names.now.modules number))
        (owned (names_in (module_at names.now.modules number)) own.now) reference.now }
{
    let first = own_of(names, number, own, first_name(reference))?;
    let role = names.role(number, reference)?;
    typed_by(first, role)
}

// The type data of a declared name, if it is known.
fn own_of(names: &Namespace, number: u32, own: &[Own], name: &Name) -> Option<Own>
    requires there { number < length names.now.modules }
    ensures { option_map (λ o. Some o) result ≡ find_word name.now (owned (names_in (module_at names.now.modules number)) own.now) }
{
    let place = names.place(number, name)?;
    if place < own.len() {
        Some(own[place])
    } else {
        None
    }
}

// The type of what has this role, given the type data of the first name of its reference.
fn typed_by(own: Own, role: Role) -> Option<Sort>
    ensures { result ≡ typed_by own role }
{
    match role {
        Role::InputPort | Role::OutputPort | Role::Wire | Role::Register | Role::Node => {
            single(own)
        }
        Role::Instance | Role::Memory => None,
        Role::InstanceInput(ty) | Role::InstanceOutput(ty) => Some(sort_of(ty)),
        Role::MemoryPort(_, field) => field_of(own, field),
    }
}

// The type in a name's type data.
fn single(own: Own) -> Option<Sort>
    ensures { result ≡ single own }
{
    match own {
        Own::Single(sort) => Some(sort),
        Own::Instance | Own::Memory(_, _) => None,
    }
}

// The type of a field of a memory's ports.
fn field_of(own: Own, field: PortField) -> Option<Sort>
    ensures { result ≡ field_of own field }
{
    match own {
        Own::Memory(word, depth) => field_sort(word, depth, field),
        Own::Single(_) | Own::Instance => None,
    }
}
