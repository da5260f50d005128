//! What references name, found in the tables.
ghost use Rattle.std.specs.Prelude.{◌≡◌, ◌<◌, List, ℕ, length, take, slice_get, option_map};
ghost use Rattle.gg_ast.specs.declared.expression.Reference.TheVariants.{PortOf as APort, FieldOf as AField};
ghost use Rattle.gg_ast.specs.Tree.{ModuleTree};
ghost use Rattle.gg_shape_names.specs.Modules.{module_at};
ghost use Rattle.gg_shape_names.specs.inside.Namespace.{IsMeaningBefore, names_in};
ghost use Rattle.gg_shape_names.specs.Namespace.{scope_of, meaning_of, role_of_instance_port};
ghost use Rattle.gg_shape_names.specs.inside.Tables.{AreTold, IsPlaced, names_told, role_of_port_named, through};

use crate::memory::field_role;
use crate::reference::first_name;
use crate::role::{Role, instance_port_role};
use crate::table::{Declared, Table, own_role};
use gg_ast::{Module, Port, Reference};
use gg_bits::Name;

// What a reference in the module at this place names.
pub(crate) fn role_in(
    modules: &[Module],
    tables: &[Table],
    number: u32,
    reference: &Reference,
) -> Option<Role>
    requires tables { AreTold modules.now (length modules.now) tables.now }
    requires within { number < length modules.now }
    ensures { result ≡ meaning_of (scope_of modules.now (module_at modules.now number)) reference.now }
{
    match tables[number as usize].get(first_name(reference)) {
        Some(declared) => role_through(modules, tables, declared, reference),
        None => None,
    }
}

// What a reference names if only the first `count` names of the module are declared.
pub(crate) fn role_before_in(
    modules: &[Module],
    tables: &[Table],
    number: u32,
    count: usize,
    reference: &Reference,
) -> Option<Role>
    requires tables { AreTold modules.now (length modules.now) tables.now }
    requires within { number < length modules.now }
    ensures { IsMeaningBefore modules.now (module_at modules.now number) count reference.now result }
{
    match tables[number as usize].place(first_name(reference)) {
        Some(place) => {
            if place < count {
                role_in(modules, tables, number, reference)
            } else {
                None
            }
        }
        None => None,
    }
}

// What a reference names if its first name has this declaration.
fn role_through(
    modules: &[Module],
    tables: &[Table],
    declared: &Declared,
    reference: &Reference,
) -> Option<Role>
    requires tables { AreTold modules.now (length modules.now) tables.now }
    requires placed { IsPlaced modules.now declared.now }
    ensures { result ≡ through modules.now declared.now reference.now }
{
    match reference {
        Reference::Local(_) => Some(own_role(declared)),
        Reference::PortOf(_, port) => port_of(modules, tables, declared, port),
        Reference::FieldOf(_, port, field) => field_of(declared, port, field),
    }
}

// The role of a port of this declaration, if it is an instance of a module that exists.
fn port_of(modules: &[Module], tables: &[Table], declared: &Declared, port: &Name) -> Option<Role>
    requires tables { AreTold modules.now (length modules.now) tables.now }
    requires placed { IsPlaced modules.now declared.now }
    ensures { (instance : List ℕ) → result ≡ through modules.now declared.now (APort instance port.now) }
{
    match declared {
        Declared::Instance(Some(place)) => {
            let place = *place as usize;
            port_in(&modules[place], &tables[place], port)
        }
        Declared::Plain(_) | Declared::Instance(None) | Declared::Memory(_, _) => None,
    }
}

// The role of a port of this module, seen from the modules that have instances of it.
fn port_in(this: &Module, table: &Table, port: &Name) -> Option<Role>
    requires { names_told table.now ≡ names_in this.now }
    ensures { result ≡ role_of_port_named port.now this.now.ports }
{
    match table.place(port) {
        Some(place) => role_at(this.ports(), place),
        None => None,
    }
}

// The role of the port at this place, or none after the last.
fn role_at(ports: &[Port], place: usize) -> Option<Role>
    ensures { result ≡ option_map (λ port. role_of_instance_port port.direction port.ty) (slice_get ports.now place) }
{
    if place < ports.len() {
        let port = &ports[place];
        Some(instance_port_role(port.direction, port.ty))
    } else {
        None
    }
}

// The role of a field of a port of this declaration, if it is a memory.
fn field_of(declared: &Declared, port: &Name, field: &Name) -> Option<Role>
    ensures { (modules : List ModuleTree) (memory : List ℕ) → result ≡ through modules declared.now (AField memory port.now field.now) }
{
    match declared {
        Declared::Memory(readers, writers) => field_role(readers, writers, port, field),
        Declared::Plain(_) | Declared::Instance(_) => None,
    }
}
