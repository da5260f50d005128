//! `Namespace`: all names of a circuit.
ghost use Rattle.std.specs.Prelude.{◌≡◌, ◌<◌, ◌+◌, ◌^◌, ◌++◌, [], ◌∷◌, ℕ, List, IfOk, length, take};
ghost use Rattle.gg_ast.specs.inside.Names.{AreNamesOfCircuit};
ghost use Rattle.std.specs.List.{list_any};
ghost use Rattle.std.specs.Str.{bytes_eq};
ghost use Rattle.gg_ast.specs.Places.{place_of};
ghost use Rattle.gg_ast.specs.Tree.{names_of};
ghost use Rattle.gg_ast.specs.declared.statement.Stmt.{Stmt as Statement};
ghost use Rattle.gg_shape_names.specs.Modules.{module_at};
ghost use Rattle.gg_shape_names.specs.inside.Namespace.{IsMeaningBefore, names_in};
ghost use Rattle.gg_shape_names.specs.Namespace.{scope_of, meaning_of};
ghost use Rattle.gg_shape_names.specs.inside.Repetitions.{Tells};
ghost use Rattle.gg_shape_names.specs.Repetitions.{repetitions, repeated_in};
ghost use Rattle.gg_shape_names.specs.inside.Tables.{AreTold};

use crate::fault::{NamesFault, Repetition};
use crate::find::{role_before_in, role_in};
use crate::module::module_table;
use crate::role::Role;
use crate::table::Table;
use gg_ast::{Circuit, Module, Reference};
use gg_bits::Name;
use std::alloc::{AllocError, Global};
use std::marker::Model;

/// The names of a circuit without repeated names. It borrows the circuit, and its model is the circuit's tree:
/// contracts define a module's names by that tree.
///
/// Modules are identified by their places, counted from 0; there are fewer than 4,294,967,296.
pub struct Namespace<'a> {
    circuit: &'a Circuit,
    // What each module declares.
    tables: Vec<Table<'a>>,
}

impl Drop for Namespace<'_> {
    fn drop(self) {
        let Self { circuit: _, tables } = self;
        drop(tables);
    }
}

impl<'a> Model for Namespace<'a> {
    ghost use Rattle.gg_ast.specs.Tree.{CircuitTree};
    ghost use Rattle.gg_ast.specs.contracts.expression.Expr as expression;
    ghost use Rattle.std.specs.Coded.{codes};

    ghost Value = { CircuitTree };

    ghost coded = { Prim.hlevel (codes, expression.the_row.coded) };

    ghost use Rattle.gg_shape_names.specs.inside.Tables.{AreTables};

    ghost view = { λ names. names.circuit.now };

    ghost invariant = { λ names. AreTables names.circuit.now names.tables.items };
}

impl<'a> Namespace<'a> {
    /// The names of a circuit.
    ///
    /// # Errors
    ///
    /// Returns `Repeated` with the first name that comes twice, exactly if one does. Returns `NoMemory` if an
    /// allocation fails or the circuit has 4,294,967,296 modules or more.
    pub fn of(alloc: Global, circuit: &'a Circuit) -> Result<Namespace<'a>, NamesFault>
        ensures tells { Tells (repetitions circuit.now) result }
        ensures names { IfOk result (λ names. names ≡ circuit.now) }
    {
        if circuit.modules().len() > u32::MAX as usize {
            return Err(NamesFault::NoMemory);
        }
        let tables = tables_of(alloc, circuit)?;
        Ok(Namespace { circuit, tables })
    }

    /// The circuit. No name comes twice in it.
    pub fn circuit(&self) -> &'a Circuit
        ensures circuit { result.now ≡ self.now }
        ensures once { repetitions self.now ≡ [] }
        ensures few { length self.now.modules < 2 ^ 32 }
    {
        self.circuit
    }

    /// The place of the first module of that name. None if no module has it.
    pub fn place_of_module(&self, name: &Name) -> Option<u32>
        ensures { result ≡ place_of name.now (names_of self.now.modules) }
    {
        self.circuit.module(name.as_str())
    }

    /// How many names a module declares.
    pub fn len(&self, number: u32) -> usize
        requires { number < length self.now.modules }
        ensures { result ≡ length (names_in (module_at self.now.modules number)) }
    {
        self.tables[number as usize].len()
    }

    /// The place of a name among the names that a module declares, in the order of the file, counted from 0. None if
    /// the module doesn't declare it.
    pub fn place(&self, number: u32, name: &Name) -> Option<usize>
        requires { number < length self.now.modules }
        ensures { result ≡ place_of name.now (names_in (module_at self.now.modules number)) }
    {
        self.tables[number as usize].place(name)
    }

    /// What a reference in a module names. None if it names nothing.
    pub fn role(&self, number: u32, reference: &Reference) -> Option<Role>
        requires { number < length self.now.modules }
        ensures { result ≡ meaning_of (scope_of self.now.modules (module_at self.now.modules number)) reference.now }
    {
        role_in(
            self.circuit.modules(),
            self.tables.as_slice(),
            number,
            reference,
        )
    }

    /// What a reference names if only the first `count` names of the module are declared. None if it then names nothing.
    pub fn role_before(&self, number: u32, count: usize, reference: &Reference) -> Option<Role>
        requires { number < length self.now.modules }
        ensures { IsMeaningBefore self.now.modules (module_at self.now.modules number) count reference.now result }
    {
        role_before_in(
            self.circuit.modules(),
            self.tables.as_slice(),
            number,
            count,
            reference,
        )
    }
}

// The tables of all modules; fails at the first name that comes twice.
fn tables_of<'a>(alloc: Global, circuit: &'a Circuit) -> Result<Vec<Table<'a>>, NamesFault>
    requires few { length circuit.now.modules < 2 ^ 32 }
    ensures tells { Tells (repetitions circuit.now) result }
    ensures tables { IfOk result (λ tables. AreTold circuit.now.modules (length circuit.now.modules) tables.items) }
{
    let mut tables = Vec::new(alloc);
    for module in circuit.modules() {
        module_is_new(circuit, tables.len(), module)?;
        let table = module_table(alloc, circuit, module)?;
        if let Err(refused) = tables.push(table) {
            return Err(AllocError::from(refused).into());
        }
    }
    Ok(tables)
}

// Fails if an earlier module has the name of the module at this place.
fn module_is_new(circuit: &Circuit, place: usize, this: &Module) -> Result<(), NamesFault>
    requires few { length circuit.now.modules < 2 ^ 32 }
    requires within { place < length circuit.now.modules }
    ensures { Tells (repeated_in (names_of (take place circuit.now.modules)) this.now.line this.now.name) result }
{
    if has_earlier(circuit, place, this.name()) {
        return Err(NamesFault::Repeated(Repetition {
            line: this.line(),
            name: this.name().clone()?,
        }));
    }
    Ok(())
}

// Whether a module before this place has that name.
fn has_earlier(circuit: &Circuit, place: usize, name: &Name) -> bool
    requires { length circuit.now.modules < 2 ^ 32 }
    ensures { result ≡ list_any (bytes_eq name.now) (names_of (take place circuit.now.modules)) }
{
    match circuit.module(name.as_str()) {
        Some(first) => (first as usize) < place,
        None => false,
    }
}
