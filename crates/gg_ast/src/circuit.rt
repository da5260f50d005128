//! The circuit and its table of modules.
ghost use Rattle.std.specs.Prelude.{◌≡◌, ◌≢◌, ℕ, ◌+◌, ◌<◌, ◌≤◌, ◌^◌, [], ◌∷◌, ◌++◌, length, is_ok, if◌then◌else◌, OnOk, OnErr, List, IfSome, IfNone};
ghost use Rattle.gg_ast.specs.inside.Tree.{empty_circuit, add_module, add_port, add_statement, add_field, IsMemory, IsOpenToPorts, IsOpenToFields};
ghost use Rattle.gg_ast.specs.Tree.{empty_module, module_names};
ghost use Rattle.gg_ast.specs.Names.{IsName};
ghost use Rattle.gg_ast.specs.inside.Names.{IsPortNamed, AreNamesOfField, AreNamesOfStatement, AreNamesOfCircuit};
ghost use Rattle.gg_ast.specs.Places.{place_of};
ghost use Rattle.gg_ast.specs.inside.Places.{IsFirstOf, Lacks, TellsPlaces};
ghost use Rattle.gg_ast.specs.Row.{numbered, CircuitRow, ModuleRow};
ghost use Rattle.gg_ast.specs.Rows.{rows_of, port_row, field_row, statement_rows};

use crate::module::{Module, Port};
use crate::statement::{Field, Stmt};
use gg_bits::Name;
use indexmap::IndexMap;
use std::alloc::{AllocError, Global};
use std::marker::Model;

/// A circuit: its name and its modules in the order of the file. A contract sees it as a `CircuitTree`.
///
/// It is built row by row, beginning with the header. If an allocation fails in a call that adds something, the circuit
/// stays as it was.
pub struct Circuit {
    line: u64,
    name: Name,
    modules: Vec<Module>,
    // Each name of a module, and the place of the first module that has it.
    places: IndexMap<String, usize>,
}

impl Drop for Circuit {
    fn drop(self) {
        let Self {
            line: _,
            name,
            modules,
            places,
        } = self;
        drop(name);
        drop(modules);
        drop(places);
    }
}

impl Model for Circuit {
    ghost use Rattle.std.specs.Prelude.{ℕ};
    ghost use Rattle.gg_ast.specs.Tree.{CircuitTree, names_of};
    ghost use Rattle.gg_ast.specs.inside.Places.{TellsPlaces};
    ghost use Rattle.gg_ast.specs.inside.Names.{AreNamesOfCircuit};
    ghost use Rattle.gg_ast.specs.contracts.expression.Expr as expression;
    ghost use Rattle.std.specs.Coded.{codes};

    ghost Value = { CircuitTree };

    ghost coded = { Prim.hlevel (codes, expression.the_row.coded) };

    ghost view = { λ c. record { line = c.line; name = c.name; modules = c.modules.items } };

    ghost invariant = { λ c. AreNamesOfCircuit (record { line = c.line; name = c.name; modules = c.modules.items }) × TellsPlaces (names_of c.modules.items) c.places };
}

impl Circuit {
    /// A circuit without modules. Its header is on this line, counted from 1: that is its only row.
    pub fn new(alloc: Global, line: u64, name: Name) -> Circuit
        requires named { IsName name }
        ensures value { result ≡ empty_circuit line name }
        ensures rows { rows_of result ≡ numbered line (CircuitRow name) ∷ [] }
    {
        Circuit {
            line,
            name,
            modules: Vec::new(alloc),
            places: IndexMap::new(alloc),
        }
    }

    /// The line of the circuit's header, counted from 1.
    pub fn line(&self) -> u64
        ensures { result ≡ self.now.line }
    {
        self.line
    }

    /// The circuit's name.
    pub fn name(&self) -> &Name
        ensures { result.now ≡ self.now.name }
    {
        &self.name
    }

    /// The modules, in order.
    pub fn modules(&self) -> &[Module]
        ensures { result.now ≡ self.now.modules }
    {
        self.modules.as_slice()
    }

    /// Does nothing. Its contract states that each name in a circuit is a letter or `_`, and then letters, digits, `_`
    /// and `$`. Therefore a name has no dot and no dash.
    pub fn names_are_words(&self)
        ensures { AreNamesOfCircuit self.now }
    {
        // for the invariant only
        let _ = &self.line;
    }

    /// The place of the first module of that name, or none exactly if no module has it.
    pub fn module(&self, name: &str) -> Option<u32>
        requires { length self.now.modules ≤ 2 ^ 32 }
        ensures value { result ≡ place_of name.now (module_names self.now) }
        ensures found { IfSome result (IsFirstOf (module_names self.now) name.now) }
        ensures missing { IfNone result (Lacks (module_names self.now) name.now) }
    {
        match self.places.get(name) {
            Some(place) => Some(*place as u32),
            None => None,
        }
    }

    /// Adds a module without ports and statements as the last. It begins on this line, counted from 1.
    ///
    /// The circuit then has one row more, the module's, and a port may follow (`IsOpenToPorts`).
    ///
    /// # Errors
    ///
    /// Returns `AllocError` if an allocation fails. The circuit then stays as it was.
    pub fn push_module(&mut self, alloc: Global, line: u64, name: Name) -> Result<(), AllocError>
        requires named { IsName name }
        ensures value { self.new ≡ (if is_ok result then add_module self.old (empty_module line name) else self.old) }
        ensures rows { OnOk result (rows_of self.new ≡ rows_of self.old ++ numbered line (ModuleRow name) ∷ []) }
        ensures ports { OnOk result (IsOpenToPorts self.new.modules) }
        ensures some { OnOk result (0 < length self.new.modules) }
    {
        self.modules.reserve(1)?;
        note_place(&mut self.places, alloc, name.as_str(), self.modules.len())?;
        self.modules.push_reserved(Module::new(alloc, line, name));
        Ok(())
    }

    /// Adds a port to the last module, as its last. There has to be a module.
    ///
    /// If that module has no statement yet, the circuit then has one row more, the port's. If it has one, the port
    /// still joins the module's ports, and its row is not the last.
    ///
    /// # Errors
    ///
    /// Returns `AllocError` if an allocation fails. The circuit then stays as it was.
    pub fn push_port(&mut self, port: Port) -> Result<(), AllocError>
        requires some { 0 < length self.old.modules }
        requires named { IsPortNamed port }
        ensures value { self.new ≡ (if is_ok result then add_port self.old port else self.old) }
        ensures rows { IsOpenToPorts self.old.modules → OnOk result (rows_of self.new ≡ rows_of self.old ++ port_row port ∷ []) }
        ensures ports { IsOpenToPorts self.old.modules → IsOpenToPorts self.new.modules }
        ensures some { length self.new.modules ≡ length self.old.modules }
    {
        let last = self.modules.len() - 1;
        self.modules[last].push_port(port)
    }

    /// Adds a statement to the last module, as its last. There has to be a module.
    ///
    /// The circuit then has the rows of that statement too: one, or several for a memory and for a register with its
    /// reset on the next line (`statement_rows`). After a memory a field may follow (`IsOpenToFields`).
    ///
    /// # Errors
    ///
    /// Returns `AllocError` if an allocation fails. The circuit then stays as it was.
    pub fn push_statement(&mut self, statement: Stmt) -> Result<(), AllocError>
        requires some { 0 < length self.old.modules }
        requires named { AreNamesOfStatement statement }
        ensures value { self.new ≡ (if is_ok result then add_statement self.old statement else self.old) }
        ensures rows { OnOk result (rows_of self.new ≡ rows_of self.old ++ statement_rows statement) }
        ensures fields { IsMemory statement.kind → OnOk result (IsOpenToFields self.new.modules) }
        ensures some { length self.new.modules ≡ length self.old.modules }
    {
        let last = self.modules.len() - 1;
        self.modules[last].push_statement(statement)
    }

    /// Adds a field to the last statement, which has to be a memory, as its last. The circuit then has one row more,
    /// the field's, and another may follow.
    ///
    /// # Errors
    ///
    /// Returns `AllocError` if an allocation fails. The circuit then stays as it was.
    pub fn push_field(&mut self, field: Field) -> Result<(), AllocError>
        requires open { IsOpenToFields self.old.modules }
        requires named { AreNamesOfField field }
        ensures value { self.new ≡ (if is_ok result then add_field self.old field else self.old) }
        ensures rows { OnOk result (rows_of self.new ≡ rows_of self.old ++ field_row field ∷ []) }
        ensures fields { IsOpenToFields self.new.modules }
        ensures some { length self.new.modules ≡ length self.old.modules }
    {
        let last = self.modules.len() - 1;
        self.modules[last].push_field(field)
    }
}

// Records this place of a list as the name's, unless the name has an earlier one.
fn note_place(
    places: &mut IndexMap<String, usize>,
    alloc: Global,
    name: &str,
    place: usize,
) -> Result<(), AllocError>
    ensures ok { OnOk result ((names : List (List ℕ)) → TellsPlaces names places.old → place ≡ length names → TellsPlaces (names ++ name.now ∷ []) places.new) }
    ensures err { OnErr result ((names : List (List ℕ)) → TellsPlaces names places.old → TellsPlaces names places.new) }
{
    if places.contains_key(name) {
        return Ok(());
    }
    let key = String::from_str(alloc, name)?;
    places.insert(key, place)?;
    Ok(())
}
