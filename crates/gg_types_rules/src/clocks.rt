//! Where names lead through the drivers of wires and nodes: whether to an input port (F14), and which Clock input it
//! is.
ghost use Rattle.std.specs.Prelude.{◌≡◌, ◌<◌, ◌+◌, ◌*◌, ◌≤◌, ◌-◌, ◌%◌, ◌/◌, ◌++◌, ℕ, List, IfOk, IfSome, length, map, flat_map, option_copied, option_to_list, slice_index, Some, None, if◌then◌else◌};
ghost use Rattle.gg_ast.specs.Tree.{ModuleTree};
ghost use Rattle.gg_shape_names.specs.Modules.{module_at};
ghost use Rattle.gg_shape_names.specs.inside.Namespace.{names_in};
ghost use Rattle.gg_types.specs.Clocks.{bare as bare_name, driven_by, is_followed as leads_on, is_outside as comes_from_outside, leads, leads_to_input, way_of_port as port_way, ways_by, ways_of};
ghost use Rattle.gg_types.specs.inside.Named.{flagged};
ghost use Rattle.gg_types.specs.inside.Places.{ArePlaces, TellsNext, Reaches, next_at, place_in, with_driven, way_at};
ghost use Rattle.gg_types.specs.inside.Typed.{TellsClocks};

use crate::circuit::module_of;
use crate::inputs::{clock_numbers, numbers_reached};
use gg_ast::{Direction, Expr, ExprKind, Module, Port, Reference, Stmt, StmtKind};
use gg_bits::Name;
use gg_shape_names::Namespace;
use gg_types::Way;
use std::alloc::{AllocError, Global};
use std::marker::Model;

// The declared names of a module, each with where it gets a Clock from. A contract sees it as their list.
pub(crate) struct Ways<'b, 'a> {
    names: &'b Namespace<'a>,
    number: u32,
    ways: Vec<Way>,
}

impl Drop for Ways<'_, '_> {
    fn drop(self) {
        let Self {
            names: _,
            number: _,
            ways,
        } = self;
        drop(ways);
    }
}

impl<'b, 'a> Model for Ways<'b, 'a> {
    ghost use Rattle.std.specs.Prelude.{◌≡◌, ◌<◌, ℕ, List, length, map};
    ghost use Rattle.gg_shape_names.specs.Modules.{module_at};
    ghost use Rattle.gg_types.specs.declared.way.Way.{Way as Road};
    ghost use Rattle.gg_types.specs.Clocks.{ways_of};

    ghost Value = { List (List ℕ × Road) };

    ghost view = { λ w. ways_of (module_at w.names.now.modules w.number) };

    ghost invariant = { λ w. (w.number < length w.names.now.modules) × (w.ways.items ≡ map (λ (e : List ℕ × Road). e.1) (ways_of (module_at w.names.now.modules w.number))) };
}

impl<'b, 'a> Ways<'b, 'a> {
    // The ways of the names of the module at a place.
    fn of(alloc: Global, names: &'b Namespace<'a>, number: u32) -> Result<Ways<'b, 'a>, AllocError>
        requires { number < length names.now.modules }
        ensures { IfOk result (λ ways. ways ≡ ways_of (module_at names.now.modules number)) }
    {
        let ways = ways_in(alloc, module_of(names, number))?;
        Ok(Ways {
            names,
            number,
            ways,
        })
    }

    // How many names there are.
    fn len(&self) -> usize
        ensures { result ≡ length self.now }
    {
        self.ways.len()
    }

    // The place of a name.
    fn place(&self, name: &Name) -> Option<usize>
        ensures place { result ≡ place_in name.now self.now }
        ensures within { IfSome result (λ place. place < length self.now) }
    {
        self.names.place(self.number, name)
    }

    // The way of the name at a place.
    fn way_at(&self, place: usize) -> Option<Way>
        ensures { result ≡ way_at self.now place }
    {
        if place < self.ways.len() {
            Some(self.ways[place])
        } else {
            None
        }
    }
}

// The ways of what a module declares.
fn ways_in(alloc: Global, this: &Module) -> Result<Vec<Way>, AllocError>
    ensures { IfOk result (λ ways. ways.items ≡ map (λ w. w.1) (ways_of this.now)) }
{
    let mut ways = port_ways(alloc, this.ports())?;
    add_ways(&mut ways, this.statements())?;
    Ok(ways)
}

// The ways of ports.
fn port_ways(alloc: Global, ports: &[Port]) -> Result<Vec<Way>, AllocError>
    ensures { IfOk result (λ ways. ways.items ≡ map (λ p. port_way p.direction) ports.now) }
{
    let mut ways = Vec::new(alloc);
    for port in ports {
        ways.push(way_of_port(port.direction))?;
    }
    Ok(ways)
}

// The way of a port.
fn way_of_port(direction: Direction) -> Way
    ensures { result ≡ port_way direction }
{
    match direction {
        Direction::Input => Way::FromOutside,
        Direction::Output => Way::Nowhere,
    }
}

// Adds the ways of what statements declare.
fn add_ways(ways: &mut Vec<Way>, statements: &[Stmt]) -> Result<(), AllocError>
    ensures { IfOk result (λ _. ways.new.items ≡ ways.old.items ++ map (λ w. w.1) (flat_map (λ s. ways_by s.kind) statements.now)) }
{
    for statement in statements {
        add_way(ways, statement)?;
    }
    Ok(())
}

// Adds the way of what a statement declares.
fn add_way(ways: &mut Vec<Way>, statement: &Stmt) -> Result<(), AllocError>
    ensures { IfOk result (λ _. ways.new.items ≡ ways.old.items ++ map (λ w. w.1) (ways_by statement.now.kind)) }
{
    if let Some(way) = way_of(statement) {
        ways.push(way)?;
    }
    Ok(())
}

// The way of what a statement declares.
fn way_of(statement: &Stmt) -> Option<Way>
    ensures { option_to_list result ≡ map (λ w. w.1) (ways_by statement.now.kind) }
{
    match &statement.kind {
        StmtKind::Wire { .. } | StmtKind::Node { .. } => Some(Way::FromDriver),
        StmtKind::Register { .. } | StmtKind::Instance { .. } | StmtKind::Memory { .. } => {
            Some(Way::Nowhere)
        }
        StmtKind::Connect { .. }
        | StmtKind::Invalid { .. }
        | StmtKind::Skip
        | StmtKind::Stop { .. }
        | StmtKind::Report { .. } => None,
    }
}

// What is known of the declared names of a module: whether each leads to an input port, and the number of the Clock
// input that it leads to, if it leads to one.
#[derive(Drop)]
pub(crate) struct Traces {
    pub(crate) flags: Vec<bool>,
    pub(crate) clocks: Vec<Option<u32>>,
}

// Where the declared names of a module lead.
pub(crate) fn trace(alloc: Global, names: &Namespace, number: u32) -> Result<Traces, AllocError>
    requires { number < length names.now.modules }
    ensures flags { IfOk result (λ traces. (name : List ℕ) → flagged (names_in (module_at names.now.modules number)) traces.flags.items name ≡ leads_to_input (module_at names.now.modules number) name) }
    ensures clocks { IfOk result (λ traces. TellsClocks (module_at names.now.modules number) traces.clocks.items) }
{
    let this = module_of(names, number);
    let ways = Ways::of(alloc, names, number)?;
    let next = next_places(alloc, &ways, this.statements())?;
    let reached = after_steps(alloc, next, ways.len())?;
    let flags = outside_flags(alloc, &ways, &reached)?;
    let inputs = clock_numbers(alloc, this.ports())?;
    let clocks = numbers_reached(alloc, inputs.as_slice(), &reached)?;
    Ok(Traces { flags, clocks })
}

// The place that the driver of each name leads to.
fn next_places(alloc: Global, ways: &Ways, statements: &[Stmt]) -> Result<Vec<usize>, AllocError>
    ensures { IfOk result (λ next. TellsNext ways.now statements.now next.items) }
{
    let mut next = own_places(alloc, ways.len())?;
    for statement in statements {
        follow(ways, &mut next, statement);
    }
    Ok(next)
}

// Each place below n leads to itself.
fn own_places(alloc: Global, n: usize) -> Result<Vec<usize>, AllocError>
    ensures len { IfOk result (λ places. length places.items ≡ n) }
    ensures own { IfOk result (λ places. (k : ℕ) → k < n → slice_index places.items k ≡ k) }
{
    let mut places = Vec::new(alloc);
    for place in 0..n {
        places.push(place)?;
    }
    Ok(places)
}

// Records where the statement makes a name lead.
fn follow(ways: &Ways, next: &mut Vec<usize>, statement: &Stmt)
    requires { length next.old.items ≡ length ways.now }
    ensures { next.new.items ≡ with_driven ways.now next.old.items (driven_by statement.now.kind) }
{
    match &statement.kind {
        StmtKind::Node { name, value } => lead(ways, next, name, bare(value)),
        StmtKind::Connect { sink, source } => {
            if let Reference::Local(name) = sink {
                lead(ways, next, name, bare(source));
            }
        }
        StmtKind::Invalid { sink } => {
            if let Reference::Local(name) = sink {
                lead(ways, next, name, None);
            }
        }
        StmtKind::Wire { .. }
        | StmtKind::Register { .. }
        | StmtKind::Instance { .. }
        | StmtKind::Memory { .. }
        | StmtKind::Skip
        | StmtKind::Stop { .. }
        | StmtKind::Report { .. } => {}
    }
}

// The name that an expression is, if it is a bare reference.
fn bare(value: &Expr) -> Option<&Name>
    ensures { option_copied result ≡ bare_name value.now }
{
    match &value.kind {
        ExprKind::Named(Reference::Local(name)) => Some(name),
        ExprKind::Named(Reference::PortOf(_, _) | Reference::FieldOf(_, _, _))
        | ExprKind::Constant(_)
        | ExprKind::Unary(_, _)
        | ExprKind::Binary(_, _, _)
        | ExprKind::Fixed(_, _, _, _)
        | ExprKind::Mux(_, _, _) => None,
    }
}

// Records that a name, if it is followed, leads to another, or to itself if there is no other.
fn lead(ways: &Ways, next: &mut Vec<usize>, name: &Name, to: Option<&Name>)
    requires { length next.old.items ≡ length ways.now }
    ensures { next.new.items ≡ with_driven ways.now next.old.items (Some (name.now, option_copied to.entry)) }
{
    let Some(place) = ways.place(name) else {
        return;
    };
    if is_followed(ways.way_at(place)) {
        next[place] = place_or(ways, place, to);
    }
}

// The place of a name, or this place if there is no name or it has none.
fn place_or(ways: &Ways, place: usize, to: Option<&Name>) -> usize
    ensures { result ≡ next_at ways.now place (option_copied to.entry) }
{
    match to {
        Some(name) => ways.place(name).unwrap_or(place),
        None => place,
    }
}

// Whether what is named gets a Clock from its driver.
fn is_followed(way: Option<Way>) -> bool
    ensures { result ≡ leads_on way }
{
    match way {
        Some(Way::FromDriver) => true,
        None | Some(Way::FromOutside | Way::Nowhere) => false,
    }
}

// Where each place leads in this many steps, by squaring.
fn after_steps(alloc: Global, next: Vec<usize>, steps: usize) -> Result<Vec<usize>, AllocError>
    requires { ArePlaces (length next.items) next.items }
    ensures { IfOk result (λ reached. Reaches steps next.items reached.items) }
{
    let mut reached = own_places(alloc, next.len())?;
    let mut jump = next;
    let mut left = steps;
    while left > 0 {
        reached = through_if(alloc, left % 2 == 1, reached, &jump)?;
        jump = through(alloc, &jump, &jump)?;
        left /= 2;
    }
    Ok(reached)
}

// The same as `through` if the number of steps is odd, otherwise the first list.
fn through_if(
    alloc: Global,
    is_odd: bool,
    first: Vec<usize>,
    second: &Vec<usize>,
) -> Result<Vec<usize>, AllocError>
    requires { (k : ℕ) → k < length first.items → slice_index first.items k < length second.now.items }
    ensures { IfOk result (λ places. places.items ≡ (if is_odd then map (slice_index second.now.items) first.items else first.items)) }
{
    if is_odd {
        through(alloc, &first, second)
    } else {
        Ok(first)
    }
}

// For each place of the first list, the place that the second has there.
fn through(alloc: Global, first: &Vec<usize>, second: &Vec<usize>) -> Result<Vec<usize>, AllocError>
    requires { (k : ℕ) → k < length first.now.items → slice_index first.now.items k < length second.now.items }
    ensures { IfOk result (λ places. places.items ≡ map (slice_index second.now.items) first.now.items) }
{
    let mut places = Vec::new(alloc);
    for place in first {
        places.push(second[*place])?;
    }
    Ok(places)
}

// For each place whether the name that it reaches is an input port.
fn outside_flags(alloc: Global, ways: &Ways, reached: &Vec<usize>) -> Result<Vec<bool>, AllocError>
    ensures { IfOk result (λ flags. flags.items ≡ map (λ place. comes_from_outside (way_at ways.now place)) reached.now.items) }
{
    let mut flags = Vec::new(alloc);
    for place in reached {
        flags.push(is_outside(ways.way_at(*place)))?;
    }
    Ok(flags)
}

// Whether what is named gets a Clock from outside.
fn is_outside(way: Option<Way>) -> bool
    ensures { result ≡ comes_from_outside way }
{
    match way {
        Some(Way::FromOutside) => true,
        None | Some(Way::FromDriver | Way::Nowhere) => false,
    }
}
