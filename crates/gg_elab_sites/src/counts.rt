//! The counts of a circuit and their limits.
ghost use Rattle.std.specs.Prelude.{◌≡◌, ◌<◌, ◌^◌, None, nat_lt, if◌then◌else◌, IfOk, length, map, replicate, ◌-◌, slice_index_or, sum_by};
ghost use Rattle.gg_graph.specs.inside.Graph.{IsOrderOf};
ghost use Rattle.gg_elab_sites.specs.inside.Sites.{HoldsModule};
ghost use Rattle.gg_elab_sites.specs.Sites.{module_at, all_sites};
ghost use Rattle.gg_elab_sites.specs.inside.Graph.{value_below};
ghost use Rattle.gg_elab_sites.specs.Counts.{capped, depth_of_fields, words_of_kind, words_in, deep_in, deep_from, deepest, is_reached, counts_of, excess_of, memory_or, first_excess};
ghost use Rattle.gg_elab_sites.specs.inside.Counts.{deep_place, deep_places, deep_at};

use crate::pass::{Gathering, gather, gather_over};
use gg_ast::{Circuit, Field, MemoryField, Module, Stmt, StmtKind};
use std::alloc::{AllocError, Global};

/// A measure of a circuit that has a limit.
#[derive(Clone, Copy, Debug, PartialEq, Eq)]
pub enum Measure {
    /// The depth of the deepest instance: at most 32.
    Depth,
    /// The signals of the top and of all instances: at most 200,000.
    Signals,
    /// The words of one memory: at most 65,536.
    Memory,
    /// The words of the memories of the top and of all instances: at most 1,048,576.
    Words,
    /// The instances, without the top: at most 1,000,000.
    Instances,
}

/// A count above its limit.
#[derive(Clone, Copy, Debug, PartialEq, Eq)]
pub struct Excess {
    /// The measure.
    pub measure: Measure,
    /// The count, or 18,446,744,073,709,551,615 where it is greater.
    pub count: u64,
}

/// The counts of a circuit, over its top and all instances below it.
#[derive(Clone, Copy, PartialEq, Eq)]
pub struct Counts {
    /// How many sites are above the deepest instance, counting the top.
    pub depth: u64,
    /// The signals.
    pub signals: u64,
    /// The words of the first memory in the text that has more than 65,536 words.
    pub memory: Option<u32>,
    /// The words of all memories.
    pub words: u64,
    /// The instances, without the top.
    pub instances: u64,
}

impl Counts {
    /// The first count above its limit, in the order of the variants of `Measure`. None if no count is.
    pub fn excess(&self) -> Option<Excess>
        ensures { result ≡ first_excess self.now }
    {
        above(Measure::Depth, self.depth, 32)
            .or(above(Measure::Signals, self.signals, 200_000))
            .or(too_deep(self.memory))
            .or(above(Measure::Words, self.words, 1_048_576))
            .or(above(Measure::Instances, self.instances, 1_000_000))
    }
}

// The excess of a count, where it is above this limit.
fn above(measure: Measure, count: u64, limit: u64) -> Option<Excess>
    ensures { result ≡ (if nat_lt limit count then excess_of measure count else None) }
{
    if count > limit {
        Some(Excess { measure, count })
    } else {
        None
    }
}

// The excess of a memory's depth that is above its limit, if there is one.
fn too_deep(depth: Option<u32>) -> Option<Excess>
    ensures { result ≡ memory_or depth None }
{
    match depth {
        Some(depth) => Some(Excess {
            measure: Measure::Memory,
            count: u64::from(depth),
        }),
        None => None,
    }
}

// A list with `count` copies of a value.
fn all_of(alloc: Global, count: usize, value: u64) -> Result<Vec<u64>, AllocError>
    ensures { IfOk result (λ values. values.items ≡ replicate count value) }
{
    vec![in alloc; value; count]
}

// The depth that a memory's fields give, or 0.
fn depth_of(fields: &[Field]) -> u32
    ensures { result ≡ depth_of_fields fields.now }
{
    for field in fields {
        if let MemoryField::Depth(depth) = &field.kind {
            return *depth;
        }
    }
    0
}

// The words of a statement.
fn words_of(kind: &StmtKind) -> u32
    ensures { result ≡ words_of_kind kind.now }
{
    match kind {
        StmtKind::Memory { fields, .. } => depth_of(fields.as_slice()),
        _ => 0,
    }
}

// The words of a module's own memories.
fn words_in(held_in: &Module) -> u64
    ensures { result ≡ capped (words_in held_in.now) }
{
    let statements = held_in.statements();
    let mut words = 0u64;
    for statement in statements {
        words = words.saturating_add(u64::from(words_of(&statement.kind)));
    }
    words
}

// The depth of the first memory that is too deep.
fn deep_in(statements: &[Stmt]) -> Option<u32>
    ensures { result ≡ deep_in statements.now }
{
    for statement in statements {
        let words = words_of(&statement.kind);
        if words > 65_536 {
            return Some(words);
        }
    }
    None
}

// The words of each module's own memories.
fn own_words(alloc: Global, modules: &[Module]) -> Result<Vec<u64>, AllocError>
    ensures { IfOk result (λ words. words.items ≡ map (λ m. capped (words_in m)) modules.now) }
{
    let mut words = Vec::new(alloc);
    for module in modules {
        words.push(words_in(module))?;
    }
    Ok(words)
}

// For each module: its place if it has a memory that is too deep, otherwise a number that isn't a place.
fn own_deep(alloc: Global, modules: &[Module]) -> Result<Vec<u64>, AllocError>
    ensures { IfOk result (λ places. places.items ≡ deep_places 0 modules.now) }
{
    let mut places = Vec::new(alloc);
    for module in modules {
        places.push(deep_place(places.len(), module.statements()))?;
    }
    Ok(places)
}

// The place if a memory is too deep, otherwise a number that isn't a place.
fn deep_place(place: usize, statements: &[Stmt]) -> u64
    ensures { result ≡ deep_place place statements.now }
{
    if deep_in(statements).is_some() {
        place as u64
    } else {
        u64::MAX
    }
}

// The depth of the first memory that is too deep in the module at this place, if there is such a module.
fn deep_at(modules: &[Module], place: u64) -> Option<u32>
    ensures { result ≡ deep_at modules.now place }
{
    if place < modules.len() as u64 {
        deep_in(modules[place as usize].statements())
    } else {
        None
    }
}

// A copy of a list of numbers.
fn copy_of(alloc: Global, values: &[u64]) -> Result<Vec<u64>, AllocError>
    ensures { IfOk result (λ copy. copy.items ≡ values.now) }
{
    let mut copy = Vec::new(alloc);
    for value in values {
        copy.push(*value)?;
    }
    Ok(copy)
}

// The value of the module at a place, combined with the values of all modules below it.
fn gather_at(circuit: &Circuit, order: &[u32], place: usize, how: Gathering, own: Vec<u64>) -> u64
    requires few { length circuit.now.modules < 2 ^ 32 }
    requires order { IsOrderOf (HoldsModule circuit.now.modules) (length circuit.now.modules) order.now }
    requires place { place < length circuit.now.modules }
    requires own { length own.items ≡ length circuit.now.modules }
    ensures { result ≡ value_below how circuit.now.modules (λ i. slice_index_or own.items i 0) (length circuit.now.modules) place }
{
    let values = gather(circuit, order, how, own);
    values[place]
}

// The depth of the deepest site.
fn depth(alloc: Global, circuit: &Circuit, order: &[u32], place: usize) -> Result<u64, AllocError>
    requires few { length circuit.now.modules < 2 ^ 32 }
    requires order { IsOrderOf (HoldsModule circuit.now.modules) (length circuit.now.modules) order.now }
    requires place { place < length circuit.now.modules }
    ensures { IfOk result (λ depth. depth ≡ capped (deepest (all_sites circuit.now.modules place))) }
{
    let zeros = all_of(alloc, circuit.modules().len(), 0)?;
    let deepest = gather_at(circuit, order, place, Gathering::Height, zeros);
    Ok(deepest)
}

// The number of signals of all sites, from the number of each module's own signals.
fn signal_total(
    alloc: Global,
    circuit: &Circuit,
    order: &[u32],
    place: usize,
    own: &[u64],
) -> Result<u64, AllocError>
    requires few { length circuit.now.modules < 2 ^ 32 }
    requires order { IsOrderOf (HoldsModule circuit.now.modules) (length circuit.now.modules) order.now }
    requires place { place < length circuit.now.modules }
    requires own { length own.now ≡ length circuit.now.modules }
    ensures { IfOk result (λ total. total ≡ capped (sum_by (λ s. slice_index_or own.now s.number 0) (all_sites circuit.now.modules place))) }
{
    let signals = copy_of(alloc, own)?;
    let total = gather_at(circuit, order, place, Gathering::Sum, signals);
    Ok(total)
}

// The words of the memories of all sites.
fn word_total(
    alloc: Global,
    circuit: &Circuit,
    order: &[u32],
    place: usize,
) -> Result<u64, AllocError>
    requires few { length circuit.now.modules < 2 ^ 32 }
    requires order { IsOrderOf (HoldsModule circuit.now.modules) (length circuit.now.modules) order.now }
    requires place { place < length circuit.now.modules }
    ensures { IfOk result (λ total. total ≡ capped (sum_by (λ s. words_in (module_at circuit.now.modules s.number)) (all_sites circuit.now.modules place))) }
{
    let words = own_words(alloc, circuit.modules())?;
    let total = gather_at(circuit, order, place, Gathering::Sum, words);
    Ok(total)
}

// The depth of the first memory in the text that is too deep, among the modules that have a site.
fn first_deep(
    alloc: Global,
    circuit: &Circuit,
    order: &[u32],
    place: usize,
) -> Result<Option<u32>, AllocError>
    requires few { length circuit.now.modules < 2 ^ 32 }
    requires order { IsOrderOf (HoldsModule circuit.now.modules) (length circuit.now.modules) order.now }
    requires place { place < length circuit.now.modules }
    ensures { IfOk result (λ depth. depth ≡ deep_from (is_reached (all_sites circuit.now.modules place)) 0 circuit.now.modules) }
{
    let deep = own_deep(alloc, circuit.modules())?;
    let first = gather_at(circuit, order, place, Gathering::Least, deep);
    Ok(deep_at(circuit.modules(), first))
}

// How many sites there are below the top.
fn instance_total(
    alloc: Global,
    circuit: &Circuit,
    order: &[u32],
    place: usize,
) -> Result<u64, AllocError>
    requires few { length circuit.now.modules < 2 ^ 32 }
    requires order { IsOrderOf (HoldsModule circuit.now.modules) (length circuit.now.modules) order.now }
    requires place { place < length circuit.now.modules }
    ensures { IfOk result (λ total. total ≡ capped (length (all_sites circuit.now.modules place) - 1)) }
{
    let modules = circuit.modules();
    let ones = all_of(alloc, modules.len(), 1)?;
    let totals = gather(circuit, order, Gathering::Sum, ones);
    let held = modules[place].statements();
    let total = gather_over(circuit, held, totals.as_slice(), Gathering::Sum, 0);
    Ok(total)
}

/// The counts of a circuit with the module at place `top` as its top. `own_signals` has the number of each module's own
/// signals. The order has each module after all modules that it holds.
///
/// # Errors
///
/// Returns `AllocError` if an allocation fails.
pub fn count(
    alloc: Global,
    circuit: &Circuit,
    order: &[u32],
    top: u32,
    own_signals: &[u64],
) -> Result<Counts, AllocError>
    requires few { length circuit.now.modules < 2 ^ 32 }
    requires order { IsOrderOf (HoldsModule circuit.now.modules) (length circuit.now.modules) order.now }
    requires top { top < length circuit.now.modules }
    requires signals { length own_signals.now ≡ length circuit.now.modules }
    ensures { IfOk result (λ counts. counts ≡ counts_of circuit.now.modules own_signals.now top) }
{
    let place = top as usize;
    Ok(Counts {
        depth: depth(alloc, circuit, order, place)?,
        signals: signal_total(alloc, circuit, order, place, own_signals)?,
        memory: first_deep(alloc, circuit, order, place)?,
        words: word_total(alloc, circuit, order, place)?,
        instances: instance_total(alloc, circuit, order, place)?,
    })
}
