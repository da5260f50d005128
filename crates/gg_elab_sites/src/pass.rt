//! One pass over the modules of a circuit, each after all modules that it holds.
ghost use Rattle.std.specs.Prelude.{◌≡◌, ℕ, suc, ◌<◌, ◌≤◌, ◌^◌, length, slice_index_or, option_to_list};
ghost use Rattle.gg_graph.specs.inside.Graph.{IsOrderOf};
ghost use Rattle.gg_elab_sites.specs.inside.Sites.{HoldsModule};
ghost use Rattle.gg_elab_sites.specs.Sites.{held_by, held_by_kind};
ghost use Rattle.gg_elab_sites.specs.inside.Graph.{gathered, gathered_over, value_below};

use gg_ast::{Circuit, Stmt, StmtKind};

// How a module's value is made from its own value and the values of the modules that it holds.
#[derive(Clone, Copy)]
pub(crate) enum Gathering {
    // The sum, which saturates.
    Sum,
    // The greatest of the module's own value and, for each module that it holds, one more than that module's value.
    Height,
    // The least.
    Least,
}

impl Gathering {
    // A module's value, combined with the value of one module that it holds.
    fn gather(self, own: u64, below: u64) -> u64
        ensures { result ≡ gathered self own below }
    {
        match self {
            Gathering::Sum => own.saturating_add(below),
            Gathering::Height => own.max(below.saturating_add(1)),
            Gathering::Least => own.min(below),
        }
    }
}

// A module's own value, combined with the values of the instances that these statements make. `values` has a value for
// each module.
pub(crate) fn gather_over(
    circuit: &Circuit,
    statements: &[Stmt],
    values: &[u64],
    how: Gathering,
    own: u64,
) -> u64
    requires few { length circuit.now.modules < 2 ^ 32 }
    requires values { length values.now ≡ length circuit.now.modules }
    ensures { result ≡ gathered_over how (λ k. slice_index_or values.now k 0) own (held_by circuit.now.modules statements.now) }
{
    let mut value = own;
    for statement in statements {
        value = gather_kind(circuit, &statement.kind, values, how, value);
    }
    value
}

// A module's own value, combined with the value of the instance that a statement makes, if it makes one.
fn gather_kind(circuit: &Circuit, kind: &StmtKind, values: &[u64], how: Gathering, own: u64) -> u64
    requires few { length circuit.now.modules < 2 ^ 32 }
    requires values { length values.now ≡ length circuit.now.modules }
    ensures { result ≡ gathered_over how (λ k. slice_index_or values.now k 0) own (option_to_list (held_by_kind circuit.now.modules kind.now)) }
{
    match kind {
        StmtKind::Instance { module, .. } => match circuit.module(module.as_str()) {
            Some(place) => how.gather(own, values[place as usize]),
            None => own,
        },
        _ => own,
    }
}

// The value of each module, combined with the values of all modules below it. `own` has each module's own value. The
// order has each module after all modules that it holds. This holds for every number of levels that is at least the
// number of modules minus one.
pub(crate) fn gather(circuit: &Circuit, order: &[u32], how: Gathering, own: Vec<u64>) -> Vec<u64>
    requires few { length circuit.now.modules < 2 ^ 32 }
    requires order { IsOrderOf (HoldsModule circuit.now.modules) (length circuit.now.modules) order.now }
    requires own { length own.items ≡ length circuit.now.modules }
    ensures count { length result.items ≡ length circuit.now.modules }
    ensures values { (k levels : ℕ) → k < length circuit.now.modules → length circuit.now.modules ≤ suc levels
        → slice_index_or result.items k 0 ≡ value_below how circuit.now.modules (λ i. slice_index_or own.items i 0) levels k }
{
    let mut values = own;
    let modules = circuit.modules();
    for module in order {
        let place = *module as usize;
        let statements = modules[place].statements();
        let value = gather_over(circuit, statements, values.as_slice(), how, values[place]);
        values[place] = value;
    }
    values
}
