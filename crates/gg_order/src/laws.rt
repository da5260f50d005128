//! Laws: facts about the definitions. Each is the contract of a function with an empty body.
ghost use Rattle.std.specs.Prelude.{List, ℕ};
ghost use Rattle.gg_flat.specs.Circuit.{FlatCircuit};
ghost use Rattle.gg_flat.specs.Order.{IsOrder};
ghost use Rattle.gg_flat.specs.Reads.{IsLoop};
ghost use Rattle.gg_flat.specs.WellFormed.{IsWellFormed};
ghost use Rattle.gg_order.specs.Found.{found_order};

/// A well-formed circuit without a combinational loop has an order of evaluation: `found_order` is one.
pub fn orders_are_found()
    ensures { (circuit : FlatCircuit) → IsWellFormed circuit → ((loop : List ℕ) → ¬ IsLoop circuit loop) → IsOrder circuit (found_order circuit) }
{}
