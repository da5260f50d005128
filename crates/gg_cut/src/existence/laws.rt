//! A law: a fact about the definitions. It is the contract of a function with an empty body.
ghost use Rattle.gg_cut.specs.existence.Existence.{RequestsHavePlans};

/// A design that keeps to its tree and has each register held once has a plan for each request without a fault, whatever the
/// capacity of the channels that the request doesn't name.
pub fn each_has_plan()
    ensures { RequestsHavePlans }
{}
