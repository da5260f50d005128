//! A law: a fact about the definitions. It is the contract of a function with an empty body.
ghost use Rattle.gg_cut_split.specs.inside.StandAgain.{UnitsStandAgain};

/// Let a request have no fault. If two machines have the same leader, the first machine of their host, they are units, and
/// each has what the other has, with other numbers.
pub fn units_stand_again()
    ensures { UnitsStandAgain }
{}
