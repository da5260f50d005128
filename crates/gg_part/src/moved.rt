//! A law of parts that occur in a circuit twice: the contract of a function with an empty body.
ghost use Rattle.gg_part.specs.inside.PartsMove.{PartsMove};

/// If all that a part of a circuit has occurs in the circuit again under other numbers, then the same part, except for
/// its paths, is a part of the circuit under those numbers. Whatever runs a part therefore serves each place where it
/// occurs.
pub fn part_moves()
    ensures { PartsMove }
{}
