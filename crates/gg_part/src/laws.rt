//! Laws: facts about the definitions. Each is the contract of a function with an empty body.
ghost use Rattle.std.specs.Prelude.{ℕ, List, Option, length};
ghost use Rattle.std.specs.List.{range_with_len};
ghost use Rattle.gg_flat.specs.Circuit.{FlatCircuit};
ghost use Rattle.gg_flat.specs.WellFormed.{IsWellFormed};
ghost use Rattle.gg_flat.specs.Order.{IsOrder};
ghost use Rattle.gg_part.specs.Part.{IsPart};
ghost use Rattle.gg_flat.specs.InOrder.{IsInOrder};
ghost use Rattle.gg_part.specs.inside.RunsOfParts.{PartsRunFromStarts, PartsRunFromOpening, PartsTakeColumns, PartsKeepOrder};

/// A part of a run is a run of the part. Each clock of the part has the ratio of the clock that it follows. From each
/// start, this holds if the inputs are the values of the part's in-signals in the run. From the opening, it holds for
/// the columns of the part's in-signals, and the part can take these as its inputs.
pub fn part_runs()
    ensures from { PartsRunFromStarts }
    ensures opening { PartsRunFromOpening }
    ensures columns { PartsTakeColumns }
{}

/// A part of a well-formed circuit is well formed.
pub fn part_formed()
    ensures { (whole part : FlatCircuit) (globals held memories : List ℕ) (clocks : List (Option ℕ)) → IsWellFormed whole → IsPart whole part globals held memories clocks → IsWellFormed part }
{}

/// If a part's signals are listed along an order of the whole circuit, they are in an order of evaluation. Then their
/// numbers, ascending, are an order of the part.
pub fn part_in_order()
    ensures along { PartsKeepOrder }
    ensures order { (circuit : FlatCircuit) → IsInOrder circuit → IsOrder circuit (range_with_len 0 (length circuit.signals)) }
{}
