//! Laws: a listed memory can be a machine of its own.
ghost use Rattle.std.specs.Prelude.{◌++◌, [], ◌∷◌};
ghost use Rattle.gg_flat.specs.WellFormed.{IsWellFormed};
ghost use Rattle.gg_part.specs.inside.Choice.{IsChoice};
ghost use Rattle.gg_part.specs.declared.part.Part.{Part};
ghost use Rattle.gg_memunit.specs.MemoryUnit.{IsMemoryPiece};
ghost use Rattle.gg_build.specs.inside.Alone.{IsCutAgain};
ghost use Rattle.gg_build.specs.inside.Each.{OfEachMemory};

/// The part of a listed memory is well formed. Its in-signals, its out-signals and its memory can be chosen from it as
/// a part. If it is cut again in this way (`IsCutAgain`), the result is the piece of a memory unit, with the in-signals
/// first.
pub fn memory_is_chosen()
    ensures formed { OfEachMemory (λ part. IsWellFormed part.piece) }
    ensures chosen { OfEachMemory (λ part. IsChoice part.piece (part.piece.ins ++ part.piece.outs) part.piece.ins
        part.piece.outs (0 ∷ [])) }
    ensures alone { OfEachMemory (λ part. (alone : Part) → IsCutAgain part alone → IsMemoryPiece alone.piece) }
{}
