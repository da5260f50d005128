//! The faults of pipes.
ghost use Rattle.std.specs.Prelude.{◌≡◌, ◌<◌, ◌^◌, not, option_map, find, length, All};
ghost use Rattle.gg_cut_plan.specs.inside.Listed.{AreMarks};
ghost use Rattle.gg_cut_plan.specs.Listed.{is_among};
ghost use Rattle.gg_cut_plan.specs.Channels.{channel_names};
ghost use Rattle.gg_cut_plan.specs.Fault.{Tells, repeated};
ghost use Rattle.gg_cut_plan.specs.declared.fault.CutFault.TheVariants.{UnknownPipe, DoubledPipe};

use crate::capacities::is_channel;
use crate::entries::none_repeated;
use gg_bits::Name;
use gg_cut_plan::CutFault;
use gg_flat::Piece;
use std::alloc::Global;

// Checks that each name is a channel's. The channels have these signals.
//
// # Errors
//
// Returns `UnknownPipe` with the first name that no channel has, or `NoMemory` if an allocation fails.
pub(crate) fn pipes_exist(
    piece: &Piece,
    signals: &[u32],
    marks: &[bool],
    pipes: &[Name],
) -> Result<(), CutFault>
    requires known { All (λ s. s < length piece.now.signals) signals.now }
    requires marks { AreMarks signals.now marks.now }
    requires count { length marks.now ≡ length piece.now.signals }
    ensures { Tells (option_map UnknownPipe (find (λ name. not (is_among (channel_names piece.now signals.now) name)) pipes.now)) result }
{
    for name in pipes {
        if !is_channel(piece, signals, marks, name) {
            return Err(CutFault::UnknownPipe(name.clone()?));
        }
    }
    Ok(())
}

// Checks that no name equals an earlier one.
//
// # Errors
//
// Returns `DoubledPipe` with the first name that does, or `NoMemory` if an allocation fails.
pub(crate) fn pipes_once(alloc: Global, pipes: &[Name]) -> Result<(), CutFault>
    requires few { length pipes.now < 2 ^ 32 }
    ensures { Tells (option_map DoubledPipe (repeated pipes.now)) result }
{
    match none_repeated(alloc, pipes) {
        Ok(()) => Ok(()),
        Err(CutFault::Doubled(name)) => Err(CutFault::DoubledPipe(name)),
        Err(_) => Err(CutFault::NoMemory),
    }
}
