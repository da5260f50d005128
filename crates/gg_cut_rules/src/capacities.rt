//! Channels by name, and the faults of capacities.
ghost use Rattle.std.specs.Prelude.{◌≡◌, ◌==◌, ◌<◌, length, All};
ghost use Rattle.gg_cut_plan.specs.inside.Listed.{AreMarks};
ghost use Rattle.gg_cut_plan.specs.Listed.{is_among};
ghost use Rattle.gg_cut_plan.specs.Channels.{channel_names};
ghost use Rattle.gg_cut_plan.specs.Fault.{Tells, unknown_channel, range_fault};
ghost use Rattle.std.specs.Prelude.{option_map};
ghost use Rattle.gg_cut_plan.specs.declared.fault.CutFault.TheVariants.{UnknownChannel};

use gg_bits::{CAPACITY_LIMIT, Name};
use gg_cut_plan::CutFault;
use gg_flat::Piece;

// Checks that each name is a channel's. The channels have these signals.
//
// # Errors
//
// Returns `UnknownChannel` with the first name that no channel has, or `NoMemory` if an allocation fails.
pub(crate) fn channels_exist(
    piece: &Piece,
    signals: &[u32],
    marks: &[bool],
    capacities: &[(Name, u64)],
) -> Result<(), CutFault>
    requires known { All (λ s. s < length piece.now.signals) signals.now }
    requires marks { AreMarks signals.now marks.now }
    requires count { length marks.now ≡ length piece.now.signals }
    ensures { Tells (option_map UnknownChannel (unknown_channel (channel_names piece.now signals.now) capacities.now)) result }
{
    for pair in capacities {
        if !is_channel(piece, signals, marks, &pair.0) {
            return Err(CutFault::UnknownChannel(pair.0.clone()?));
        }
    }
    Ok(())
}

// Whether a name is a channel's.
pub(crate) fn is_channel(piece: &Piece, _signals: &[u32], marks: &[bool], name: &Name) -> bool
    requires known { All (λ s. s < length piece.now.signals) _signals.now }
    requires marks { AreMarks _signals.now marks.now }
    requires count { length marks.now ≡ length piece.now.signals }
    ensures { result ≡ is_among (channel_names piece.now _signals.now) name.now }
{
    // for the invariant only
    let _ = piece.signal_count();
    match piece.find(name) {
        Some(signal) => marks[signal as usize],
        None => false,
    }
}

// Checks that each capacity is from 1 to 4,096.
//
// # Errors
//
// Returns `OutOfRange` with the first capacity that isn't and its name, or `NoMemory` if an allocation fails.
pub(crate) fn capacities_in_range(capacities: &[(Name, u64)]) -> Result<(), CutFault>
    ensures { Tells (range_fault capacities.now) result }
{
    for pair in capacities {
        if pair.1 == 0 || pair.1 > CAPACITY_LIMIT as u64 {
            return Err(CutFault::OutOfRange(pair.0.clone()?, pair.1));
        }
    }
    Ok(())
}
