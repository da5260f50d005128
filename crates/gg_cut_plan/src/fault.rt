//! What is wrong with a request for a design.
ghost use Rattle.std.specs.Prelude.{◌≡◌};
ghost use Rattle.gg_cut_plan.specs.declared.fault.CutFault.TheVariants.{NoMemory};

use gg_bits::Name;
use std::alloc::AllocError;
use std::error::Error;
use std::fmt;

/// Why a request doesn't fit a design. Faults are reported in the order of these variants.
#[derive(Debug, Drop)]
pub enum CutFault {
    /// An entry of `units` that isn't an instance path, or of `share` that isn't in `units`.
    UnknownUnit(Name),
    /// An entry that equals an earlier one of the same key, or a unit that holds an earlier unit or is in one.
    Doubled(Name),
    /// An entry of a list of `share` with another module than the list's first entry.
    OtherModule(Name),
    /// An entry of `memories` that isn't the path of a memory.
    UnknownMemory(Name),
    /// A listed memory in a shared unit with an unlisted counterpart in another unit of the list.
    Unmatched(Name),
    /// A name in `capacity` that no channel has.
    UnknownChannel(Name),
    /// A capacity of 0 or above 4,096, with its channel's name.
    OutOfRange(Name, u64),
    /// The number of units and listed memories, if it is above 256.
    TooManyUnits(u64),
    /// The number of channels, if it is above 16,384.
    TooManyChannels(u64),
    /// A name in `pipe` that no channel has.
    UnknownPipe(Name),
    /// A name in `pipe` that equals an earlier one.
    DoubledPipe(Name),
    /// A name in `clocks` that no Clock input of the top has.
    UnknownClock(Name),
    /// A ratio `m`, `d` in `clocks` that breaks `1 <= m <= d <= 65535`, with its clock's name.
    WrongRatio(Name, u64, u64),
    /// The name of a bridge that isn't known, or that occurs twice.
    UnknownBridge(Name),
    /// A port of a bridge that isn't a port of the top of the right direction, or that is listed twice.
    WrongPort(Name),
    /// The name of a bridge with ports that don't fit its model.
    UnfitBridge(Name),
    /// An allocation failed.
    NoMemory,
}

impl From<AllocError> for CutFault {
    ghost from_gives = { λ _ e. e ≡ NoMemory };

    fn from(_error: AllocError) -> CutFault {
        CutFault::NoMemory
    }
}

impl fmt::Display for CutFault {
    ghost use Rattle.std.specs.Prelude.{Some};
    ghost use Rattle.gg_cut_plan.specs.Fault.{fault_text};

    ghost output = { λ fault. Some (fault_text fault) };

    fn fmt<W: fmt::Write>(&self, f: &mut fmt::Formatter<W>) -> fmt::Result {
        match self {
            CutFault::UnknownUnit(path) => write!(f, "P2 {path}"),
            CutFault::Doubled(path) => write!(f, "P3 {path}"),
            CutFault::OtherModule(path) => write!(f, "P4 {path}"),
            CutFault::UnknownMemory(path) => write!(f, "P5 {path}"),
            CutFault::Unmatched(path) => write!(f, "P6 {path}"),
            CutFault::UnknownChannel(name) => write!(f, "P7 {name}"),
            CutFault::OutOfRange(name, capacity) => write!(f, "P8 {name} {capacity}"),
            CutFault::TooManyUnits(count) => write!(f, "P9 units {count}"),
            CutFault::TooManyChannels(count) => write!(f, "P9 channels {count}"),
            CutFault::UnknownPipe(name) => write!(f, "P10 {name}"),
            CutFault::DoubledPipe(name) => write!(f, "P11 {name}"),
            CutFault::UnknownClock(name) => write!(f, "P12 {name}"),
            CutFault::WrongRatio(name, m, d) => write!(f, "P13 {name} {m} {d}"),
            CutFault::UnknownBridge(name) => write!(f, "P14 {name}"),
            CutFault::WrongPort(name) => write!(f, "P15 {name}"),
            CutFault::UnfitBridge(name) => write!(f, "P16 {name}"),
            CutFault::NoMemory => f.write_str("out of memory"),
        }
    }
}

impl Error for CutFault {}
