//! The limits, as constants.

/// The most cycles of a run, and so the most rows of a trace.
pub const CYCLE_LIMIT: u64 = 1_000_000;

/// The most tokens that a channel holds.
pub const CAPACITY_LIMIT: u32 = 4096;

/// The most units and listed memories of a plan together.
pub const MOST_UNITS: u64 = 256;

/// The most channels of a plan.
pub const MOST_CHANNELS: u64 = 16384;

/// The greatest number of values that a tray keeps: the last ones.
pub const TRAY_ROWS: u64 = 1024;

/// The most bytes of a circuit's file.
pub const CIRCUIT_LIMIT: u64 = 4_194_304;

/// The most bytes of a partition's file.
pub const PARTITION_LIMIT: u64 = 1_048_576;

/// The most bytes of a trace's file.
pub const TRACE_LIMIT: u64 = 67_108_864;

/// The most bytes of a file of steps.
pub const STEPS_LIMIT: u64 = 67_108_864;

/// The most bytes of a snapshot's file.
pub const SNAP_LIMIT: u64 = 67_108_864;

/// At each token of a line the count of `(` up to it, less the count of `)`, is at most this.
pub const DEEPEST: usize = 256;

/// The most workers.
pub const MOST_WORKERS: u32 = 64;

/// The latest cycle of a snapshot.
pub const LATEST_CYCLE: u32 = CYCLE_LIMIT as u32;

/// The greatest seed of a demo.
pub const GREATEST_SEED: u32 = u32::MAX;

/// The most stages of a demo.
pub const MOST_STAGES: u32 = 64;
