//! The limits of plans and of horizons.

/// The most tasks of a graph.
pub const MAX_TASKS: usize = 64;

/// The most edges of a graph.
pub const MAX_EDGES: usize = 512;

/// The longest hyperperiod, in ticks.
pub const MAX_HYPER: u64 = 10_000_000;

/// The most jobs of a hyperperiod, over all tasks.
pub const MAX_PERIOD_JOBS: u64 = 20_000;

/// The most constants in the prefixes of all words of a plan.
pub const MAX_PREFIX: u64 = 1_000_000;

/// The most cells of a plan.
pub const MAX_CELLS: u32 = 4_096;

/// The most jobs that a horizon may have.
pub const MAX_JOBS: u64 = 200_000;

/// The most events that a horizon may have.
pub const MAX_EVENTS: u64 = 1_000_000;
