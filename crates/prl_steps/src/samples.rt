//! A value at a date, and a value over ticks.

/// A value of a flow at one of its dates.
#[derive(Clone, Copy)]
pub struct Sample {
    /// In ticks.
    pub date: u64,
    pub level: u64,
}

/// A value that holds from one tick on and before another.
#[derive(Clone, Copy)]
pub struct Step {
    pub from: u64,
    pub until: u64,
    pub level: u64,
}
