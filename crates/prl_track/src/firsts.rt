//! What a track keeps of each task that its rules ask for.

use prl_base::TaskNo;

/// The first unfinished job of a task in the horizon, and its encoded dates in ticks.
#[derive(Clone, Copy)]
pub(crate) struct First {
    pub(crate) job: u64,
    pub(crate) release: u64,
    pub(crate) deadline: u64,
}

/// A task, and when its first unfinished job is due.
#[derive(Clone, Copy)]
pub(crate) struct Chosen {
    pub(crate) task: TaskNo,
    pub(crate) deadline: u64,
}
