//! Probes, which look on while jobs are done.

use prl_base::TaskNo;

/// What a worker calls after it opened a job and before the job's first action. It promises
/// nothing.
pub trait Probe: Sync {
    /// The job of this number of this task is about to begin.
    fn before(&self, task: TaskNo, job: u64);
}

/// A probe that does nothing.
#[derive(Clone, Copy)]
pub struct NoProbe;

impl Probe for NoProbe {
    fn before(&self, _task: TaskNo, _job: u64) {}
}
