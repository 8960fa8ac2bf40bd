//! What is told of a broken rule.

use prl_base::TaskNo;

/// A job, and its encoded dates in ticks.
#[derive(Clone, Copy)]
pub struct DatedJob {
    pub task: TaskNo,
    /// The number of the job, counted from 0.
    pub number: u64,
    pub release: u64,
    pub deadline: u64,
}

/// What an event that breaks a rule is about.
#[derive(Clone, Copy)]
pub enum Cause {
    /// The act is of this job, which is not released yet.
    Early(DatedJob),
    /// All jobs of the task have ended.
    AllEnded {
        task: TaskNo,
        /// How many jobs the task has in the run.
        jobs: u64,
    },
    /// The act is of a job, and overtakes another one, which is released and due earlier.
    Overtakes {
        job: DatedJob,
        other: DatedJob,
    },
    /// This job has not ended, and is due at the next tick.
    Due(DatedJob),
    /// The same; or the run is over, where it has only jobs that are released before this tick by their own dates.
    DueOrOver {
        job: DatedJob,
        until: u64,
    },
    /// The run is over.
    Over,
}

/// The tick at which an event breaks a rule, and what it is about.
#[derive(Clone, Copy)]
pub struct Finding {
    pub tick: u64,
    pub cause: Cause,
}
