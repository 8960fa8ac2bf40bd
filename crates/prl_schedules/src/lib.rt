//! Schedules: texts that list events a line each, the dispatched list of a plan, and the lines of what its jobs read; and
//! what a broken rule of a schedule is about: which job acts, and which other job it overtakes, or which job is due, and
//! what an unfinished job has left to do. It stands on plans and tracks, and `prl_replay` hands its calls on.
#![tactic(auto)]

mod cause_texts;
mod causes;
mod dates;
mod dispatches;
mod findings;
mod laws;
mod lefts;
mod numbers;
mod pending;
mod read_texts;
mod schedule_texts;
mod schedules;
mod walks;

pub use cause_texts::{push_finding, push_left};
pub use causes::{Cause, DatedJob, Finding};
pub use dispatches::{dispatch, dispatch_on};
pub use findings::finding_at;
pub use laws::plans_are_dispatched;
pub use lefts::{Left, left_after};
pub use numbers::TaskNames;
pub use read_texts::reads_text;
pub use schedule_texts::schedule_text;
pub use schedules::{ScheduleFault, read_schedule, without_return};
