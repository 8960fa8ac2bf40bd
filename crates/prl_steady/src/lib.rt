//! One processor over all jobs of a plan: the run by earliest deadline first that never ends, how soon the jobs of each task
//! end in it, and the part that each task has in an overload or in the load. It stands on plans that are served for ever, and on
//! the times of runs.
#![tactic(auto)]

mod lasting;
mod laws;
mod shares;

pub use lasting::{TimesFault, times_for_ever};
pub use laws::{endless_runs, overloads_are_sums, times_last};
pub use shares::{Share, horizon_told, share_of_hyper, share_within};
