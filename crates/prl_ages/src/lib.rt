//! How old the value of a sensor is where an actuator uses it: which job of a task depends on which instance of a sensor, for
//! every job of a plan; the worst, the settled and the best ages over all jobs, along all edges or along a chain of tasks; and
//! the skew of two sensors. It stands on plans alone.
#![tactic(auto)]

mod ages;
mod chains;
mod lags;
mod laws;
mod needs;
mod settling;
mod skews;
mod spans;
mod verdicts;

pub use ages::{Age, Until};
pub use lags::jobs_of;
pub use laws::{
    ages_fall, first_jobs_show_the_worst_age, freshest_instances_settle,
    reaching_along_a_chain_reaches, reaching_is_not_later, reaching_repeats, reaching_rises,
    some_instance_is_the_freshest, worst_reaction_is_the_worst_age,
};
pub use needs::needed;
pub use skews::{Skew, SkewVerdict, skew_of};
pub use verdicts::{AgeBounds, Verdict, verdicts_at};
