//! Which samples a job's value can show: those that reach the job, and what its task keeps of them in registers. It ties the ages
//! of values to the values.
#![tactic(auto)]

mod laws;

pub use laws::{
    nothing_fresher_feeds, values_follow_what_feeds_them, values_show_no_later_samples,
};
