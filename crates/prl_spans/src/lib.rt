//! Acts placed anywhere between the first and the last unit of their job: laws of the runs by earliest deadline first and of good
//! tables, for executives that read when a job begins and write when it ends, or at any tick between.
#![tactic(auto)]

mod laws;

pub use laws::{
    acts_within_run_are_gated, acts_within_spans_are_gated, acts_within_table_are_gated,
    edf_run_has_spans, good_table_has_spans,
};
