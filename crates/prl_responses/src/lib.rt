//! How soon the jobs of each task end in a run by earliest deadline first: the worst response and the least slack. It stands on
//! plans, on their runs, and on the dates of ages.
#![tactic(auto)]

mod responses;

pub use responses::{Times, times_of};
