//! Deadlines beside one another: which of two jobs goes first, which is due, how late one may end before another, and where
//! one table of dates is above another. It stands on numbers alone.
#![tactic(auto)]

mod jobs;
mod tables;

pub use jobs::{goes_before, is_due};
pub use tables::{above_in, latest_end};
