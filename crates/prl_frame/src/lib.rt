//! What `prelude_frame` tells: the frame of a good table of a plan, which a target runs in each hyperperiod, as lines or as JSON.
#![tactic(auto)]

mod options;
mod refusing;
mod telling;

pub use telling::{MAX_PLAN, MAX_TABLE, tell_frame};
