//! What `prelude_times` tells of a plan: how old the values of sensors are where actuators use them, along all edges or along a
//! chain of tasks, how far apart in time two sensors' values are, the load of a hyperperiod, and how soon the jobs of a run by
//! earliest deadline first end, up to a tick or for ever; as lines or as JSON.
#![tactic(auto)]

mod asked;
mod collected;
mod lasting;
mod limits;
mod names;
mod options;
mod telling;

pub use telling::{MAX_PLAN, tell};
