//! Where a run of a plan stands, without values: the routes along which the actions of a task's jobs are found with no look at
//! the other edges, and tracks, the state of an executive, which do one event at a time, refuse each event that breaks a rule,
//! and tell the one that comes next. It stands on plans.
#![tactic(auto)]

mod firsts;
mod laws;
mod routes;
mod seen;
mod tracks;

pub use laws::{legal_event_leaves_less, next_event_is_legal};
pub use prl_plan::{Event, Rule};
pub use routes::{Access, Cursor, NextAction, Routes};
pub use seen::{Acted, Illegal, Seen, Unfinished};
pub use tracks::Track;
