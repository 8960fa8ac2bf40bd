//! The pure machine of an executive, over every plan and with bodies: it does one event at a time, refuses each event that
//! breaks a rule, and tells what it saw. It stands on plans, on tracks, on bodies, on the
//! rows of sensors and on the workers of tasks.
#![tactic(auto)]

mod cores;
mod laws;
mod stores;

pub use cores::Core;
pub use laws::legal_events_tell;
pub use prl_plan::{Event, Rule};
pub use prl_track::{Illegal, Seen, Unfinished};
