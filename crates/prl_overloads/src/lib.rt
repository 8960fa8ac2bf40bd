//! The jobs that an overload is about: how many of each task, what they cost, which of them weigh most, and how this is written.
//! It stands on plans and on the demand of intervals.
#![tactic(auto)]

mod overloads;
mod share_texts;
mod shares;

pub use overloads::{Overload, overload_of};
pub use share_texts::{push_each, push_load, push_numbered, push_shared, push_within};
pub use shares::{cost_of_all, heaviest, wcet_at};
