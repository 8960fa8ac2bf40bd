//! Tests of public calls that no command line reaches; and what tests of plans share: the plan of a text, its horizon and rows
//! of integers for its sensors, where these serve them, and files in memory.
#![tactic(auto)]

mod devices;
#[cfg(test)]
mod expansions;
#[cfg(test)]
mod generated;
#[cfg(test)]
mod halves;
#[cfg(test)]
mod lookups;
#[cfg(test)]
mod machines;
#[cfg(test)]
mod outside;
#[cfg(test)]
mod plans;
#[cfg(test)]
mod runs;
mod texts;
#[cfg(test)]
mod units;

pub use devices::are_served;
pub use texts::{COPIED_PLAN, SAMPLING_PLAN, folder, horizon_of, plan_of, plan_served};
