//! Calendars: the dates of a list of clocks in order, and which of the clocks have each. It
//! stands on the clocks of `prl_base`.
#![tactic(auto)]

mod calendars;
mod kinds;
mod turns;

pub use calendars::Calendar;
