//! Feasibility on one processor: timed runs by earliest deadline first, and whether the WCETs of a
//! plan's jobs fit into their windows, with a run or an overloaded interval as the witness. It
//! stands on plans, on the demand of intervals, and on routes for the actions of jobs.
#![tactic(auto)]

mod analysis;
mod laws;
mod pieces;
mod rests;
mod runs;
mod texts;
mod unrolling;

pub use analysis::{Verdict, analyse};
pub use laws::{
    actions_end_once, events_of_run_are_legal, feasibility, first_miss_ends_first_overload,
    pieces_have_all_units, plain_run_is_one, verdicts_are_one, verdicts_exist,
};
pub use pieces::Piece;
pub use runs::{Outcome, Timed, run_units};
pub use texts::verdict_text;
pub use unrolling::events_of;
