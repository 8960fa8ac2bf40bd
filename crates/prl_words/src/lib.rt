//! Dependency words of the edges of a task graph: for each job of a consumer the constant or the
//! instance that it reads, composed operator by operator from the consumer's end. And laws of graphs and plans: their
//! numbers fit 64 bits, so that no real computation on them has to give up, and those of every graph at hand are as its
//! types hold them; and what holds of the jobs and the dates of every plan over all whole numbers.
#![tactic(auto)]

mod composing;
mod graphs;
mod holding;
mod jobs;
mod laws;
mod prefixes;
mod ranges;
mod shortening;
mod sizes;
mod steps;

pub use composing::word_of;
pub use graphs::{WordFault, words};
pub use jobs::{
    constants_are_of_their_type, encoded_dates_repeat, encoded_dates_rise,
    hyperperiod_shows_all_jobs, instances_take_turns, operands_are_of_horizon_jobs,
    operands_stand_earlier, plan_has_one_job_table, precedence_is_not_later,
    precedence_repeats_and_rises,
};
pub use laws::words_end_one_way;
pub use prl_plan::Word;
pub use ranges::{
    horizons_are_small, walk_numbers_fit, windows_are_within_dues, words_repeat_by_hyperperiod,
};
pub use sizes::graph_is_representable;
