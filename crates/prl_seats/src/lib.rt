//! The table that the threads of an executive share, with each step on it, and a task's seat of it
//! with where its job stands. What holds between any two steps says `prl_rule`; what a seat reads,
//! gives and keeps beside its view is the matter of `prl_board`.
#![tactic(auto)]

mod board;
mod jobs;

pub use board::{Board, Seat, Words, zeros};
pub use jobs::{JobSeat, Release, Stage};
