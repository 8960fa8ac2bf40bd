//! What the threads of an executive share: a board over one table of words, opened with a seat for
//! each task and one for the clock. What holds between any two steps of theirs says `prl_rule`.
#![tactic(auto)]

mod clocks;
mod closing;
mod lends;
mod lone;
mod openings;
mod seats;
mod steps;

pub use clocks::{ClockSeat, Ticked};
pub use closing::{Closed, close};
pub use lone::{Lone, gather};
pub use openings::open_board;
pub use prl_rule::{
    About, ClockPart, Constants, Gate, HeldValues, KeptHalf, KeptStop, Running, Standing, TaskPart,
    View, bare_seat_may_enter, gated_read_is_never_overrun, halves, halves_are_exact,
    join_takes_all_parts, load_of_done_is_kept, load_of_half_is_a_read, load_of_now_opens_a_job,
    load_of_stop_is_kept, pack, parts_agree_with_one_state, raise_is_no_event,
    rule_holds_at_the_opening, run_values_keep_facts, spent_seat_may_enter, split_gives_one_part,
    store_of_done_is_an_end, store_of_half_is_a_write, store_of_now_is_a_tick, unpack, whole,
    words_are_exact,
};
pub use prl_seats::{Board, Release, Stage};
pub use seats::{Got, Half, Place, TaskSeat, Wrote};
pub use steps::Steps;
