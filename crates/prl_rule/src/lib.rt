//! The rule of what the threads of an executive share: the halves of values in tagged words, what
//! each seat knows, and what holds between any two steps. Each kind of step has its law. It stands on
//! plans, on bodies, on the rows of sensors and on values by instance.
#![tactic(auto)]

mod laws;
mod steps;
mod tagged;
mod views;

pub use laws::{
    halves_are_exact, plan_laws, reads_are_of_their_edges, run_values_keep_facts, words_are_exact,
};
pub use steps::{
    bare_seat_may_enter, gated_read_is_never_overrun, join_takes_all_parts, load_of_done_is_kept,
    load_of_half_is_a_read, load_of_now_opens_a_job, load_of_stop_is_kept,
    parts_agree_with_one_state, raise_is_no_event, rule_holds_at_the_opening, spent_seat_may_enter,
    split_gives_one_part, store_of_done_is_an_end, store_of_half_is_a_write,
    store_of_now_is_a_tick,
};
pub use tagged::{halves, is_other, pack, unpack, whole};
pub use views::{
    About, ClockPart, Constants, Gate, HeldValues, KeptHalf, KeptStop, Running, Standing, TaskPart,
    View,
};
