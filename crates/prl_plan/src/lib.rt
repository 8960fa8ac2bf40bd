//! Plans of multi-periodic programs: the task graph with its tasks and edges, the jobs of a horizon, the operand that
//! each job reads, encoded dates, buffer cells, and the lists of events that an executive may do. It stands on
//! `prl_base` alone.
#![tactic(auto)]

mod cell_lists;
mod dates;
mod events;
mod facts;
mod graphs;
mod horizons;
mod job_actions;
mod laws;
mod limits;
mod placed;
mod plans;
mod tables;
mod walks;
mod words;

pub use cell_lists::Cells;
pub use dates::Dates;
pub use events::{Action, Event, Rule, SlotNo};
pub use facts::{
    actions_are_as_defined, encoded_dates_keep_order, horizon_jobs_are_counted, look_ups_fit,
    operands_precede, plan_facts, plan_is_one, plan_is_unique, plans_keep_facts,
    room_leaves_no_narrow_chain, words_begin_with_constants,
};
pub use graphs::{Edge, Kind, Producer, Task, TaskGraph};
pub use horizons::Horizon;
pub use laws::{
    act_does_one_action, events_are_decided, free_events_keep_tags, free_list_is_short,
    free_list_leaves_tags, gated_events_keep_sound, gated_list_finds_halves_free,
    gated_list_goes_on, gated_list_keeps_halves, horizons_end_one_way, legal_list_is_gated,
    legal_read_finds_its_tag, replaced_instance_is_over, run_of_two_lists, sound_state_goes_on,
    sound_state_keeps_halves, tag_is_of_the_latest_instance, write_finds_half_free,
};
pub use limits::{
    MAX_CELLS, MAX_EDGES, MAX_EVENTS, MAX_HYPER, MAX_JOBS, MAX_PERIOD_JOBS, MAX_PREFIX, MAX_TASKS,
};
pub use placed::Placed;
pub use plans::Plan;
pub use tables::{Used, Window};
pub use walks::Operand;
pub use words::{Word, Words};
