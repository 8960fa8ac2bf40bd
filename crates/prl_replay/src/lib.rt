//! Replays of schedules on every plan: the events that a text lists are done one by one on the machine, and what their jobs read
//! and what the actuators got is told; that these are the flows of main's outputs is a law. And what a closed board shows of the
//! actuators: a flow for each, with what the jobs of its task have read; that these are the flows which a replay would tell is a
//! law. It stands on `prl_core`, `prl_board`, `prl_graph`, `prl_sensors` and `prl_schedules`, whose calls on schedules it hands on.
#![tactic(auto)]

mod boards;
mod faults;
mod flows;
mod laws;
mod replays;
mod shown;
mod texts;

pub use boards::ended_boards_show_flows;
pub use faults::ReplayFault;
pub use flows::out_flow;
pub use laws::{
    actuators_get_the_outputs, placed_lists_are_replayed, replays_end_one_way,
    whole_lists_are_replayed,
};
pub use prl_schedules::{ScheduleFault, dispatch, dispatch_on, read_schedule, schedule_text};
pub use replays::{Trace, replay, run_list};
pub use shown::shown_flows;
pub use texts::trace_text;
