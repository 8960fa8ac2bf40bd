//! Whether one processor serves a plan for ever: laws of the demand over all horizons, and of the runs that tables tell.
#![tactic(auto)]

mod deciding;
mod laws;

pub use deciding::{ForEver, ForEverFault, load_of, serves_for_ever};
pub use laws::{
    answers_tell_for_ever, good_table_runs, good_table_serves_for_ever, light_runs_are_steady,
    served_for_ever, served_plans_meet_all_windows, tables_tell_for_ever,
};
