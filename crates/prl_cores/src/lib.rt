//! Plans on several processors that share one clock: each task runs on one of them, and a job that reads from another processor
//! waits for the deadline of the job that it reads. So each list of events in which the jobs of each processor keep their
//! priorities reads what one processor alone would. It stands on `prl_plan`, `prl_dates` and `prl_core`.
#![tactic(auto)]

mod cores;
mod laws;
mod spreading;
mod spreads;
mod texts;

pub use cores::Cores;
pub use laws::{
    placements_or_faults_exist, spread_leaves_room, spread_list_is_gated,
    spread_plans_are_dispatched, spread_plans_keep_facts, spreads_are_one,
};
pub use spreading::spread;
pub use spreads::Spread;
pub use texts::{CoresFault, processor_in, read_cores};
