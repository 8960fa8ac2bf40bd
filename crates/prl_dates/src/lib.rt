//! Encoded dates of a task graph: least releases and greatest deadlines over all jobs, as shortest
//! lists that repeat, or the first job that has no room. It stands on `prl_plan`.
#![tactic(auto)]

mod bests;
mod encoding;
mod exits;
mod faults;
mod lanes;
mod latest;
mod laws;
mod leaps;
mod numbers;
mod rounds;
mod runs;
mod spreads;
mod turns;
mod windows;

pub use encoding::encode;
pub use faults::DateFault;
pub use laws::{dates_or_fault_exist, faults_tell_of_narrow_chains, spreads_exist};
pub use spreads::spread_dates;
