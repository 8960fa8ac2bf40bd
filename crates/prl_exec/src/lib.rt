//! The executive: one thread, or several at once, run all jobs of a plan in a horizon on a board.
//! It stands on the board with its seats, on plans with their laws, and on the probe of what is
//! outside.
#![tactic(auto)]

mod alone;
mod crews;
mod dealing;
mod laws;
mod overruns;
mod polls;
mod rests;
mod runs;
mod waits;
mod workers;

pub use alone::{look_due, poll, run_alone, tick};
pub use laws::run_laws;
pub use runs::{RunFault, Stopped, run_threads};
