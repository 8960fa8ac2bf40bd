//! Runs of all jobs of a horizon, by one thread or by several.

pub use prl_exec::{RunFault, Stopped, run_alone, run_threads};
