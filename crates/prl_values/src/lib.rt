//! Values by instance: what each job of a task graph reads and gives, as equations of each job on
//! the jobs that it reads of; the bodies and rows that they need; and when a body runs. And workers: what each task of an
//! executive works with, beside the tables that it shares: the operands of its open job, the machine of its body, and what
//! it has given. A worker holds no reference. It stands on plans, on bodies and on the rows of sensors.
#![tactic(auto)]

mod laws;
mod making;
mod workers;
mod works;

pub use laws::{act_runs_body_once, job_values_are_one, job_values_are_typed, job_values_exist};
pub use workers::{Work, Worker};
pub use works::jobs_have_work_laws;
