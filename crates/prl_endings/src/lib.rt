//! What a command comes to: its text and what was run, or why there is none; the status that tells how its call ends, and the
//! line on `err`. It stands on the stages of `prl_stages`, their calls in `prl_calls` and the modes of `prl_executions`.
#![tactic(auto)]

mod endings;
mod generated;
mod lines;
mod pieces;
mod pipeline;

pub use endings::{Ending, Status, status_of};
pub use lines::tell;
pub use pipeline::{answer, answer_threads};
