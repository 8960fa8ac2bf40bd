//! What the text of a program tells of a refusal: the flows round a cycle, the two clocks of a flow,
//! the chain of jobs that one waits for, the jobs round a loop, or the task whose jobs alone need more than they have. It stands on the stages that lead from a text to its flat program
//! and its task graph, and on the searches of `prl_clashes` and `prl_ways`, whose finds it writes.
#![tactic(auto)]

mod longs;
mod program_texts;
mod ways;

pub use ways::{byte_of, chain_told, circle_told, clash_told, cycle_told};
