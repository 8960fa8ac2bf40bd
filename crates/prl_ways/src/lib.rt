//! Ways that a refusal is about: the flows round a cycle of uses, the chain of jobs that one job waits for, and the jobs round a
//! loop that needs more time at each turn than it has. What is found by a search is looked at once more before it is told, and
//! the contracts rest on that look. It stands on flat programs and on task graphs.
#![tactic(auto)]

mod chain_texts;
mod chains;
mod jobs;
mod round_texts;
mod rounds;
mod searches;
mod uses;

pub use chain_texts::{push_chain, push_circle};
pub use chains::{Chain, chain_to, circle_before};
pub use jobs::WayJob;
pub use round_texts::{flow_named, push_round};
pub use rounds::{Round, round_from};
pub use uses::Along;
