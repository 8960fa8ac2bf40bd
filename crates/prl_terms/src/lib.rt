//! Types that are known or sought, the rules between them, and what rules leave of the types that are sought. Each rule is
//! met as it comes, so that the first contradiction is found, or else the first parameter that the rules leave open. It
//! stands on the types of `prl_base` alone.
#![tactic(auto)]

mod met_rules;
mod progress;
mod solving;
mod terms;

pub use progress::Met;
pub use solving::Unsolved;
pub use terms::{Rule, Term};
