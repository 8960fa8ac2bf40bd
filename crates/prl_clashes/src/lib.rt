//! Two clocks of one flow, where the constraints of a program leave none: each with the way
//! from a declared rate to the flow. What is found by a search is looked at once more before it
//! is told, and the contracts rest on that look. It stands on flat programs and on the
//! constraints of `prl_clock`.
#![tactic(auto)]

mod clash_texts;
mod clashes;
mod hop_texts;
mod links;
mod searches;
mod timings;
mod ways;

pub use clash_texts::push_clash;
pub use clashes::{Clash, clash_at};
pub use ways::{Hop, Way};
