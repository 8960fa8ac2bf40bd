//! The grammar of bodies and its parser. It stands on tokens, on readers of tokens and on the trees of bodies.
#![tactic(auto)]

mod bodies;
mod expressions;
mod laws;
mod levels;
mod parser;
mod parsing;
mod ranges;
mod repeats;
mod trees;
mod words;

pub use laws::each_text_has_one_outcome;
pub use parsing::parse_bodies;
