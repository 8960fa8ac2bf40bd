//! The grammar of programs and its parser. It stands on tokens, on readers of tokens and on the syntax tree.
#![tactic(auto)]

mod declarations;
mod expressions;
mod laws;
mod nodes;
mod parameters;
mod parser;
mod parsing;
mod ranges;
mod values;
mod words;

pub use laws::each_text_has_one_outcome;
pub use parsing::{ParseFault, parse};
