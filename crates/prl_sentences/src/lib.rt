//! What is said of the lines that `prelude` writes on `err`: the kinds of lines, by what a line begins and ends with; how a line of
//! a kind tells the place of its fault, and what more is told of it; and the sentences of each kind, which have words of the
//! line in them. It stands on `prl_base`, and on `prl_plan` for the rules of schedules.
#![tactic(auto)]

mod call_table;
mod kinds;
mod lines;
mod program_table;
mod rows;
mod run_table;
mod sentences;

pub use kinds::{Detail, Kind, Part, Target, argument_of, rest_of};
pub use lines::line_kind;
pub use sentences::{push_sentence, word_at};
