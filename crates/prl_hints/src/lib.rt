//! Hints at mistakes that are taken from another language, or at a file in another's place: by the words at the place that a line
//! of `prelude` tells. A hint is a row of a table, and may be given where its word stands as the row says. It stands on
//! `prl_base` alone.
#![tactic(auto)]

mod body_table;
mod hints;
mod input_table;
mod places;
mod program_table;
mod rows;

pub use hints::{Hint, Stands, hint_told};
