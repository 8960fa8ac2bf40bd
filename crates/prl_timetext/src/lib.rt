//! The rows that `prelude_times` tells of a plan, and their text: as lines or as JSON.
#![tactic(auto)]

mod lasting_objects;
mod lasting_texts;
mod names;
mod objects;
mod rows;
mod texts;

pub use names::push_names;
pub use objects::json_of;
pub use rows::{Lasting, Row};
pub use texts::{push_row, text_of};
