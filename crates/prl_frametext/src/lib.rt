//! The text of a frame: lines for its slots and for the idle times between them, or JSON.
#![tactic(auto)]

mod names;
mod objects;
mod texts;

pub use objects::json_of;
pub use texts::text_of;
