//! A name that a program declares and that is spelt nearly as one that it does not know; and the names of its nodes. It stands on the
//! trees of programs and their parser.
#![tactic(auto)]

mod edits;
mod nearest;
mod told;

pub use told::{near_told, nodes_told};
