//! The printed text of a program: each declaration in one fixed form, so that two programs that differ in their
//! layout alone are printed alike. It stands on the syntax tree and its parser.
#![tactic(auto)]

mod declarations;
mod expressions;
mod laws;
mod notes;
mod parts;
mod printing;

pub use laws::{printed_programs_are_read_back, programs_are_in_range};
pub use printing::print;
