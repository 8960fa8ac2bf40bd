//! Generated programs: from a number and a size a program of as many lanes, the bodies of its
//! imported nodes and the rows of its sensors. It stands on the base crate for the texts of numbers,
//! and on the printed form of programs for a law.
#![tactic(auto)]

mod bodies;
mod draws;
mod equations;
mod generation;
mod lanes;
mod laws;
mod numbered;
mod programs;
mod sensors;

pub use generation::{MAX_SIZE, Texts, generate};
pub use lanes::UNTIL;
pub use laws::{generated_programs_are_read_back, instances_are_before_the_end};
