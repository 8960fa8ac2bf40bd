//! Frames: what a target runs in each hyperperiod, made of a good static cyclic table. A frame and its table give each tick of
//! each hyperperiod to the same job.
#![tactic(auto)]

mod cutting;
mod joining;
mod making;
mod slots;
mod spans;

pub use making::frame_of;
pub use slots::{Frame, Slot};
