//! The clock calculus: the clocks that the constraints of a flat program leave to its flows, or
//! the first constraint that leaves none. It stands on the flat programs of `prl_flow`.
#![tactic(auto)]

mod calculus;
mod constraints;
mod fractions;
mod laws;
mod rates;
mod standings;
mod steps;
mod timings;

pub use calculus::{ClockFault, clocks};
pub use laws::{
    clocks_are_unique, clocks_meet_constraints, outcomes_are_unique, programs_have_outcomes,
    solutions_have_clocks,
};
pub use prl_flow::Timing;
