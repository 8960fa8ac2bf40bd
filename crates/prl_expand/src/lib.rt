//! The expansion of programs: from a program whose names and types are right to its flat program, which has the same
//! behaviours, and the law that these are one. It stands on the typed programs of `prl_types`, the behaviours of
//! `prl_causal`, the flat programs of `prl_flow` and their solutions, and on the check of causality, which it hands on.
#![tactic(auto)]

mod counts;
mod expanding;
mod flows;
mod laws;
mod nodes;
mod steps;
mod terms;
mod variables;

pub use counts::{ExpandFault, MAX_FLOWS};
pub use expanding::expand;
pub use laws::{
    behaviours_are_solutions, clocks_of_solutions_are_the_only, cycles_have_names,
    expansions_are_unique, expansions_have_bodies, flats_are_well_formed, programs_have_expansions,
    programs_have_one_behaviour,
};
pub use prl_causal::{CausalFault, causal};
