//! What a program means, and causality of flat programs. Behaviours are the program's text with a flow at each place that
//! makes one, and what the text asks of them; the values of a flat program's flows by instance are exactly one solution over
//! given clocks and an order of causality. Of these the crate holds definitions, and laws over them that expansion and
//! evaluation rest on. What it computes is that order, in which each flow comes after those that it uses undelayed, or a
//! flow on a cycle. It stands on the syntax tree of `prl_ast`, the names of `prl_names` and the flat programs of `prl_flow`.
#![tactic(auto)]

mod behaviours;
mod causality;
mod laws;
mod orders;
mod ranks;
mod searches;
mod sources;
mod walks;

pub use behaviours::{
    behaviours_are_of_their_states, programs_have_one_solution, rules_follow_marks,
    solutions_are_of_their_clocks, solutions_are_typed, solutions_over_clocks_are_whole,
    states_make_behaviours, texts_have_one_shape,
};
pub use causality::{CausalFault, causal};
pub use laws::{acyclic_programs_have_orders, causality_ends_one_way};
