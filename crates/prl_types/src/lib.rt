//! The check of a program's names, arity and types. Every node is looked at, also one that main does not apply.
//!
//! A program whose names are right (`prl_names`) has rules between the types of its parameters; they are listed in
//! their order (declared types first; then by the text, the parts of an expression before the whole) and each is met as it is
//! made (`prl_terms`). It stands on the syntax tree of `prl_ast`.
#![tactic(auto)]

mod arities;
mod contexts;
mod faults;
mod laws;
mod rules;
mod segments;
mod signatures;
mod typing;

pub use faults::TypeFault;
pub use laws::{each_program_has_an_outcome, outcome_is_unique};
pub use typing::{Typed, check_names_types};
