//! The names of a program: what each stands for, and the checks that come before those of types; and tables of
//! the first index of each name of a list. It stands on the syntax tree of `prl_ast`.
#![tactic(auto)]

mod absences;
mod applications;
mod checks;
mod laws;
mod lookups;
mod mentions;
mod repeats;
mod tables;
mod unknowns;
mod uses;

pub use checks::{NameFault, check_names};
pub use laws::{index_has_the_name, reaching_is_found, right_names_stand_for_something};
pub use lookups::{Callee, Names};
pub use mentions::{Mention, Mentioned};
pub use tables::{Indices, found, indices, indices_of};
pub use uses::used_imports;
