//! The language of bodies: what an imported node computes at each of its jobs, from its inputs and its
//! registers. It stands on the names, values and operators of `prl_base`, the imports of `prl_ast` and the
//! tables of names of `prl_names`.
#![tactic(auto)]

mod bodies;
mod checks;
mod codes;
mod directories;
mod faults;
mod laws;
mod machines;
mod names;
mod program_bodies;
mod scopes;
mod texts;
mod types;
mod values;

pub use bodies::{Body, CheckedBody, Register};
pub use codes::{Code, OperatorAndRight, Variable};
pub use faults::BodyFault;
pub use laws::{each_list_of_bodies_has_an_outcome, used_imports_have_bodies};
pub use machines::Machine;
pub use prl_base::{Operator, Prefix};
pub use program_bodies::{Bodies, check_bodies};
pub use texts::{BodyText, BodyTexts, Expr, ExprRight, RegisterText, Statement};
