//! The text of a plan, and the plan of a text: each is the exact inverse of the other. A text is read to its task graph
//! alone; the graph is planned anew, and the plan's text is compared with the one that was given.
#![tactic(auto)]

mod checking;
mod cutting;
mod plans;
mod printing;
mod reading;

pub use plans::{PlanFault, read_plan, text_is_of_one_plan};
pub use printing::plan_text;
