//! The buffer cells of the edges of a task graph: for each edge its used instances, and the least number of cells that fit
//! them in turn. It stands on the words and the encoded dates of the graph, as `prl_plan` keeps them.
#![tactic(auto)]

mod edges;
mod laws;
mod tables;
mod turns;

pub use laws::cells_or_fault_exist;
pub use tables::{CellFault, cells};
