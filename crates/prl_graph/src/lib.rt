//! The task graph of a flat program with its clocks: a task for each of main's inputs, each
//! application of an imported node and each of main's outputs, and an edge for each of their input
//! ports. It stands on flat programs and on task graphs.
#![tactic(auto)]

mod dues;
mod edges;
mod faults;
mod graphs;
mod hypers;
mod laws;
mod leasts;
mod tasks;

pub use faults::GraphFault;
pub use graphs::graph;
pub use laws::{
    bodies_and_rows_serve_tasks, edge_gives_operand, graphs_are_well_formed, graphs_end_one_way,
    ports_have_the_clock_of_their_task, solutions_give_job_values,
};
