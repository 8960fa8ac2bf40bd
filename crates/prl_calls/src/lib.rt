//! One call a stage: the files of a command are read, and its texts become a program, a flat program, a plan and rows; and the stages
//! that several modes have in common, one after another. What a stage finds and why it refuses stands in `prl_stages`.
#![tactic(auto)]

mod fronts;
mod planned;
mod plans;
mod programs;
mod reading;
mod rows;

pub use fronts::{flat_of, make_graphed, make_planned, planned_program};
pub use planned::{make_horizon, task_name};
pub use plans::plan_of;
pub use programs::{check_types, read_bodies, read_program};
pub use reading::{Request, Texts, read_request};
pub use rows::{Run, run_with};
