//! Views of plans: the jobs of a range of ticks, where a scale puts their dates, with what a schedule
//! does, the run of one processor, a run on several, or a table, as SVG. It stands on `prl_plan`,
//! `prl_edf`, `prl_cores`, `prl_tables`, `prl_drawing` and `prl_shapes`.
#![tactic(auto)]

mod arrows;
mod courses;
mod details;
mod drawn;
mod heads;
mod parts;
mod processors;
mod shown;
mod signs;
mod tables;
mod verdicts;

pub use drawn::picture_of;
pub use parts::Part;
pub use prl_shapes::{
    Act, Shown, View, acts_of, edge_of, is_in, job_count, operand_of, own_release, shapes_of,
    task_of,
};
