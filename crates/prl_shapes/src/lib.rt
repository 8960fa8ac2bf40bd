//! The jobs of a range of ticks, and where a scale puts their dates: what pictures of a plan stand on. It stands on `prl_plan`,
//! `prl_edf`, `prl_cores`, `prl_tables` and `prl_drawing`.
#![tactic(auto)]

mod acts;
mod kinds;
mod look_ups;
mod shapes;
mod views;

pub use acts::{Act, acts_of, is_in};
pub use kinds::Shown;
pub use look_ups::{dates_of, edge_of, job_count, operand_of, own_release, released, task_of};
pub use shapes::{first_shown, shape_of, shapes_of};
pub use views::{View, row_in};
