//! The program that draws plans: what its words ask for, the files that they name, the range and the
//! rows, and why there is no picture. It stands on `prl_plantext`, `prl_schedules`, `prl_edf`,
//! `prl_cores`, `prl_tables`, `prl_views` and `prl_io`.
#![tactic(auto)]

mod asked;
mod chosen;
mod defaults;
mod pictures;
mod ranges;
mod words;

pub use pictures::draw;
