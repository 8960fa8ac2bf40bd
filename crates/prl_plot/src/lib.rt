//! The program that draws rows of sensors and actuators: what its words ask for, the files that they name,
//! their rows as flows, the range, and why there are no plots. It stands on `prl_calls` for the clocks of a
//! program's sensors, on `csv` for records, on `prl_sensors` for their fields, and on `prl_steps`, `prl_drawing`
//! and `prl_io`.
#![tactic(auto)]

mod asked;
mod chosen;
mod entries;
mod faults;
mod forms;
mod inputs;
mod plots;
mod readings;
mod records;
mod row_faults;
mod rows;
mod words;

pub use forms::{Form, Input};
pub use plots::plot;
pub use row_faults::RowFault;
pub use rows::read_flows;
