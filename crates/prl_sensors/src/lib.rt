//! The rows of sensors that a text has, and the text that the actuators write. Rows are records as `csv`
//! reads them; those in plain form are read without it. It stands on
//! `prl_base`, `prl_names` and `prl_flow`.
#![tactic(auto)]

mod actuators;
mod ends;
mod faults;
mod finders;
mod laws;
mod lines;
mod outcomes;
mod outputs;
mod plain;
mod records;
mod room;
mod rows;
mod singles;

pub use actuators::{actuator_text, lent_text};
pub use faults::SensorFault;
pub use laws::rows_are_typed_and_enough;
pub use outcomes::each_text_has_rows_or_a_fault;
pub use outputs::OutRows;
pub use records::{Fields, field, read_record, reader_of, three};
pub use rows::{int_of, read_sensors, truth_of};
