//! What is told of an overload, of a hyperperiod that asks for too much, and of the text of a table that is not good: the jobs and
//! the entries that these are about, by the names of their tasks, with their ticks. It stands on plans, on the demand of intervals,
//! on tables, and on `prl_overloads` for how ticks fall on tasks.
#![tactic(auto)]

mod entry_texts;
mod fault_texts;
mod loads;
mod lookups;
mod told;

pub use loads::{overload_told, unsteady_told};
pub use told::table_told;
