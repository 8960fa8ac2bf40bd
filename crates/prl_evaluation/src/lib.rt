//! The values of the flows of a flat program, by instance and by date, feedback through delays
//! included. It stands on the flat programs of `prl_flow`, the bodies of `prl_body` and the
//! calendars of `prl_calendar`; that there is exactly one solution is a law of `prl_causal`.
#![tactic(auto)]

mod by_date;
mod columns;
mod evaluation;
mod fronts;
mod operators;
mod runs;
mod sequences;
mod settings;
mod tables;
mod wholes;

pub use evaluation::{FlowFault, evaluate};
pub use tables::FlowTable;
