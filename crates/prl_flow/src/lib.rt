//! Flat programs: lists of flows, each a sensor's, a copy, a constant, an operator on another flow or an
//! output of an applied import. What their flows are is defined by date (`specs/`). The first flow that is left
//! without a clock is told by where they stand. It stands on `prl_base` and on the bodies of `prl_body`.
#![tactic(auto)]

mod dates;
mod operators;
mod programs;
mod rows;
mod standings;

pub use dates::dates_before;
pub use operators::instance_of_operator;
pub use programs::{App, Arg, Clocks, Def, Flat, Flow, Order, OutFlow, has_argument};
pub use rows::Sensors;
pub use standings::{Standing, Timing, first_free};
