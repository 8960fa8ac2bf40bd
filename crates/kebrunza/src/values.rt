//! Names, numbers and values, and how they are written.

pub use prl_base::{
    CellNo, Clock, Label, Limit, Name, Op, Ratio, Seq, TaskNo, Ty, Value, push_integer,
    push_number, push_ratio, push_value,
};
pub use prl_flow::{OutFlow, Sensors};
