//! What the machine tells of an event, and why it refuses one.

use prl_base::{CellNo, EdgeNo, TaskNo, Value};
use prl_plan::{Action, Rule};

/// An action that a job did.
#[derive(Clone, Copy)]
pub struct Acted {
    pub job: u64,
    pub action: Action,
}

/// What an event did.
#[derive(Clone, Copy)]
pub enum Seen {
    /// The clock shows this tick.
    Ticked(u64),
    /// A job read the high half of a cell, and with it an instance.
    Read {
        task: TaskNo,
        job: u64,
        port: u32,
        edge: EdgeNo,
        instance: u64,
        cell: CellNo,
        value: Value,
    },
    /// A job took a constant.
    ReadConst {
        task: TaskNo,
        job: u64,
        port: u32,
        value: Value,
    },
    /// A job read or wrote the low half of a cell.
    Half {
        task: TaskNo,
        job: u64,
        edge: EdgeNo,
        cell: CellNo,
    },
    /// A job wrote the high half of a cell, and with it its instance.
    Wrote {
        task: TaskNo,
        job: u64,
        edge: EdgeNo,
        cell: CellNo,
    },
    /// A job ended.
    Ended {
        task: TaskNo,
        job: u64,
    },
}

/// An event that breaks a rule.
#[derive(Clone, Copy)]
pub struct Illegal {
    /// The rule that it breaks. Where an act breaks more than one, L2 goes before L1, and L1 before L3.
    pub rule: Rule,
}

/// A job of the horizon that has not ended.
#[derive(Clone, Copy, PartialEq, Eq)]
pub struct Unfinished {
    pub task: TaskNo,
    pub job: u64,
}
