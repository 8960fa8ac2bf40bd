//! What is told, row by row.

use prl_ages::{SkewVerdict, Verdict};
use prl_base::TaskNo;
use prl_responses::Times;
use prl_steady::Share;

/// A row of what is told.
#[derive(Clone, Copy, PartialEq, Eq)]
pub enum Row {
    /// How many ticks the jobs of a hyperperiod cost, and how many it has.
    Load {
        load: u64,
        hyper: u64,
    },
    /// How old a sensor's values are at an actuator.
    Age {
        sensor: TaskNo,
        actuator: TaskNo,
        verdict: Verdict,
    },
    /// How old the values of the first task of a chain are at its last, along the chain.
    Chain {
        first: TaskNo,
        last: TaskNo,
        verdict: Verdict,
    },
    /// How far apart in time the values of two sensors are at an actuator.
    Skew {
        first: TaskNo,
        second: TaskNo,
        actuator: TaskNo,
        verdict: SkewVerdict,
    },
    /// How soon the jobs of a task end in a run; none where the run has no job of it.
    Task {
        task: TaskNo,
        times: Option<Times>,
    },
    /// The run misses deadlines: the jobs that are released and due within these ticks, from `from` up to `to`, ask for more than
    /// there are.
    Overload {
        from: u64,
        to: u64,
        demand: u64,
    },
    /// What is told for ever.
    ForEver(Lasting),
}

/// A row of what is told of one processor for ever.
#[derive(Clone, Copy, PartialEq, Eq)]
pub enum Lasting {
    /// It has the time for all jobs.
    Served,
    /// The jobs of a hyperperiod cost more ticks than it has.
    Heavy {
        load: u64,
        hyper: u64,
    },
    /// How many jobs of a task a hyperperiod has, and what they cost.
    Hyper {
        task: TaskNo,
        share: Share,
    },
    /// The jobs that are released and due within these ticks ask for more than there are.
    Overload {
        from: u64,
        to: u64,
        demand: u64,
    },
    /// How many jobs of a task have to run within these ticks, and what they cost.
    Within {
        from: u64,
        to: u64,
        task: TaskNo,
        share: Share,
    },
    /// How soon the jobs of a task end, over all jobs.
    Task {
        task: TaskNo,
        times: Option<Times>,
    },
}
