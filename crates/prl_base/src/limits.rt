//! The limits of the profile: what is counted, and how much was found.

/// What a limit counts.
#[derive(Clone, Copy, Debug, PartialEq, Eq)]
pub enum What {
    /// The bytes of a name: at most 64.
    Name,
    /// Open parentheses: at most 64.
    Depth,
    /// Nodes of a program: at most 256.
    Nodes,
    /// Flows of an expanded program: at most 4,096.
    Flows,
    /// The size of a reduced numerator or denominator of a clock: at most 2^31 - 1.
    Clock,
    /// Tasks of a plan: at most 64.
    Tasks,
    /// Edges of a plan: at most 512.
    Edges,
    /// Ticks of a hyperperiod.
    Hyperperiod,
    /// Jobs of a hyperperiod: at most 20,000.
    PeriodJobs,
    /// Constants that are read over all edges: at most 1,000,000.
    Prefix,
    /// Buffer cells: at most 4,096.
    Cells,
    /// Jobs of a horizon: at most 200,000.
    Jobs,
    /// Events of a horizon: at most 1,000,000.
    Events,
    /// Values of all flows: at most 4,000,000.
    Values,
}

impl What {
    ghost use Rattle.std.specs.Prelude.{◌≡◌};
    ghost use Rattle.prl_base.specs.Limits.{what_text};

    /// The name of the limit, as it is written.
    pub fn text(self) -> &'static str
        ensures { result.now ≡ what_text self }
    {
        match self {
            What::Name => "name",
            What::Depth => "depth",
            What::Nodes => "nodes",
            What::Flows => "flows",
            What::Clock => "clock",
            What::Tasks => "tasks",
            What::Edges => "edges",
            What::Hyperperiod => "hyperperiod",
            What::PeriodJobs => "period-jobs",
            What::Prefix => "prefix",
            What::Cells => "cells",
            What::Jobs => "jobs",
            What::Events => "events",
            What::Values => "values",
        }
    }
}

/// A count that passed its limit.
#[derive(Clone, Copy, Debug, PartialEq, Eq)]
pub struct Limit {
    pub what: What,
    /// The count.
    pub found: u64,
}
