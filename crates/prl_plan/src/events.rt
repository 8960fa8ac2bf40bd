//! What an executive does, one event at a time, and the rules that its events keep.

use prl_base::{CellNo, EdgeNo, TaskNo, Value};

/// A half of a buffer cell: twice the cell's number for its low half, and one more for its high half.
#[derive(Clone, Copy)]
pub struct SlotNo(pub u32);

impl SlotNo {
    ghost use Rattle.std.specs.Prelude.{◌≡◌, ◌/◌, ◌%◌};
    ghost use Rattle.std.specs.Bool.{OnTrue, OnFalse};

    /// The cell of which this is a half.
    pub fn cell(self) -> CellNo
        ensures { result.0 ≡ self.0 / 2 }
    {
        CellNo(self.0 / 2)
    }

    /// Whether this is the low half of its cell.
    pub fn is_low(self) -> bool
        ensures yes { OnTrue result (self.0 % 2 ≡ 0) }
        ensures no { OnFalse result (self.0 % 2 ≡ 1) }
    {
        self.0 % 2 == 0
    }
}

/// One event of an executive.
#[derive(Clone, Copy, PartialEq, Eq)]
pub enum Event {
    /// The clock goes on by one tick.
    Tick,
    /// The task does the next action of its first unfinished job.
    Act(TaskNo),
}

/// One action of a job. A job reads its ports in order, then it writes to the edges that use its instance, in the order
/// of edges, and then it ends. A constant is read at once; an instance is read, and written, by its low half and then by
/// its high half.
#[derive(Clone, Copy)]
pub enum Action {
    /// It takes a constant at a port.
    ReadConst {
        port: u32,
        value: Value,
    },
    /// It reads a half of an instance of an edge at a port.
    Read {
        port: u32,
        edge: EdgeNo,
        instance: u64,
        slot: SlotNo,
    },
    /// It writes a half of its instance to an edge.
    Write {
        edge: EdgeNo,
        instance: u64,
        slot: SlotNo,
    },
    /// It ends.
    End,
}

/// A rule of legal lists of events.
#[derive(Clone, Copy, PartialEq, Eq)]
pub enum Rule {
    /// The job that acts is released.
    L1,
    /// The task that acts has an unfinished job of the horizon, and the first such job acts.
    L2,
    /// The job that acts has the earliest encoded deadline of the released unfinished jobs of the horizon, or shares it.
    L3,
    /// The clock goes no further than the end of the horizon, and comes to the encoded deadline of a job of the horizon
    /// only where that job has ended.
    L4,
}

impl Rule {
    ghost use Rattle.std.specs.Prelude.{◌≡◌};
    ghost use Rattle.prl_plan.specs.Rules.{rule_text};

    /// The name of the rule, as it is written.
    pub fn text(self) -> &'static str
        ensures { result.now ≡ rule_text self }
    {
        match self {
            Rule::L1 => "L1",
            Rule::L2 => "L2",
            Rule::L3 => "L3",
            Rule::L4 => "L4",
        }
    }
}
