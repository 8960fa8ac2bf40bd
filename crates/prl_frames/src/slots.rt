//! Frames and their slots.

use prl_base::{Seq, TaskNo};

/// Ticks of a hyperperiod, one after another, that go to one job in each hyperperiod from `from` on.
#[derive(Clone, Copy)]
pub struct Slot {
    /// The first of the ticks, counted from the begin of the hyperperiod.
    pub at: u64,
    /// How many ticks there are.
    pub units: u64,
    /// The task of the job.
    pub task: TaskNo,
    /// The number of the job in hyperperiod `from`; in each later one the job of its class there.
    pub job: u64,
    /// The first hyperperiod in which the slot holds.
    pub from: u64,
    /// Whether the job has no earlier tick.
    pub first: bool,
    /// Whether the job has no later tick.
    pub last: bool,
}

/// The slots of a hyperperiod, in the order of time. What no slot has is idle.
pub struct Frame {
    pub slots: Seq<Slot>,
}

impl Drop for Frame {
    fn drop(self) {
        let Frame { slots } = self;
        drop(slots);
    }
}
