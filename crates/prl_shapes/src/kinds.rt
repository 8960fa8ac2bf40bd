//! What a picture may show beside the windows of jobs.

use prl_cores::Spread;
use prl_edf::Verdict;
use prl_plan::{Event, Horizon};
use prl_tables::Table;

/// What is drawn beside the windows.
pub enum Shown {
    /// What a schedule does; nothing where it has no event.
    Events(Vec<Event>),
    /// What the analysis has found of the jobs of a horizon, for one processor.
    Verdict(Horizon, Verdict),
    /// The tasks on several processors, and what a run does there.
    Cores(Spread, Vec<Event>),
    /// A static cyclic table.
    Table(Table),
}

impl Drop for Shown {
    fn drop(self) {
        match self {
            Shown::Events(part) => drop(part),
            Shown::Verdict(_, part1) => drop(part1),
            Shown::Cores(part0, part1) => {
                drop(part0);
                drop(part1);
            }
            Shown::Table(part) => drop(part),
        }
    }
}
