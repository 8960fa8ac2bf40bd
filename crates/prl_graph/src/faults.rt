//! Why a flat program has no task graph.

ghost use Rattle.std.specs.Prelude.{◌≡◌};
ghost use Rattle.prl_graph.specs.declared.faults.GraphFault.TheVariants.{Memory};

use prl_base::{Label, Limit};
use std::alloc::AllocError;

/// Why there is no task graph. A due is the relative deadline that a flow notes.
#[derive(Drop)]
pub enum GraphFault {
    /// A due stands on a flow of no task: neither on main's input or output, nor on a copy of an
    /// output of an application. The label of the lowest such flow.
    DueOnNonTask(Label),
    /// A due is not between 1 and the flow's period: the lowest such flow.
    DueRange {
        /// The flow's label.
        flow: Label,
        due: u32,
        /// The flow's period, in ticks.
        period: u64,
    },
    /// Too many tasks or edges, too long a hyperperiod, or too many jobs in it: the first of these.
    Limit(Limit),
    Memory,
}

impl From<AllocError> for GraphFault {
    ghost from_gives = { λ _ e. e ≡ Memory };

    fn from(_error: AllocError) -> GraphFault {
        GraphFault::Memory
    }
}
