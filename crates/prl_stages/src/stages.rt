//! The stages of the command in the order of refusals, and how a command stops at one.

ghost use Rattle.std.specs.Bool.{OnTrue, OnFalse};
ghost use Rattle.std.specs.Prelude.{◌≡◌, ◌≢◌};
ghost use Rattle.prl_stages.specs.declared.stages.Stop.TheVariants.{Memory};

use crate::faults::{Fault, InputFile};
use std::alloc::AllocError;

/// What is looked at, one after another.
#[derive(Clone, Copy)]
pub enum Stage {
    /// The bytes of a file.
    File(InputFile),
    /// The grammar of programs.
    Grammar,
    /// Names and types.
    Types,
    /// The limit on the flows of the expansion.
    Expansion,
    /// Cycles of flows.
    Causality,
    /// The clocks of flows.
    Clocks,
    /// The task graph, with its dues and limits.
    Graph,
    /// The limit on the constants of dependency words.
    Words,
    /// The bodies of imported nodes.
    Bodies,
    /// The encoded dates of jobs.
    Dates,
    /// The limit on buffer cells.
    Cells,
    /// The rows of the sensors.
    Rows,
    /// The limit of values.
    Values,
    /// The limits on the horizon of the plan.
    Horizon,
    /// The events of the schedule.
    Schedule,
    /// The static cyclic table that is made of the plan.
    Made,
    /// The static cyclic table of a text.
    Table,
    /// The processors of the tasks.
    Cores,
    /// The events of the schedule on several processors, where one is named.
    Placed,
}

/// Why a command gives no text.
pub enum Stop {
    /// A reading of the file failed.
    Unread(InputFile),
    /// A stage refuses.
    Refused(Stage, Fault),
    /// Memory ran out.
    Memory,
}

impl Stop {
    /// Whether memory ran out.
    pub fn is_memory(&self) -> bool
        ensures yes { OnTrue result (self.now ≡ Memory) }
        ensures no { OnFalse result (self.now ≢ Memory) }
    {
        matches!(self, Stop::Memory)
    }
}

impl From<AllocError> for Stop {
    ghost from_gives = { λ _ e. e ≡ Memory };

    fn from(_error: AllocError) -> Stop {
        Stop::Memory
    }
}

impl Drop for Stop {
    fn drop(self) {
        match self {
            Stop::Refused(_, fault) => drop(fault),
            Stop::Unread(_) | Stop::Memory => {}
        }
    }
}
