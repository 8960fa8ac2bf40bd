//! Why a text is no whole run.

ghost use Rattle.std.specs.Prelude.{◌≡◌};
ghost use Rattle.prl_replay.specs.declared.faults.ReplayFault.TheVariants.{Memory};
ghost use Rattle.prl_replay.specs.Replays.{schedule_fault};

use prl_base::TaskNo;
use prl_plan::Rule;
use prl_schedules::ScheduleFault;
use std::alloc::AllocError;

/// Why there is no replay.
#[derive(Clone, Copy)]
pub enum ReplayFault {
    /// The line of this number, counted from 1, is the first that is no event of the schedule.
    Syntax(u64),
    /// The event of this line, counted from 1, is the first that breaks a rule, and this is the first rule that it breaks.
    Illegal { line: u64, rule: Rule },
    /// No event breaks a rule, but this job of the horizon has not ended: the first one of the lowest such task.
    Unfinished { task: TaskNo, job: u64 },
    Memory,
}

impl From<AllocError> for ReplayFault {
    ghost from_gives = { λ _ e. e ≡ Memory };

    fn from(_error: AllocError) -> ReplayFault {
        ReplayFault::Memory
    }
}

impl From<ScheduleFault> for ReplayFault {
    ghost from_gives = { λ f e. e ≡ schedule_fault f };

    fn from(fault: ScheduleFault) -> ReplayFault {
        match fault {
            ScheduleFault::Syntax(line) => ReplayFault::Syntax(line),
            ScheduleFault::Memory => ReplayFault::Memory,
        }
    }
}
