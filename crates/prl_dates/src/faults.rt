//! Why a task graph has no encoded dates.

ghost use Rattle.std.specs.Prelude.{◌≡◌};
ghost use Rattle.prl_dates.specs.declared.faults.DateFault.TheVariants.{Memory};

use prl_base::TaskNo;
use std::alloc::AllocError;

/// Why there are no dates. Jobs are numbered from 0 and told of one hyperperiod; dates are in
/// ticks.
#[derive(Clone, Copy)]
pub enum DateFault {
    /// The lowest job, by task and then by number, whose best is above its deadline.
    Narrow {
        task: TaskNo,
        job: i64,
        /// The greatest release of a first job and then all WCETs, over the chains that end in the
        /// job and have at most as many jobs as a hyperperiod.
        needs: i64,
        /// The deadline of the job.
        has: i64,
    },
    /// The lowest job that ends a chain of one job more which needs longer than that.
    Loop {
        task: TaskNo,
        job: i64,
    },
    Memory,
}

impl From<AllocError> for DateFault {
    ghost from_gives = { λ _ e. e ≡ Memory };

    fn from(_error: AllocError) -> DateFault {
        DateFault::Memory
    }
}
