//! Where the tasks of a plan run, and by which windows their jobs are released.

ghost use Rattle.std.specs.Prelude.{◌≡◌, ◌<◌, ◌^◌, pos, length, nat_abs, slice_index};
ghost use Rattle.prl_plan.specs.Dates.{encoded_release};
ghost use Rattle.prl_plan.specs.Horizons.{Placement, alone};

use crate::{Dates, Plan};
use prl_base::TaskNo;
use std::marker::Model;

/// The processor of each task of a plan, and the windows by which jobs are released. Contracts see a `Placement`.
#[derive(Drop)]
pub struct Placed<'a> {
    /// By task, the processor that it runs on, 0 where none is told.
    processors: &'a [u32],
    dates: &'a Dates,
}

impl<'a> Model for Placed<'a> {
    ghost use Rattle.prl_plan.specs.Horizons.{Placement};

    ghost Value = { Placement };

    ghost view = { λ p. record { processors = p.processors.now; windows = p.dates.now } };
}

impl<'a> Placed<'a> {
    /// All tasks on one processor, released by the plan's own windows. Takes no memory.
    pub fn alone(plan: &'a Plan) -> Placed<'a>
        ensures { result ≡ alone plan.now }
    {
        Placed::on(&[], plan.dates())
    }

    /// Each task on its processor, released by these windows. Takes no memory.
    pub fn on(processors: &'a [u32], dates: &'a Dates) -> Placed<'a>
        ensures { result ≡ record { processors = processors.now; windows = dates.now } }
    {
        Placed { processors, dates }
    }

    /// The processor of task `i`, 0 where none is told. Takes no memory.
    pub fn processor(&self, i: TaskNo) -> u32
        ensures { result ≡ slice_index self.now.processors i.0 }
    {
        match self.processors.get(i.0 as usize) {
            Some(processor) => *processor,
            None => 0,
        }
    }

    /// When job `n` of task `i` of the plan is released, in ticks. Takes no memory.
    pub fn release(&self, plan: &Plan, i: TaskNo, n: u64) -> u64
        requires task { i.0 < length plan.now.graph.tasks }
        requires windows { i.0 < length self.now.windows }
        requires small { nat_abs (encoded_release plan.now.graph self.now.windows i.0 (pos n)) < 2 ^ 63 }
        ensures { result ≡ nat_abs (encoded_release plan.now.graph self.now.windows i.0 (pos n)) }
    {
        let clock = plan.clock_of(i);
        clock.start + n * clock.period + self.dates.window(i, n).lead
    }
}
