//! Plans spread over processors.

ghost use Rattle.std.specs.Prelude.{◌≡◌, ◌<◌, ◌^◌, length};
ghost use Rattle.prl_plan.specs.Horizons.{Placement};
ghost use Rattle.prl_cores.specs.Spreads.{SpreadView, spread_release};

use prl_base::{Clock, TaskNo};
use prl_plan::{Dates, Placed};
use std::marker::Model;

/// The tasks of a plan on their processors, and the windows by which their jobs are released. Contracts see a `SpreadView`.
pub struct Spread {
    processors: Vec<u32>,
    dates: Dates,
    clocks: Vec<Clock>,
}

impl Model for Spread {
    ghost use Rattle.prl_cores.specs.Spreads.{SpreadView};

    ghost Value = { SpreadView };

    ghost view = { λ s. record { placement = record { processors = s.processors.items; windows = s.dates }; clocks = s.clocks.items } };
}

impl Spread {
    /// The tasks of these clocks on these processors, whose jobs are released by these windows.
    pub(crate) fn of(processors: Vec<u32>, dates: Dates, clocks: Vec<Clock>) -> Spread
        ensures { result ≡ record { placement = record { processors = processors.items; windows = dates }; clocks = clocks.items } }
    {
        Spread {
            processors,
            dates,
            clocks,
        }
    }

    /// When job `n` of task `i` is released, in ticks. Takes no memory.
    pub fn release(&self, i: TaskNo, n: u64) -> u64
        requires task { i.0 < length self.now.clocks }
        requires windows { i.0 < length self.now.placement.windows }
        requires small { spread_release self.now i.0 n < 2 ^ 63 }
        ensures release { result ≡ spread_release self.now i.0 n }
    {
        let clock = self.clocks[i.0 as usize];
        clock.start + n * clock.period + self.dates.window(i, n).lead
    }

    /// By task, the processor that it runs on. Takes no memory.
    pub fn processors(&self) -> &[u32]
        ensures { result.now ≡ self.now.placement.processors }
    {
        self.processors.as_slice()
    }

    /// Where the tasks run, and by which windows their jobs are released. Takes no memory.
    pub fn placed(&self) -> Placed<'_>
        ensures { result ≡ self.now.placement }
    {
        Placed::on(self.processors.as_slice(), &self.dates)
    }
}

impl Drop for Spread {
    fn drop(self) {
        let Spread {
            processors,
            dates,
            clocks,
        } = self;
        drop(processors);
        drop(dates);
        drop(clocks);
    }
}
