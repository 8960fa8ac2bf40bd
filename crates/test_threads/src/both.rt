//! Each case holds for one thread with all seats in one hand, and for seats that stay apart.

ghost use Rattle.std.specs.Prelude.{[]};
ghost use Rattle.prl_plan.specs.Horizons.{IsHorizon};
ghost use Rattle.prl_values.specs.Fitting.{HaveTaskBodies, HaveTypedRows};
ghost use Rattle.test_threads.specs.Pairs.{IsPair};

use crate::cases::{CASES, case_of};
use crate::pairs::{ROWS, pair};
use crate::{lone_runs, seats};
use prl_flow::Sensors;
use prl_plan::{Horizon, Plan};
use std::alloc::Global;
use std::test::Fail;

/// Fails with the name of the first case that does not hold.
fn each_holds(alloc: Global, plan: &Plan, sensors: &Sensors, horizon: Horizon) -> Result<(), Fail>
    requires pair { IsPair plan.now }
    requires horizon { IsHorizon plan.now horizon }
    requires bodies { HaveTaskBodies plan.now.graph [] }
    requires rows { HaveTypedRows plan.now.graph horizon.until sensors.now }
{
    for line in CASES.lines() {
        let case = case_of(line);
        let alone = lone_runs::holds(alloc, plan, sensors, horizon, &case)?;
        let apart = seats::holds(alloc, plan, sensors, horizon, &case)?;
        if !alone || !apart {
            return Err(case.name.into());
        }
    }
    Ok(())
}

#[test]
fn each_case_holds(rt: HostRuntime) -> Result<(), Fail> {
    let made = pair(rt.alloc(), ROWS.as_slice(), 20)?;
    each_holds(rt.alloc(), &made.0, &made.1, made.2)
}
