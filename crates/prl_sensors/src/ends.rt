//! Where the rows of actuators end.

ghost use Rattle.std.specs.Prelude.{◌-◌, ◌^◌, ◌≤◌, ℕ, All};
ghost use Rattle.prl_sensors.specs.Ends.{EndsBefore};

use crate::outputs::OutRows;

/// The first date after the last row of the actuator, or 0 where it has none.
fn end_of_one(out: &OutRows<'_>) -> u64
    requires { EndsBefore (2 ^ 64 - 1) out.now }
    ensures ends { EndsBefore result out.now }
    ensures least { (end : ℕ) → EndsBefore end out.now → result ≤ end }
{
    let count = out.values.len() as u64;
    if count == 0 {
        0
    } else {
        out.clock.start + (count - 1) * out.clock.period + 1
    }
}

/// The first date after the last row of all actuators, or 0 where they have none.
pub(crate) fn end_of(outs: &[OutRows<'_>]) -> u64
    requires { All (EndsBefore (2 ^ 64 - 1)) outs.now }
    ensures ends { All (EndsBefore result) outs.now }
    ensures least { (end : ℕ) → All (EndsBefore end) outs.now → result ≤ end }
{
    let mut end = 0;
    for out in outs {
        end = end_of_one(out).max(end);
    }
    end
}
