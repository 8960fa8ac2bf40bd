//! One value more of a flow.

ghost use Rattle.std.specs.Prelude.{◌≡◌, ◌+◌, ◌<◌, ℕ, length, slice_get, Some, OnOk};
ghost use Rattle.prl_evaluation.specs.code.Fronts.{CanGrow, HasGrown, IsSet, UnderWay, len, pushed};

use crate::operators::plain_value;
use crate::runs::{Run, output_value};
use crate::settings::Setting;
use crate::tables::{Values, count};
use prl_base::Value;
use prl_flow::Def;
use std::alloc::AllocError;

/// The next value of flow `i`. An application makes its step where this is the first of its
/// outputs at a date.
fn next_value(setting: &Setting<'_>, flows: &[Values<'_>], runs: &mut [Run<'_>], i: usize) -> Value
    requires set { IsSet setting.now }
    requires under_way { UnderWay setting.now flows.now runs.old }
    requires ready { CanGrow setting.now flows.now i }
    ensures { UnderWay setting.now (pushed flows.now i result) runs.new }
{
    let n = count(flows, i);
    let def = setting.flat.flows()[i].def;
    match def {
        Def::Apply { app, out } => {
            let args = setting.flat.apps()[app as usize].args.as_slice();
            output_value(&mut runs[app as usize], args, flows, n, out as usize)
        }
        _ => plain_value(def, setting.sensors, flows, n),
    }
}

/// Gives flow `i` its next value.
pub(crate) fn advance(
    setting: &Setting<'_>,
    flows: &mut [Values<'_>],
    runs: &mut [Run<'_>],
    i: usize,
) -> Result<(), AllocError>
    requires set { IsSet setting.now }
    requires under_way { UnderWay setting.now flows.old runs.old }
    requires ready { CanGrow setting.now flows.old i }
    ensures under_way { OnOk result (UnderWay setting.now flows.new runs.new) }
    ensures grown { OnOk result (HasGrown flows.old flows.new i) }
{
    let value = next_value(setting, flows, runs, i);
    flows[i].push(value)?;
    Ok(())
}
