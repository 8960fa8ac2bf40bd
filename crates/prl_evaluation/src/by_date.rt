//! Flows date by date.

ghost use Rattle.std.specs.Prelude.{◌≡◌, ◌+◌, ◌<◌, ◌^◌, ℕ, length, slice_get, Some, IfOk, OnOk};
ghost use Rattle.prl_base.specs.declared.numbers.FlowNo.{FlowNo as AnyFlow};
ghost use Rattle.prl_calendar.specs.Calendars.{AreDue};
ghost use Rattle.prl_evaluation.specs.code.Dates.{AreAt, AreFull, IsRest, clocks_by};
ghost use Rattle.prl_evaluation.specs.code.Fronts.{IsSet, UnderWay};

use crate::fronts::advance;
use crate::runs::Run;
use crate::settings::Setting;
use crate::tables::Values;
use prl_base::{Clock, FlowNo};
use prl_calendar::Calendar;
use std::alloc::{AllocError, Global};

/// The clocks of these flows.
fn clocks_of(alloc: Global, clocks: &[Clock], flows: &[FlowNo]) -> Result<Vec<Clock>, AllocError>
    requires { (b : ℕ) (x : AnyFlow) → slice_get flows.now b ≡ Some x → x.0 < length clocks.now }
    ensures { IfOk result (λ v. v.items ≡ clocks_by clocks.now flows.now) }
{
    let mut of = Vec::with_capacity(alloc, flows.len())?;
    for flow in flows {
        of.push(clocks[flow.0 as usize])?;
    }
    Ok(of)
}

/// Gives each of the flows at these places, whose clocks have the date, its value at it, one
/// after another.
fn advance_due(
    setting: &Setting<'_>,
    rest: &[FlowNo],
    due: &[u32],
    _date: u64,
    flows: &mut [Values<'_>],
    runs: &mut [Run<'_>],
) -> Result<(), AllocError>
    requires set { IsSet setting.now }
    requires under_way { UnderWay setting.now flows.old runs.old }
    requires rest { IsRest setting.now rest.now flows.old }
    requires before { _date < setting.now.until }
    requires due { AreDue (clocks_by setting.now.clocks.now rest.now) _date due.now }
    requires at { AreAt setting.now rest.now flows.old _date }
    ensures under_way { OnOk result (UnderWay setting.now flows.new runs.new) }
    ensures rest { OnOk result (IsRest setting.now rest.now flows.new) }
    ensures at { OnOk result (AreAt setting.now rest.now flows.new (_date + 1)) }
{
    for place in due {
        advance(setting, flows, runs, rest[*place as usize].0 as usize)?;
    }
    Ok(())
}

/// Gives each of these flows all its values, date by date, and at one date in their order; all
/// others have theirs.
pub(crate) fn by_date(
    alloc: Global,
    setting: &Setting<'_>,
    rest: &[FlowNo],
    flows: &mut [Values<'_>],
    runs: &mut [Run<'_>],
) -> Result<(), AllocError>
    requires set { IsSet setting.now }
    requires under_way { UnderWay setting.now flows.old runs.old }
    requires rest { IsRest setting.now rest.now flows.old }
    requires few { length rest.now < 2 ^ 32 }
    requires at { AreAt setting.now rest.now flows.old 0 }
    ensures under_way { OnOk result (UnderWay setting.now flows.new runs.new) }
    ensures full { OnOk result (AreFull setting.now flows.new) }
{
    let clocks = clocks_of(alloc, setting.clocks, rest)?;
    let mut calendar = Calendar::new(alloc, clocks.as_slice(), setting.until)?;
    let mut due = Vec::new(alloc);
    while let Some(date) = calendar.next(&mut due)? {
        advance_due(setting, rest, due.as_slice(), date, flows, runs)?;
    }
    Ok(())
}
