//! Flows that depend on no cycle, each with all its values at once.

ghost use Rattle.std.specs.Prelude.{◌≡◌, ◌+◌, ◌<◌, ◌^◌, ◌∷◌, ℕ, true, [], length, slice_get, Some, IfOk, OnOk};
ghost use Rattle.prl_flow.specs.Solutions.{values_of};
ghost use Rattle.prl_flow.specs.declared.programs.Arg.{Arg as AnyArg};
ghost use Rattle.prl_flow.specs.declared.programs.Flow.{Flow as AnyFlow};
ghost use Rattle.prl_evaluation.specs.code.Dates.{AreAt, AreFull, IsFull, IsRest};
ghost use Rattle.prl_evaluation.specs.code.Fronts.{IsPlain, IsSet, UnderWay};
ghost use Rattle.prl_evaluation.specs.code.Wholes.{AreFlows, AreWhole, IsFilling, IsGroup, is_full};

use crate::by_date::by_date;
use crate::columns::plain_values;
use crate::fronts::advance;
use crate::runs::Run;
use crate::sequences::along_uses;
use crate::settings::Setting;
use crate::tables::{Values, count};
use prl_base::FlowNo;
use prl_flow::{App, Arg, Def, dates_before};
use std::alloc::{AllocError, Global};

/// Whether flow `i` has a value for each of its dates.
fn is_full(setting: &Setting<'_>, flows: &[Values<'_>], i: usize) -> bool
    requires set { IsSet setting.now }
    requires flow { i < length setting.now.flat.now.flows }
    requires count { length flows.now ≡ length setting.now.flat.now.flows }
    ensures { result ≡ is_full setting.now flows.now i }
{
    count(flows, i) as u64 == dates_before(setting.until, setting.clocks[i])
}

/// Whether all arguments are full.
fn are_full(setting: &Setting<'_>, flows: &[Values<'_>], args: &[Arg]) -> bool
    requires set { IsSet setting.now }
    requires count { length flows.now ≡ length setting.now.flat.now.flows }
    requires within { (j : ℕ) (arg : AnyArg) → slice_get args.now j ≡ Some arg → arg.flow.0 < length setting.now.flat.now.flows }
    ensures { result ≡ true → (j : ℕ) (arg : AnyArg) → slice_get args.now j ≡ Some arg → IsFull setting.now flows.now arg.flow.0 }
{
    for arg in args {
        if !is_full(setting, flows, arg.flow.0 as usize) {
            return false;
        }
    }
    true
}

/// Gives each of the flows that has none yet its value of instance `n`.
fn fill_instance(
    setting: &Setting<'_>,
    group: &[FlowNo],
    _number: usize,
    n: usize,
    flows: &mut [Values<'_>],
    runs: &mut [Run<'_>],
) -> Result<(), AllocError>
    requires set { IsSet setting.now }
    requires under_way { UnderWay setting.now flows.old runs.old }
    requires before { n < _number }
    requires filling { IsFilling setting.now group.now _number flows.old n 0 }
    ensures under_way { OnOk result (UnderWay setting.now flows.new runs.new) }
    ensures filling { OnOk result (IsFilling setting.now group.now _number flows.new (n + 1) 0) }
{
    for flow in group {
        let i = flow.0 as usize;
        if count(flows, i) == n {
            advance(setting, flows, runs, i)?;
        }
    }
    Ok(())
}

/// Gives these flows their `number` values: the outputs of an application, or another flow alone.
/// What they use is full.
fn fill(
    setting: &Setting<'_>,
    group: &[FlowNo],
    number: usize,
    flows: &mut [Values<'_>],
    runs: &mut [Run<'_>],
) -> Result<(), AllocError>
    requires set { IsSet setting.now }
    requires under_way { UnderWay setting.now flows.old runs.old }
    requires group { IsGroup setting.now group.now number flows.old }
    requires whole { AreWhole setting.now flows.old }
    ensures under_way { OnOk result (UnderWay setting.now flows.new runs.new) }
    ensures whole { OnOk result (AreWhole setting.now flows.new) }
{
    for n in 0..number {
        fill_instance(setting, group, number, n, flows, runs)?;
    }
    Ok(())
}

/// Gives the flow, which is no output of an application, its `number` values. What it uses is full.
fn fill_alone<'a>(
    alloc: Global,
    setting: &Setting<'a>,
    flow: FlowNo,
    def: Def,
    number: usize,
    flows: &mut [Values<'a>],
    _runs: &[Run<'_>],
) -> Result<(), AllocError>
    requires set { IsSet setting.now }
    requires flow { (f : AnyFlow) × (slice_get setting.now.flat.now.flows flow.0 ≡ Some f) × (f.def ≡ def) }
    requires plain { IsPlain def }
    requires under_way { UnderWay setting.now flows.old _runs.now }
    requires group { IsGroup setting.now (flow ∷ []) number flows.old }
    requires whole { AreWhole setting.now flows.old }
    ensures under_way { OnOk result (UnderWay setting.now flows.new _runs.now) }
    ensures whole { OnOk result (AreWhole setting.now flows.new) }
{
    if number == 0 {
        return Ok(());
    }
    let values = plain_values(alloc, setting, def, number, flows)?;
    flows[flow.0 as usize] = values;
    Ok(())
}

/// Gives the flow, which is no output of an application, its values where the flow that it uses is
/// full.
fn fill_after<'a>(
    alloc: Global,
    setting: &Setting<'a>,
    used: FlowNo,
    flow: FlowNo,
    def: Def,
    number: usize,
    flows: &mut [Values<'a>],
    runs: &[Run<'_>],
) -> Result<(), AllocError>
    requires set { IsSet setting.now }
    requires used { used.0 < length setting.now.flat.now.flows }
    requires flow { (f : AnyFlow) × (slice_get setting.now.flat.now.flows flow.0 ≡ Some f) × (f.def ≡ def) }
    requires plain { IsPlain def }
    requires under_way { UnderWay setting.now flows.old runs.now }
    requires group { IsFull setting.now flows.old used.0 → IsGroup setting.now (flow ∷ []) number flows.old }
    requires whole { AreWhole setting.now flows.old }
    ensures under_way { OnOk result (UnderWay setting.now flows.new runs.now) }
    ensures whole { OnOk result (AreWhole setting.now flows.new) }
{
    if is_full(setting, flows, used.0 as usize) {
        fill_alone(alloc, setting, flow, def, number, flows, runs)?;
    }
    Ok(())
}

/// Gives the outputs of the application their values where its arguments are full.
fn fill_outputs(
    setting: &Setting<'_>,
    app: &App,
    number: usize,
    flows: &mut [Values<'_>],
    runs: &mut [Run<'_>],
) -> Result<(), AllocError>
    requires set { IsSet setting.now }
    requires within { (j : ℕ) (arg : AnyArg) → slice_get app.now.args j ≡ Some arg → arg.flow.0 < length setting.now.flat.now.flows }
    requires under_way { UnderWay setting.now flows.old runs.old }
    requires group { ((j : ℕ) (arg : AnyArg) → slice_get app.now.args j ≡ Some arg → IsFull setting.now flows.old arg.flow.0) → IsGroup setting.now app.now.outs number flows.old }
    requires whole { AreWhole setting.now flows.old }
    ensures under_way { OnOk result (UnderWay setting.now flows.new runs.new) }
    ensures whole { OnOk result (AreWhole setting.now flows.new) }
{
    if are_full(setting, flows, app.args.as_slice()) {
        fill(setting, app.outs.as_slice(), number, flows, runs)?;
    }
    Ok(())
}

/// Gives the flow its values where all that it uses is full; with it the other outputs of its
/// application.
fn fill_ready<'a>(
    alloc: Global,
    setting: &Setting<'a>,
    flow: FlowNo,
    flows: &mut [Values<'a>],
    runs: &mut [Run<'_>],
) -> Result<(), AllocError>
    requires set { IsSet setting.now }
    requires flow { flow.0 < length setting.now.flat.now.flows }
    requires under_way { UnderWay setting.now flows.old runs.old }
    requires whole { AreWhole setting.now flows.old }
    ensures under_way { OnOk result (UnderWay setting.now flows.new runs.new) }
    ensures whole { OnOk result (AreWhole setting.now flows.new) }
{
    let number = dates_before(setting.until, setting.clocks[flow.0 as usize]) as usize;
    let def = setting.flat.flows()[flow.0 as usize].def;
    match def {
        Def::Sensor(_) | Def::Const(_) => {
            fill_alone(alloc, setting, flow, def, number, flows, runs)
        }
        Def::Copy(of) | Def::Op { of, .. } => {
            fill_after(alloc, setting, of, flow, def, number, flows, runs)
        }
        Def::Apply { app, .. } => {
            let app = &setting.flat.apps()[app as usize];
            fill_outputs(setting, app, number, flows, runs)
        }
    }
}

/// Gives the flows in this sequence their values, each where all that it uses is full by then.
pub(crate) fn fill_wholes<'a>(
    alloc: Global,
    setting: &Setting<'a>,
    sequence: &[FlowNo],
    flows: &mut [Values<'a>],
    runs: &mut [Run<'_>],
) -> Result<(), AllocError>
    requires set { IsSet setting.now }
    requires within { AreFlows setting.now.flat.now sequence.now }
    requires under_way { UnderWay setting.now flows.old runs.old }
    requires whole { AreWhole setting.now flows.old }
    ensures under_way { OnOk result (UnderWay setting.now flows.new runs.new) }
    ensures whole { OnOk result (AreWhole setting.now flows.new) }
{
    for flow in sequence {
        fill_ready(alloc, setting, *flow, flows, runs)?;
    }
    Ok(())
}

/// The flows that are not full, in the order of causality.
pub(crate) fn rest_of(
    alloc: Global,
    setting: &Setting<'_>,
    flows: &[Values<'_>],
) -> Result<Vec<FlowNo>, AllocError>
    requires set { IsSet setting.now }
    requires count { length flows.now ≡ length setting.now.flat.now.flows }
    requires whole { AreWhole setting.now flows.now }
    ensures rest { IfOk result (λ rest. IsRest setting.now rest.items flows.now) }
    ensures at { IfOk result (λ rest. AreAt setting.now rest.items flows.now 0) }
    ensures few { IfOk result (λ rest. length rest.items < 2 ^ 32) }
{
    let mut rest = Vec::new(alloc);
    for flow in setting.order {
        if !is_full(setting, flows, flow.0 as usize) {
            rest.push(*flow)?;
        }
    }
    Ok(rest)
}

/// Gives all flows their values: those that depend on no cycle flow by flow, and then the others
/// date by date.
pub(crate) fn fill_all<'a>(
    alloc: Global,
    setting: &Setting<'a>,
    flows: &mut [Values<'a>],
    runs: &mut [Run<'_>],
) -> Result<(), AllocError>
    requires set { IsSet setting.now }
    requires under_way { UnderWay setting.now flows.old runs.old }
    requires empty { (i : ℕ) → values_of flows.old i ≡ [] }
    ensures under_way { OnOk result (UnderWay setting.now flows.new runs.new) }
    ensures full { OnOk result (AreFull setting.now flows.new) }
{
    let sequence = along_uses(alloc, setting.flat)?;
    fill_wholes(alloc, setting, sequence.as_slice(), flows, runs)?;
    let rest = rest_of(alloc, setting, flows)?;
    by_date(alloc, setting, rest.as_slice(), flows, runs)
}
