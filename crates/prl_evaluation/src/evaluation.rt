//! The flows of a flat program.

ghost use Rattle.std.specs.Prelude.{◌≡◌, ◌<◌, ◌≤◌, ◌^◌, ℕ, [], length, slice_get, Some, IfOk, IfErr};
ghost use Rattle.prl_flow.specs.Vocabulary.{HaveBodies, values_before, AreClocks, HasRows, clock_of, values_of, IsOrder};
ghost use Rattle.prl_flow.specs.declared.programs.App.{App as AnyApp};
ghost use Rattle.prl_base.specs.Clocks.{IsClock};
ghost use Rattle.prl_causal.specs.Conditions.{AreTypedRows};
ghost use Rattle.prl_evaluation.specs.Evaluations.{AreSolution, IsFlowFault};
ghost use Rattle.prl_evaluation.specs.code.Fronts.{IsSet};
ghost use Rattle.prl_evaluation.specs.code.Runs.{HasBodyNamed, IsNew};
ghost use Rattle.prl_evaluation.specs.declared.runs.Run.{Run as AnyRun};

use crate::runs::{Run, new_run};
use crate::settings::Setting;
use crate::tables::{FlowTable, Values};
use crate::wholes::fill_all;
use prl_base::{Clock, Limit, What};
use prl_body::Bodies;
use prl_causal::{programs_have_one_solution, solutions_are_of_their_clocks};
use prl_flow::{App, Clocks, Flat, Order, Sensors, dates_before};
use std::alloc::{AllocError, Global};

/// The most values that `evaluate` computes, of all flows together.
pub const MAX_VALUES: u64 = 4_000_000;

/// Why flows are not computed.
#[derive(Clone, Copy)]
pub enum FlowFault {
    /// The flows have more than 4,000,000 values.
    Limit(Limit),
    Memory,
}

/// How many values flows on these clocks have before `until`, all together.
fn count_values(until: u64, clocks: &[Clock]) -> u64
    requires until { until < 2 ^ 31 }
    requires few { length clocks.now < 2 ^ 32 }
    requires clocks { (i : ℕ) → i < length clocks.now → IsClock (clock_of clocks.now i) }
    ensures { result ≡ values_before until clocks.now }
{
    let mut values = 0;
    for clock in clocks {
        values += dates_before(until, *clock);
    }
    values
}

/// For each of these clocks no value yet, with room for those before `until`.
fn empty_flows<'a>(
    alloc: Global,
    clocks: &[Clock],
    until: u64,
) -> Result<Vec<Values<'a>>, AllocError>
    requires clocks { (i : ℕ) → i < length clocks.now → IsClock (clock_of clocks.now i) }
    ensures number { IfOk result (λ v. length v.items ≡ length clocks.now) }
    ensures empty { IfOk result (λ v. (i : ℕ) → values_of v.items i ≡ []) }
{
    let mut flows = Vec::with_capacity(alloc, clocks.len())?;
    for clock in clocks {
        let count = dates_before(until, *clock) as usize;
        flows.push(Values::with_capacity(alloc, count)?)?;
    }
    Ok(flows)
}

/// The runs of the applications before their first steps.
fn new_runs<'a>(alloc: Global, apps: &[App], bodies: &'a Bodies) -> Result<Vec<Run<'a>>, AllocError>
    requires { (k : ℕ) (app : AnyApp) → slice_get apps.now k ≡ Some app → HasBodyNamed bodies.now app }
    ensures number { IfOk result (λ v. length v.items ≡ length apps.now) }
    ensures each { IfOk result (λ v. (k : ℕ) (app : AnyApp) (r : AnyRun) → slice_get apps.now k ≡ Some app → slice_get v.items k ≡ Some r → IsNew bodies.now app r) }
{
    let mut runs = Vec::with_capacity(alloc, apps.len())?;
    for app in apps {
        runs.push(new_run(alloc, app, bodies)?)?;
    }
    Ok(runs)
}

/// The solution of the program.
fn solution<'a>(alloc: Global, setting: &Setting<'a>) -> Result<FlowTable<'a>, AllocError>
    requires { IsSet setting.now }
    ensures { IfOk result (AreSolution setting.now.flat.now setting.now.clocks.now setting.now.bodies.now setting.now.sensors.now setting.now.until) }
{
    solutions_are_of_their_clocks();
    programs_have_one_solution();
    let mut flows = empty_flows(alloc, setting.clocks, setting.until)?;
    let mut runs = new_runs(alloc, setting.flat.apps(), setting.bodies)?;
    fill_all(alloc, setting, &mut flows, &mut runs)?;
    Ok(FlowTable::new(flows))
}

/// The flows of the program below `until`, in ticks: its one solution over these clocks for these
/// bodies and rows. Each application makes one step at each of its dates; at most 16 bytes are
/// taken for a value, and none for the values of a flow that only hands rows on.
pub fn evaluate<'a>(
    alloc: Global,
    flat: &'a Flat,
    clocks: &'a Clocks,
    order: &'a Order,
    bodies: &'a Bodies,
    sensors: &'a Sensors,
    until: u64,
) -> Result<FlowTable<'a>, FlowFault>
    requires until { until < 2 ^ 31 }
    requires clocks { AreClocks flat.now clocks.now.of }
    requires order { IsOrder flat.now order.now.flows }
    requires bodies { HaveBodies flat.now bodies.now }
    requires rows { HasRows flat.now clocks.now.of sensors.now until }
    requires types { AreTypedRows flat.now sensors.now }
    ensures solution { IfOk result (AreSolution flat.now clocks.now.of bodies.now sensors.now until) }
    ensures few { IfOk result (λ _. values_before until clocks.now.of ≤ MAX_VALUES) }
    ensures fault { IfErr result (IsFlowFault (values_before until clocks.now.of)) }
{
    let setting = Setting {
        flat,
        clocks: clocks.of.as_slice(),
        order: order.flows.as_slice(),
        bodies,
        sensors,
        until,
    };
    // A program has fewer than 2^32 flows, so the sum fits.
    prove!(flat.flows().len() < 1 << 32);
    let values = count_values(until, setting.clocks);
    if values > MAX_VALUES {
        return Err(FlowFault::Limit(Limit {
            what: What::Values,
            found: values,
        }));
    }
    match solution(alloc, &setting) {
        Ok(table) => Ok(table),
        Err(_) => Err(FlowFault::Memory),
    }
}
