//! The constraints of a flat program, taken one after another.

ghost use Rattle.std.specs.Prelude.{◌≡◌, ◌≤◌, ◌<◌, ◌++◌, ◌∷◌, ℕ, List, [], length, map, Some, slice_get, IfErr, IfOk, OnOk};
ghost use Rattle.prl_base.specs.declared.values.Ty.{Ty};
ghost use Rattle.prl_ast.specs.InRange.{IfThere, IsRate};
ghost use Rattle.prl_flow.specs.Programs.{IsWellDefined};
ghost use Rattle.prl_flow.specs.declared.programs.Arg.{Arg};
ghost use Rattle.prl_clock.specs.Constraints.{Placed, argument_constraint, constraints_of, definition_constraints, flow_constraints, output_constraints, rate_constraints, rated, related, timing_of_rate};
ghost use Rattle.prl_clock.specs.code.Progress.{IsReached, IsStop, IsStopped, told};
ghost use Rattle.prl_clock.specs.code.Standings.{IsLink};

use crate::calculus::ClockFault;
use crate::rates::{rate_flow, same_clock, timing_of_operator};
use crate::standings::Standings;
use crate::steps::{Refusal, relate};
use prl_ast::Rate;
use prl_base::{Limit, What};
use prl_flow::{Arg, Def, Flat, Timing};
use std::alloc::Global;

/// The refusal of a constraint at this byte of the source text.
fn told(refusal: Refusal, at: u32) -> ClockFault
    ensures { result ≡ told refusal at }
{
    match refusal {
        Refusal::Mismatch => ClockFault::Mismatch(at),
        Refusal::Limit => ClockFault::Limit(Limit {
            what: What::Clock,
            found: 2_147_483_648,
        }),
        Refusal::Memory => ClockFault::Memory,
    }
}

/// Takes the constraint that flow `x` is `link` over flow `y`.
fn relate_at(
    alloc: Global,
    flat: &Flat,
    standings: &mut Standings,
    x: usize,
    y: usize,
    link: &Timing,
    at: u32,
) -> Result<(), ClockFault>
    requires reached { (cs : List Placed) × IsReached flat.now cs standings.old }
    requires link { IsLink link.now }
    requires x { x < length flat.now.flows }
    requires y { y < length flat.now.flows }
    ensures reached { (cs : List Placed) → IsReached flat.now cs standings.old
        → OnOk result (IsReached flat.now (cs ++ record { constraint = related x y link.now; at = at } ∷ []) standings.new) }
    ensures stopped { (cs : List Placed) → IsReached flat.now cs standings.old
        → IfErr result (IsStopped cs (record { constraint = related x y link.now; at = at } ∷ [])) }
{
    match relate(alloc, standings, x, y, link) {
        Ok(()) => Ok(()),
        Err(refusal) => Err(told(refusal, at)),
    }
}

/// Takes the constraint that flow `x` has the rate.
fn rate_at(
    flat: &Flat,
    standings: &mut Standings,
    x: usize,
    rate: &Rate,
    at: u32,
) -> Result<(), ClockFault>
    requires reached { (cs : List Placed) × IsReached flat.now cs standings.old }
    requires rate { IsRate rate.now }
    requires x { x < length flat.now.flows }
    ensures reached { (cs : List Placed) → IsReached flat.now cs standings.old
        → OnOk result (IsReached flat.now (cs ++ record { constraint = rated x (timing_of_rate rate.now); at = at } ∷ []) standings.new) }
    ensures stopped { (cs : List Placed) → IsReached flat.now cs standings.old
        → IfErr result (IsStopped cs (record { constraint = rated x (timing_of_rate rate.now); at = at } ∷ [])) }
{
    match rate_flow(standings, x, rate) {
        Ok(()) => Ok(()),
        Err(refusal) => Err(told(refusal, at)),
    }
}

/// Takes the constraints that flow `x` has the clock of each argument.
fn relate_arguments(
    alloc: Global,
    flat: &Flat,
    standings: &mut Standings,
    x: usize,
    args: &[Arg],
) -> Result<(), ClockFault>
    requires reached { (cs : List Placed) × IsReached flat.now cs standings.old }
    requires x { x < length flat.now.flows }
    requires args { (j : ℕ) (arg : Arg) → slice_get args.now j ≡ Some arg → arg.flow.0 < length flat.now.flows }
    ensures reached { (cs : List Placed) → IsReached flat.now cs standings.old
        → OnOk result (IsReached flat.now (cs ++ map (argument_constraint x) args.now) standings.new) }
    ensures stopped { (cs : List Placed) → IsReached flat.now cs standings.old
        → IfErr result (IsStopped cs (map (argument_constraint x) args.now)) }
{
    let same = same_clock();
    for arg in args {
        relate_at(
            alloc,
            flat,
            standings,
            x,
            arg.flow.0 as usize,
            &same,
            arg.at.at,
        )?;
    }
    Ok(())
}

/// Takes the constraints of a flow that is this output of the application.
fn constrain_output(
    alloc: Global,
    flat: &Flat,
    standings: &mut Standings,
    x: usize,
    at: u32,
    app: u32,
    out: u32,
) -> Result<(), ClockFault>
    requires reached { (cs : List Placed) × IsReached flat.now cs standings.old }
    requires x { x < length flat.now.flows }
    requires app { app < length flat.now.apps }
    ensures reached { (cs : List Placed) → IsReached flat.now cs standings.old
        → OnOk result (IsReached flat.now (cs ++ output_constraints x at out (slice_get flat.now.apps app)) standings.new) }
    ensures stopped { (cs : List Placed) → IsReached flat.now cs standings.old
        → IfErr result (IsStopped cs (output_constraints x at out (slice_get flat.now.apps app))) }
{
    let app = &flat.apps()[app as usize];
    if out == 0 {
        relate_arguments(alloc, flat, standings, x, app.args.as_slice())
    } else {
        let first = app.outs.as_slice()[0].0 as usize;
        relate_at(alloc, flat, standings, x, first, &same_clock(), at)
    }
}

/// Takes the constraint of a flow's rate, where it has one.
fn constrain_rate(
    flat: &Flat,
    standings: &mut Standings,
    x: usize,
    at: u32,
    rate: &Option<Rate>,
) -> Result<(), ClockFault>
    requires reached { (cs : List Placed) × IsReached flat.now cs standings.old }
    requires x { x < length flat.now.flows }
    requires rate { IfThere IsRate rate.now }
    ensures reached { (cs : List Placed) → IsReached flat.now cs standings.old
        → OnOk result (IsReached flat.now (cs ++ rate_constraints x at rate.now) standings.new) }
    ensures stopped { (cs : List Placed) → IsReached flat.now cs standings.old
        → IfErr result (IsStopped cs (rate_constraints x at rate.now)) }
{
    match rate {
        Some(rate) => rate_at(flat, standings, x, rate, at),
        None => Ok(()),
    }
}

/// Takes the constraints of a flow's definition.
fn constrain_definition(
    alloc: Global,
    flat: &Flat,
    standings: &mut Standings,
    x: usize,
    at: u32,
    def: &Def,
) -> Result<(), ClockFault>
    requires reached { (cs : List Placed) × IsReached flat.now cs standings.old }
    requires x { x < length flat.now.flows }
    requires defined { (ty : Ty) × IsWellDefined flat.now x ty def.now }
    ensures reached { (cs : List Placed) → IsReached flat.now cs standings.old
        → OnOk result (IsReached flat.now (cs ++ definition_constraints flat.now x at def.now) standings.new) }
    ensures stopped { (cs : List Placed) → IsReached flat.now cs standings.old
        → IfErr result (IsStopped cs (definition_constraints flat.now x at def.now)) }
{
    match def {
        Def::Sensor(_) => Ok(()),
        Def::Const(_) => Ok(()),
        Def::Copy(of) => relate_at(alloc, flat, standings, x, of.0 as usize, &same_clock(), at),
        Def::Apply { app, out } => constrain_output(alloc, flat, standings, x, at, *app, *out),
        Def::Op { op, of } => {
            relate_at(
                alloc,
                flat,
                standings,
                x,
                of.0 as usize,
                &timing_of_operator(op),
                at,
            )
        }
    }
}

/// Takes the constraints of a flow.
fn constrain_flow(
    alloc: Global,
    flat: &Flat,
    standings: &mut Standings,
    x: usize,
) -> Result<(), ClockFault>
    requires reached { (cs : List Placed) × IsReached flat.now cs standings.old }
    requires x { x < length flat.now.flows }
    ensures reached { (cs : List Placed) → IsReached flat.now cs standings.old
        → OnOk result (IsReached flat.now (cs ++ flow_constraints flat.now x (slice_get flat.now.flows x)) standings.new) }
    ensures stopped { (cs : List Placed) → IsReached flat.now cs standings.old
        → IfErr result (IsStopped cs (flow_constraints flat.now x (slice_get flat.now.flows x))) }
{
    let flow = &flat.flows()[x];
    constrain_rate(flat, standings, x, flow.at.at, &flow.rate)?;
    constrain_definition(alloc, flat, standings, x, flow.at.at, &flow.def)
}

/// Where the flows stand after all constraints, or the first constraint that is refused.
pub fn solve(alloc: Global, flat: &Flat) -> Result<Standings, ClockFault>
    ensures reached { IfOk result (λ standings. IsReached flat.now (constraints_of flat.now) standings) }
    ensures stopped { IfErr result (IsStop [] (constraints_of flat.now)) }
{
    let count = flat.flows().len();
    let mut standings = Standings::alone(alloc, count)?;
    for x in 0..count {
        constrain_flow(alloc, flat, &mut standings, x)?;
    }
    Ok(standings)
}
