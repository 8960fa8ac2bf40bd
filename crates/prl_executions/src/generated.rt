//! Mode `generate`: a program is made from a number and a size; the dispatched list of its plan is replayed, its tasks run on a
//! board, and a line sums up both.

ghost use Rattle.std.specs.Prelude.{◌≡◌, ◌≤◌, List, Some, IfOk, length};
ghost use Rattle.prl_flow.specs.declared.programs.OutFlow.{OutFlow as AnyFlow};
ghost use Rattle.prl_replay.specs.Shown.{AreShown};
ghost use Rattle.prl_rule.specs.declared.views.Constants.{Constants};
ghost use Rattle.prl_stages.specs.Given.{generated};
ghost use Rattle.prl_stages.specs.Ran.{IsSummary, sum_of, with_values};
ghost use Rattle.prl_executions.specs.Ready.{IsReady};
ghost use Rattle.prl_executions.specs.code.Generated.{IsReplayed};
ghost use Rattle.prl_calls.specs.Stops.{given_of};

use crate::lines::summary;
use crate::ready::Ready;
use crate::running::closed_alone;
use prl_arguments::Gate;
use prl_base::Value;
use prl_board::Closed;
use prl_calls::{Request, Texts};
use prl_flow::OutFlow;
use prl_gen::{UNTIL, generate};
use prl_plan::{Placed, Plan, plan_facts, plan_is_one};
use prl_replay::{
    ReplayFault, Trace, dispatch, ended_boards_show_flows, replays_end_one_way, run_list,
    shown_flows,
};
use prl_stages::{MAX_BODIES, MAX_PROGRAM, Ran};
use std::alloc::{AllocError, Global};
use std::marker::Brand;
use std::sync::ledger::Blank;

/// The generated texts of a number and a size, as what the stages are asked about.
pub fn generated_request(alloc: Global, seed: u64, size: u32) -> Result<Request, AllocError>
    requires { (1 ≤ size) × (size ≤ 20) }
    ensures given { IfOk result (λ request. given_of request ≡ generated seed size) }
    ensures program { IfOk result (λ request. length request.texts.program.items ≤ MAX_PROGRAM) }
    ensures bodies { IfOk result (λ request. length request.texts.bodies.items ≤ MAX_BODIES) }
{
    let made = generate(alloc, seed, size)?;
    // Twenty lanes have some thousand bytes; for longer texts no memory is there.
    if made.program.len() as u64 > MAX_PROGRAM || made.bodies.len() as u64 > MAX_BODIES {
        return Err(AllocError);
    }
    let texts = Texts {
        program: made.program,
        bodies: made.bodies,
        sensors: made.sensors,
        schedule: Vec::new(alloc),
        table: Vec::new(alloc),
        cores: Vec::new(alloc),
    };
    Ok(Request {
        texts,
        named: true,
        listed: false,
        node: None,
        until: UNTIL as u32,
    })
}

/// What the replay of the dispatched list tells.
fn replayed(alloc: Global, request: &Request, ready: &Ready) -> Result<Trace, AllocError>
    requires { IsReady (given_of request.now) ready.now }
    ensures { IfOk result (λ trace. IsReplayed ready.now trace.reads trace.outputs) }
{
    plan_is_one(&ready.plan);
    plan_facts(&ready.plan, ready.horizon);
    replays_end_one_way();
    let events = dispatch(alloc, &ready.plan, ready.horizon)?;
    match run_list(
        alloc,
        &ready.plan,
        Placed::alone(&ready.plan),
        &ready.bodies,
        &ready.sensors,
        ready.horizon,
        &events,
    ) {
        Ok(trace) => Ok(trace),
        Err(ReplayFault::Memory) => Err(AllocError),
        Err(ReplayFault::Syntax(_)) => unreachable!(),
        Err(ReplayFault::Illegal { .. }) => unreachable!(),
        Err(ReplayFault::Unfinished { .. }) => unreachable!(),
    }
}

/// A sum with more values; no memory is there for a sum past 128 bits.
fn with_values(total: i128, values: &[Value]) -> Result<i128, AllocError>
    ensures { IfOk result (λ sum. sum ≡ with_values total values.now) }
{
    let mut sum = total;
    for value in values {
        if let Value::Int(number) = value {
            sum = sum.checked_add(i128::from(*number)).ok_or(AllocError)?;
        }
    }
    Ok(sum)
}

/// The sum of all values of flows.
fn sum_of(outs: &[OutFlow]) -> Result<i128, AllocError>
    ensures { IfOk result (λ sum. sum ≡ sum_of outs.now) }
{
    let mut sum: i128 = 0;
    for out in outs {
        sum = with_values(sum, out.values.as_slice())?;
    }
    Ok(sum)
}

/// The sum of all values that a closed board shows.
fn shown_sum(alloc: Global, plan: &Plan, closed: &Closed) -> Result<i128, AllocError>
    requires { (k : Constants) × (closed.now.constants ≡ Some k) × (k.plan ≡ plan.now) }
    ensures { IfOk result (λ sum. (outs : List AnyFlow) × AreShown closed.now plan.now.graph outs × (sum ≡ sum_of outs)) }
{
    let flows = shown_flows(alloc, plan, closed)?;
    sum_of(&flows)
}

/// The summary of a replay and of a run of what the texts mean, with the board.
pub fn summary_of(
    alloc: Global,
    request: &Request,
    ready: &Ready,
    seed: u64,
    size: u32,
) -> Result<(Vec<u8>, Ran), AllocError>
    requires { IsReady (given_of request.now) ready.now }
    ensures { IfOk result (λ made. IsSummary (given_of request.now) seed size made.0.items made.1) }
{
    ended_boards_show_flows();
    plan_is_one(&ready.plan);
    let trace = replayed(alloc, request, ready)?;
    let blank = Blank::new(1);
    let closed = closed_alone::<Brand>(alloc, ready, Gate::Gated, blank)?;
    closed.stands();
    let sum = shown_sum(alloc, &ready.plan, &closed)?;
    let reads = trace.reads.len() as u64;
    let text = summary(
        alloc,
        seed,
        size,
        &ready.plan,
        ready.horizon.jobs,
        reads,
        sum,
    )?;
    Ok((text, Ran::Ended(closed)))
}
