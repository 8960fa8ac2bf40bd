//! The edges: from each input port back to what gives its values.

ghost use Rattle.std.specs.Prelude.{◌≡◌, ◌+◌, ◌<◌, ◌≤◌, ◌∷◌, [], IfOk, length};
ghost use Rattle.prl_flow.specs.Vocabulary.{AreClocks, HasNoCycle};
ghost use Rattle.prl_plan.specs.declared.limits.TheConstants.{MAX_EDGES, MAX_TASKS};
ghost use Rattle.prl_graph.specs.Edges.{AreEdgesOf, IsEdgeOf};
ghost use Rattle.prl_graph.specs.Ports.{InputPort, actuator_no, actuator_ports, application_ports, argument_ports, node_no, ports_of, task_count};
ghost use Rattle.prl_graph.specs.code.Back.{IsStepBack};
ghost use Rattle.prl_graph.specs.code.Steps.{AddsEdges, AreArgumentsOf, AreWithin, EndsAt, GivesValues, HasProducer};

use crate::tasks::clock_of;
use prl_base::{FlowNo, Op, Seq, TaskNo};
use prl_flow::{Arg, Clocks, Def, Flat};
use prl_plan::{Edge, Producer};
use std::alloc::{AllocError, Global};

/// A step of a way back.
enum Back {
    /// To the flow that this one copies.
    Copy(FlowNo),
    /// Over an operator, to the flow that it stands on.
    Operator(Op, FlowNo),
    /// There is none: the flow is made of no other.
    End,
}

/// The way back from a flow: the operators that it passes, and the flow that it ends at.
#[derive(Drop)]
struct WayBack {
    ops: Seq<Op>,
    source: FlowNo,
}

/// The step back from the flow.
fn step_back(flat: &Flat, at: FlowNo) -> Back
    requires { at.0 < length flat.now.flows }
    ensures { IsStepBack flat.now at.0 result }
{
    let flows = flat.flows();
    let flow = &flows[at.0 as usize];
    match flow.def {
        Def::Copy(of) => Back::Copy(of),
        Def::Op { op, of } => Back::Operator(op, of),
        Def::Sensor(_) => Back::End,
        Def::Const(_) => Back::End,
        Def::Apply { .. } => Back::End,
    }
}

/// The way back from the flow through copies and operators to a flow that is made of no other.
fn way_back(alloc: Global, flat: &Flat, from: FlowNo) -> Result<WayBack, AllocError>
    requires within { from.0 < length flat.now.flows }
    requires causal { HasNoCycle flat.now }
    ensures { IfOk result (λ way. EndsAt flat.now from.0 way.ops way.source.0) }
{
    let flows = flat.flows();
    let mut ops = Vec::new(alloc);
    let mut at = from;
    for _ in 0..flows.len() {
        match step_back(flat, at) {
            Back::Copy(of) => at = of,
            Back::Operator(op, of) => {
                ops.push(op)?;
                at = of;
            }
            Back::End => {
                return Ok(WayBack {
                    ops: Seq::new(ops),
                    source: at,
                });
            }
        }
    }
    unreachable!()
}

/// What gives the values of a flow that is made of no other.
fn producer(flat: &Flat, source: FlowNo) -> Producer
    requires source { HasProducer flat.now source.0 }
    requires few { task_count flat.now ≤ MAX_TASKS }
    ensures { GivesValues flat.now source.0 result }
{
    match flat.flows()[source.0 as usize].def {
        Def::Sensor(k) => Producer::Port {
            task: TaskNo(k),
            out: 0,
        },
        Def::Const(value) => Producer::Constant(value),
        Def::Apply { app, out } => Producer::Port {
            task: TaskNo(flat.ins().len() as u32 + app),
            out,
        },
        Def::Copy(_) | Def::Op { .. } => unreachable!(),
    }
}

/// The edge into this port of this task, which reads the flow.
fn edge_into(
    alloc: Global,
    flat: &Flat,
    clocks: &Clocks,
    to: u32,
    port: u32,
    flow: FlowNo,
) -> Result<Edge, AllocError>
    requires clocks { AreClocks flat.now clocks.now.of }
    requires causal { HasNoCycle flat.now }
    requires few { task_count flat.now ≤ MAX_TASKS }
    requires within { flow.0 < length flat.now.flows }
    ensures { IfOk result (IsEdgeOf flat.now clocks.now.of (record { task = to; port = port; flow = flow.0 })) }
{
    let way = way_back(alloc, flat, flow)?;
    let source = way.source;
    let from = producer(flat, source);
    let flows = flat.flows();
    let made = &flows[source.0 as usize];
    Ok(Edge {
        from,
        to: TaskNo(to),
        port,
        ops: way.ops,
        period: clock_of(clocks, source).period,
        ty: made.ty,
    })
}

/// Adds the edge into this port of this task, which reads the flow.
fn push_edge(
    alloc: Global,
    flat: &Flat,
    clocks: &Clocks,
    to: u32,
    port: u32,
    flow: FlowNo,
    edges: &mut Vec<Edge>,
) -> Result<(), AllocError>
    requires clocks { AreClocks flat.now clocks.now.of }
    requires causal { HasNoCycle flat.now }
    requires few { task_count flat.now ≤ MAX_TASKS }
    requires within { flow.0 < length flat.now.flows }
    ensures { IfOk result (λ done. AddsEdges flat.now clocks.now.of (record { task = to; port = port; flow = flow.0 } ∷ []) edges.old.items edges.new.items) }
{
    let edge = edge_into(alloc, flat, clocks, to, port, flow)?;
    edges.push(edge)?;
    Ok(())
}

/// Adds the edges into the ports of an application, whose task is `to`.
fn push_arguments(
    alloc: Global,
    flat: &Flat,
    clocks: &Clocks,
    to: u32,
    args: &[Arg],
    edges: &mut Vec<Edge>,
) -> Result<(), AllocError>
    requires clocks { AreClocks flat.now clocks.now.of }
    requires causal { HasNoCycle flat.now }
    requires few { task_count flat.now ≤ MAX_TASKS }
    requires few_args { length args.now ≤ MAX_EDGES }
    requires within { AreWithin args.now (length flat.now.flows) }
    ensures { IfOk result (λ done. AddsEdges flat.now clocks.now.of (argument_ports to 0 args.now) edges.old.items edges.new.items) }
{
    for j in 0..args.len() {
        push_edge(alloc, flat, clocks, to, j as u32, args[j].flow, edges)?;
    }
    Ok(())
}

/// The arguments of an application.
fn arguments(flat: &Flat, k: usize) -> &[Arg]
    requires within { k < length flat.now.apps }
    requires few_edges { length (ports_of flat.now) ≤ MAX_EDGES }
    ensures are { AreArgumentsOf flat.now k result.now }
    ensures few { length result.now ≤ MAX_EDGES }
    ensures within { AreWithin result.now (length flat.now.flows) }
{
    let apps = flat.apps();
    let app = &apps[k];
    app.args.as_slice()
}

/// Adds the edges into the ports of all applications.
fn push_applications(
    alloc: Global,
    flat: &Flat,
    clocks: &Clocks,
    edges: &mut Vec<Edge>,
) -> Result<(), AllocError>
    requires clocks { AreClocks flat.now clocks.now.of }
    requires causal { HasNoCycle flat.now }
    requires few { task_count flat.now ≤ MAX_TASKS }
    requires few_edges { length (ports_of flat.now) ≤ MAX_EDGES }
    ensures { IfOk result (λ done. AddsEdges flat.now clocks.now.of (application_ports (node_no flat.now 0) flat.now.apps) edges.old.items edges.new.items) }
{
    let ins = flat.ins();
    let apps = flat.apps();
    for k in 0..apps.len() {
        let to = (ins.len() + k) as u32;
        push_arguments(alloc, flat, clocks, to, arguments(flat, k), edges)?;
    }
    Ok(())
}

/// Adds the edges into the actuators.
fn push_actuators(
    alloc: Global,
    flat: &Flat,
    clocks: &Clocks,
    edges: &mut Vec<Edge>,
) -> Result<(), AllocError>
    requires clocks { AreClocks flat.now clocks.now.of }
    requires causal { HasNoCycle flat.now }
    requires few { task_count flat.now ≤ MAX_TASKS }
    ensures { IfOk result (λ done. AddsEdges flat.now clocks.now.of (actuator_ports (actuator_no flat.now 0) flat.now.outs) edges.old.items edges.new.items) }
{
    let ins = flat.ins();
    let apps = flat.apps();
    let outs = flat.outs();
    for k in 0..outs.len() {
        let to = (ins.len() + apps.len() + k) as u32;
        push_edge(alloc, flat, clocks, to, 0, outs[k], edges)?;
    }
    Ok(())
}

/// All edges, by consumer and then by port.
pub(crate) fn all_edges(
    alloc: Global,
    flat: &Flat,
    clocks: &Clocks,
) -> Result<Vec<Edge>, AllocError>
    requires clocks { AreClocks flat.now clocks.now.of }
    requires causal { HasNoCycle flat.now }
    requires few { task_count flat.now ≤ MAX_TASKS }
    requires few_edges { length (ports_of flat.now) ≤ MAX_EDGES }
    ensures { IfOk result (λ edges. AreEdgesOf flat.now clocks.now.of (ports_of flat.now) edges.items) }
{
    let mut edges = Vec::new(alloc);
    push_applications(alloc, flat, clocks, &mut edges)?;
    push_actuators(alloc, flat, clocks, &mut edges)?;
    Ok(edges)
}
