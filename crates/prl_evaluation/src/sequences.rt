//! A sequence of flows in which each that depends on no cycle comes after all that it uses.
//! Nothing but speed rests on it.

ghost use Rattle.std.specs.Prelude.{◌≡◌, ◌<◌, Some, IfOk, IfSome, OnOk, length, slice_get};
ghost use Rattle.prl_evaluation.specs.code.Wholes.{AreFlows, AreVisited, Opens};
ghost use Rattle.prl_flow.specs.declared.programs.Arg.{Arg as AnyArg};

use prl_base::FlowNo;
use prl_flow::{Arg, Def, Flat};
use std::alloc::{AllocError, Global};

/// A flow that is visited, and how many of the flows that it uses were looked at.
#[derive(Clone, Copy)]
struct Visited {
    flow: FlowNo,
    looked_at: usize,
}

/// How many flows flow `i` uses, delayed or not.
fn use_count(flat: &Flat, i: usize) -> usize
    requires { i < length flat.now.flows }
{
    match flat.flows()[i].def {
        Def::Sensor(_) => 0,
        Def::Const(_) => 0,
        Def::Copy(_) => 1,
        Def::Op { .. } => 1,
        Def::Apply { app, .. } => flat.apps()[app as usize].args.len(),
    }
}

/// The flow, where it is asked for the first.
fn only(flow: FlowNo, n: usize) -> Option<FlowNo>
    ensures { IfSome result (λ one. one ≡ flow) }
{
    if n == 0 { Some(flow) } else { None }
}

/// The flow of number `n` among the arguments.
fn nth_argument(args: &[Arg], n: usize) -> Option<FlowNo>
    ensures { IfSome result (λ flow. (arg : AnyArg) × (slice_get args.now n ≡ Some arg) × (flow ≡ arg.flow)) }
{
    let arg = args.get(n)?;
    Some(arg.flow)
}

/// The flow of number `n` among those that flow `i` uses, delayed or not.
fn nth_used(flat: &Flat, i: usize, n: usize) -> Option<FlowNo>
    requires { i < length flat.now.flows }
    ensures { IfSome result (λ flow. flow.0 < length flat.now.flows) }
{
    let def = flat.flows()[i].def;
    match def {
        Def::Sensor(_) => None,
        Def::Const(_) => None,
        Def::Copy(of) => only(of, n),
        Def::Op { of, .. } => only(of, n),
        Def::Apply { app, .. } => nth_argument(flat.apps()[app as usize].args.as_slice(), n),
    }
}

/// How often at most a flow is looked at: once for each use and once at the end of its uses.
fn most_looks(flat: &Flat) -> usize {
    let mut looks: usize = 0;
    for i in 0..flat.flows().len() {
        looks = looks.saturating_add(use_count(flat, i)).saturating_add(1);
    }
    looks
}

/// Looks at the next flow that the visited one uses, and visits it where it was not seen; at the
/// end of its uses it is added to the sequence.
fn look(
    flat: &Flat,
    top: Visited,
    seen: &mut [bool],
    stack: &mut Vec<Visited>,
    sequence: &mut Vec<FlowNo>,
) -> Result<(), AllocError>
    requires flow { top.flow.0 < length flat.now.flows }
    requires seen { length seen.old ≡ length flat.now.flows }
    requires stack { AreVisited flat.now stack.old.items }
    requires sequence { AreFlows flat.now sequence.old.items }
    ensures stack { OnOk result (AreVisited flat.now stack.new.items) }
    ensures sequence { OnOk result (AreFlows flat.now sequence.new.items) }
{
    match nth_used(flat, top.flow.0 as usize, top.looked_at) {
        None => sequence.push(top.flow)?,
        Some(used) => {
            stack.push(Visited {
                flow: top.flow,
                looked_at: top.looked_at.saturating_add(1),
            })?;
            open(used, seen, stack)?;
        }
    }
    Ok(())
}

/// Visits the flow, where it was not seen.
fn open(flow: FlowNo, seen: &mut [bool], stack: &mut Vec<Visited>) -> Result<(), AllocError>
    requires flow { flow.0 < length seen.old }
    ensures opened { OnOk result (Opens flow stack.old.items stack.new.items) }
{
    if !seen[flow.0 as usize] {
        seen[flow.0 as usize] = true;
        stack.push(Visited { flow, looked_at: 0 })?;
    }
    Ok(())
}

/// Visits the flow, where it was not seen, and all that uses lead to from it.
fn visit(
    flat: &Flat,
    flow: FlowNo,
    looks: usize,
    seen: &mut [bool],
    stack: &mut Vec<Visited>,
    sequence: &mut Vec<FlowNo>,
) -> Result<(), AllocError>
    requires flow { flow.0 < length flat.now.flows }
    requires seen { length seen.old ≡ length flat.now.flows }
    requires stack { AreVisited flat.now stack.old.items }
    requires sequence { AreFlows flat.now sequence.old.items }
    ensures stack { OnOk result (AreVisited flat.now stack.new.items) }
    ensures sequence { OnOk result (AreFlows flat.now sequence.new.items) }
{
    open(flow, seen, stack)?;
    for _ in 0..looks {
        let Some(top) = stack.pop() else {
            return Ok(());
        };
        look(flat, top, seen, stack, sequence)?;
    }
    Ok(())
}

/// Flows of the program, each after all that it uses unless it depends on a cycle.
pub(crate) fn along_uses(alloc: Global, flat: &Flat) -> Result<Vec<FlowNo>, AllocError>
    ensures { IfOk result (λ sequence. AreFlows flat.now sequence.items) }
{
    let number = flat.flows().len();
    // A program has fewer than 2^32 flows.
    prove!(number < 1 << 32);
    let looks = most_looks(flat);
    let mut seen = vec![in alloc; false; number]?;
    let mut stack = Vec::new(alloc);
    let mut sequence = Vec::with_capacity(alloc, number)?;
    for i in 0..number {
        visit(
            flat,
            FlowNo(i as u32),
            looks,
            seen.as_mut_slice(),
            &mut stack,
            &mut sequence,
        )?;
    }
    Ok(sequence)
}
