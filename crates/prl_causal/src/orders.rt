//! Orders of flows, each after those that it uses.
//!
//! A flow is placed after what it uses: while something that it uses is not placed, that is looked at first. What is looked
//! at stands on a stack, each flow used by the one below it, so a flow that is met there again is on a cycle. Each flow is
//! opened once and each argument of an application found placed once.

ghost use Rattle.std.specs.Prelude.{◌≡◌, ◌≢◌, ◌<◌, ◌++◌, ◌∷◌, [], ℕ, IfOk, MatchOption, false, length, replicate, slice_index_or, true};
ghost use Rattle.prl_flow.specs.Uses.{IsArgument};
ghost use Rattle.prl_causal.specs.code.Parts.{ArePlaced, AreSeen, IsMarked, IsMissing, IsUnplaced, IsWhole};
ghost use Rattle.prl_causal.specs.code.Sorting.{IsSorted, left};
ghost use Rattle.prl_causal.specs.code.Sources.{AreSources, AreWithin, IsSource, Names, UsesBy};
ghost use Rattle.prl_causal.specs.code.Ways.{HasWayBack};

use crate::sources::{Source, arguments};
use prl_base::FlowNo;
use prl_flow::{Arg, Flat};
use std::alloc::{AllocError, Global};

/// How many arguments, from the first on, are placed, where the first `seen` are.
fn placed_count(args: &[Arg], placed: &[bool], seen: usize) -> usize
    requires within { AreWithin args.now (length placed.now) }
    requires seen { ArePlaced args.now placed.now seen }
    ensures placed { ArePlaced args.now placed.now result }
    ensures next { result ≢ length args.now → IsUnplaced args.now placed.now result }
{
    for i in seen..args.len() {
        if !placed[args[i].flow.0 as usize] {
            return i;
        }
    }
    args.len()
}

/// The first argument of the application that is not placed. It looks at each that is placed but once: `seen` has the
/// number of those that were found placed, for each application.
fn missing_argument(flat: &Flat, app: u32, placed: &[bool], seen: &mut [usize]) -> Option<FlowNo>
    requires len { length placed.now ≡ length flat.now.flows }
    requires within { app < length flat.now.apps }
    requires apps { length seen.old ≡ length flat.now.apps }
    requires seen { AreSeen flat.now placed.now seen.old }
    ensures seen { AreSeen flat.now placed.now seen.new }
    ensures missing { MatchOption result ((i : ℕ) → IsArgument flat.now app i → IsMarked placed.now i) (IsMissing (IsArgument flat.now app) placed.now) }
{
    let args = arguments(flat, app);
    let count = placed_count(args, placed, seen[app as usize]);
    seen[app as usize] = count;
    if count < args.len() {
        Some(args[count].flow)
    } else {
        None
    }
}

/// A flow that is used and not placed.
fn missing(flat: &Flat, source: &Source, placed: &[bool], seen: &mut [usize]) -> Option<FlowNo>
    requires len { length placed.now ≡ length flat.now.flows }
    requires there { IsSource flat.now source.now }
    requires apps { length seen.old ≡ length flat.now.apps }
    requires seen { AreSeen flat.now placed.now seen.old }
    ensures seen { AreSeen flat.now placed.now seen.new }
    ensures missing { MatchOption result ((i : ℕ) → Names flat.now source.now i → IsMarked placed.now i) (IsMissing (Names flat.now source.now) placed.now) }
{
    match source {
        Source::Nothing => None,
        Source::Flow(of) => {
            if placed[of.0 as usize] {
                None
            } else {
                Some(*of)
            }
        }
        Source::Arguments(app) => missing_argument(flat, *app, placed, seen),
    }
}

/// Looks at a flow that was on top of the stack: places it if all that it uses is placed, else lays it back with a flow
/// that it uses. False where that flow is on the stack.
fn step(
    flat: &Flat,
    sources: &[Source],
    top: u32,
    order: &mut Vec<FlowNo>,
    stack: &mut Vec<u32>,
    placed: &mut [bool],
    opened: &mut [bool],
    seen: &mut [usize],
) -> Result<bool, AllocError>
    requires sources { AreSources flat.now sources.now }
    requires sorted { IsSorted flat.now sources.now order.old.items placed.old opened.old seen.old (stack.old.items ++ top ∷ []) }
    ensures sorted { IfOk result (λ on. on ≡ true → IsSorted flat.now sources.now order.new.items placed.new opened.new seen.new stack.new.items) }
    ensures less { IfOk result (λ on. on ≡ true → left (length sources.now) opened.new order.new.items stack.new.items < left (length sources.now) opened.old order.old.items (stack.old.items ++ top ∷ [])) }
    ensures kept { IfOk result (λ on. on ≡ true → (i : ℕ) → IsMarked opened.old i → IsMarked opened.new i) }
    ensures back { IfOk result (λ on. on ≡ false → HasWayBack (UsesBy flat.now sources.now)) }
{
    if placed[top as usize] {
        return Ok(true);
    }
    match missing(flat, &sources[top as usize], placed, seen) {
        Some(used) => {
            if opened[used.0 as usize] {
                return Ok(false);
            }
            opened[used.0 as usize] = true;
            stack.push(top)?;
            stack.push(used.0)?;
        }
        None => {
            order.push(FlowNo(top))?;
            placed[top as usize] = true;
        }
    }
    Ok(true)
}

/// Places the flow and all that uses lead to from it. False where there is a cycle.
fn visit(
    alloc: Global,
    flat: &Flat,
    sources: &[Source],
    from: u32,
    order: &mut Vec<FlowNo>,
    placed: &mut [bool],
    opened: &mut [bool],
    seen: &mut [usize],
) -> Result<bool, AllocError>
    requires sources { AreSources flat.now sources.now }
    requires within { from < length sources.now }
    requires sorted { IsSorted flat.now sources.now order.old.items placed.old opened.old seen.old [] }
    ensures sorted { IfOk result (λ on. on ≡ true → IsSorted flat.now sources.now order.new.items placed.new opened.new seen.new []) }
    ensures opened { IfOk result (λ on. on ≡ true → IsMarked opened.new from) }
    ensures kept { IfOk result (λ on. on ≡ true → (i : ℕ) → IsMarked opened.old i → IsMarked opened.new i) }
    ensures back { IfOk result (λ on. on ≡ false → HasWayBack (UsesBy flat.now sources.now)) }
{
    if opened[from as usize] {
        return Ok(true);
    }
    opened[from as usize] = true;
    let mut stack = vec![in alloc; from]?;
    while let Some(top) = stack.pop() {
        if !step(flat, sources, top, order, &mut stack, placed, opened, seen)? {
            return Ok(false);
        }
    }
    Ok(true)
}

/// Places all flows. False where there is a cycle.
fn visit_all(
    alloc: Global,
    flat: &Flat,
    sources: &[Source],
    order: &mut Vec<FlowNo>,
    placed: &mut [bool],
    opened: &mut [bool],
    seen: &mut [usize],
) -> Result<bool, AllocError>
    requires sources { AreSources flat.now sources.now }
    requires sorted { IsSorted flat.now sources.now order.old.items placed.old opened.old seen.old [] }
    ensures whole { IfOk result (λ on. on ≡ true → IsWhole (UsesBy flat.now sources.now) (length sources.now) order.new.items) }
    ensures back { IfOk result (λ on. on ≡ false → HasWayBack (UsesBy flat.now sources.now)) }
{
    for from in 0..sources.len() {
        if !visit(
            alloc,
            flat,
            sources,
            from as u32,
            order,
            placed,
            opened,
            seen,
        )? {
            return Ok(false);
        }
    }
    Ok(true)
}

/// Marks of which none is set, for those that are placed and those that are opened, and how many arguments were seen of
/// each application: none.
fn no_marks(
    alloc: Global,
    flat: &Flat,
    flows: usize,
) -> Result<(Vec<bool>, Vec<bool>, Vec<usize>), AllocError>
    ensures placed { IfOk result (λ marks. marks.0.items ≡ replicate flows false) }
    ensures opened { IfOk result (λ marks. marks.1.items ≡ replicate flows false) }
    ensures seen { IfOk result (λ marks. marks.2.items ≡ replicate (length flat.now.apps) 0) }
{
    let placed = vec![in alloc; false; flows]?;
    let opened = vec![in alloc; false; flows]?;
    let seen = vec![in alloc; 0; flat.apps().len()]?;
    Ok((placed, opened, seen))
}

/// The flows, each after those that it uses, where there is such an order.
pub fn order(
    alloc: Global,
    flat: &Flat,
    sources: &[Source],
) -> Result<Option<Vec<FlowNo>>, AllocError>
    requires { AreSources flat.now sources.now }
    ensures { IfOk result (λ found. MatchOption found (HasWayBack (UsesBy flat.now sources.now)) (λ order. IsWhole (UsesBy flat.now sources.now) (length sources.now) order.items)) }
{
    let mut order = Vec::new(alloc);
    let mut marks = no_marks(alloc, flat, sources.len())?;
    if visit_all(
        alloc,
        flat,
        sources,
        &mut order,
        marks.0.as_mut_slice(),
        marks.1.as_mut_slice(),
        marks.2.as_mut_slice(),
    )? {
        Ok(Some(order))
    } else {
        Ok(None)
    }
}
