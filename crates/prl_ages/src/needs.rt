//! How many jobs of each task a job depends on: from the job back along the edges, until no count rises.

ghost use Rattle.std.specs.Prelude.{◌≡◌, ◌+◌, ◌<◌, ◌≤◌, ◌^◌, ◌||◌, ℕ, true, length, set, slice_index, IfOk, MatchOption};
ghost use Rattle.std.specs.Bool.{OnTrue, OnFalse};
ghost use Rattle.prl_plan.specs.Vocabulary.{edge_at, operand_of, ComesFrom, IsPlan, IsSmallOperand};
ghost use Rattle.prl_ages.specs.Ages.{released};
ghost use Rattle.prl_ages.specs.Chains.{is_along};
ghost use Rattle.prl_ages.specs.Needs.{AreNeeded};
ghost use Rattle.prl_ages.specs.code.Rising.{AreFound, LastReads, IsSettledOn, room};

use crate::chains::is_along;
use prl_base::{EdgeNo, TaskNo};
use prl_plan::{Operand, Plan, Producer};
use std::alloc::{AllocError, Global};

/// The task that an edge leads to.
pub(crate) fn consumer_of(plan: &Plan, e: EdgeNo) -> TaskNo
    requires { e.0 < length plan.now.graph.edges }
    ensures to { result ≡ (edge_at plan.now.graph e.0).to }
    ensures plan { IsPlan plan.now }
{
    plan.graph().edges.as_slice()[e.0 as usize].to
}

/// Where the values of an edge come from.
fn source_of(plan: &Plan, e: EdgeNo) -> Producer
    requires { e.0 < length plan.now.graph.edges }
    ensures from { result ≡ (edge_at plan.now.graph e.0).from }
    ensures plan { IsPlan plan.now }
{
    plan.graph().edges.as_slice()[e.0 as usize].from
}

/// The task that the values of an edge come from, if they come from one and the edge counts.
pub(crate) fn giver_of(plan: &Plan, chain: &[TaskNo], e: EdgeNo) -> Option<TaskNo>
    requires { e.0 < length plan.now.graph.edges }
    ensures giver { MatchOption result
        ((i : ℕ) → ComesFrom (edge_at plan.now.graph e.0).from i → is_along chain.now i (edge_at plan.now.graph e.0).to.0 ≡ true → ⊥)
        (λ task. ComesFrom (edge_at plan.now.graph e.0).from task.0 × (is_along chain.now task.0 (edge_at plan.now.graph e.0).to.0 ≡ true)) }
    ensures plan { IsPlan plan.now }
{
    let to = consumer_of(plan, e);
    match source_of(plan, e) {
        Producer::Port { task, .. } => {
            if is_along(chain, task, to) {
                Some(task)
            } else {
                None
            }
        }
        Producer::Constant(_) => None,
    }
}

/// Whether one of the two holds.
pub(crate) fn either(first: bool, second: bool) -> bool
    ensures { result ≡ (first || second) }
{
    first || second
}

/// The job of the producer that the last job counted of the consumer reads on an edge, if it reads one.
fn last_read(plan: &Plan, e: EdgeNo, counts: &[u64]) -> Option<u64>
    requires edge { e.0 < length plan.now.graph.edges }
    requires long { length counts.now ≡ length plan.now.graph.tasks }
    requires small { (n : ℕ) → slice_index counts.now (edge_at plan.now.graph e.0).to.0 ≡ n + 1 → IsSmallOperand (operand_of (edge_at plan.now.graph e.0) n) }
    ensures { MatchOption result ((j : ℕ) → LastReads plan.now.graph counts.now e.0 j → ⊥) (LastReads plan.now.graph counts.now e.0) }
{
    let to = consumer_of(plan, e);
    let count = counts[to.0 as usize];
    if count == 0 {
        return None;
    }
    match plan.operand(e, count - 1) {
        Operand::From(j) => Some(j),
        Operand::Const(_) => None,
    }
}

/// Counts the jobs of a task up to job `j`, and tells whether they were not all counted.
fn raise(counts: &mut [u64], task: TaskNo, j: u64) -> bool
    requires task { task.0 < length counts.old }
    requires small { j < 2 ^ 63 }
    ensures yes { OnTrue result ((counts.new ≡ set counts.old task.0 (j + 1)) × (slice_index counts.old task.0 ≤ j)) }
    ensures no { OnFalse result ((counts.new ≡ counts.old) × (j < slice_index counts.old task.0)) }
{
    if j < counts[task.0 as usize] {
        return false;
    }
    counts[task.0 as usize] = j + 1;
    true
}

/// Takes an edge into account, and tells whether a count rose.
fn take_edge(
    plan: &Plan,
    chain: &[TaskNo],
    e: EdgeNo,
    a: TaskNo,
    k: u64,
    counts: &mut [u64],
) -> bool
    requires edge { e.0 < length plan.now.graph.edges }
    requires found { AreFound plan.now.graph chain.now a.0 k counts.old }
    requires small { released plan.now.graph a.0 k < 2 ^ 62 }
    ensures found { AreFound plan.now.graph chain.now a.0 k counts.new }
    ensures rises { OnTrue result (room counts.new < room counts.old) }
    ensures same { OnFalse result (counts.new ≡ counts.old) }
    ensures settled { OnFalse result (IsSettledOn plan.now.graph chain.now counts.old e.0) }
{
    let _ = a;
    let _ = k;
    let giver = giver_of(plan, chain, e);
    match last_read(plan, e, counts) {
        None => false,
        Some(j) => match giver {
            Some(task) => raise(counts, task, j),
            None => false,
        },
    }
}

/// Takes each edge into account once, and tells whether a count rose.
fn round(plan: &Plan, chain: &[TaskNo], a: TaskNo, k: u64, counts: &mut [u64]) -> bool
    requires found { AreFound plan.now.graph chain.now a.0 k counts.old }
    requires small { released plan.now.graph a.0 k < 2 ^ 62 }
    ensures found { AreFound plan.now.graph chain.now a.0 k counts.new }
    ensures rises { OnTrue result (room counts.new < room counts.old) }
    ensures settled { OnFalse result ((e : ℕ) → e < length plan.now.graph.edges → IsSettledOn plan.now.graph chain.now counts.new e) }
{
    let mut rose = false;
    for e in 0..plan.graph().edges.len() {
        let took = take_edge(plan, chain, EdgeNo(e as u32), a, k, counts);
        rose = either(rose, took);
    }
    rose
}

/// Takes the edges into account until no count rises.
fn settle(plan: &Plan, chain: &[TaskNo], a: TaskNo, k: u64, counts: &mut [u64])
    requires found { AreFound plan.now.graph chain.now a.0 k counts.old }
    requires small { released plan.now.graph a.0 k < 2 ^ 62 }
    ensures found { AreFound plan.now.graph chain.now a.0 k counts.new }
    ensures settled { (e : ℕ) → e < length plan.now.graph.edges → IsSettledOn plan.now.graph chain.now counts.new e }
{
    'more: while round(plan, chain, a, k, counts) {}
}

/// The counts to begin with: of task `a` the jobs up to job `k`, and no other.
fn first_counts(
    alloc: Global,
    plan: &Plan,
    chain: &[TaskNo],
    a: TaskNo,
    k: u64,
) -> Result<Vec<u64>, AllocError>
    requires task { a.0 < length plan.now.graph.tasks }
    requires small { released plan.now.graph a.0 k < 2 ^ 62 }
    ensures { IfOk result (λ counts. AreFound plan.now.graph chain.now a.0 k counts.items) }
{
    let _ = chain;
    let mut counts = vec![in alloc; 0; plan.graph().tasks.len()]?;
    counts[a.0 as usize] = k + 1;
    Ok(counts)
}

/// By task, how many of its jobs there are up to the last one that reaches job `k` of task `a`, along a chain of tasks or, where
/// it is empty, along all edges.
pub fn needed(
    alloc: Global,
    plan: &Plan,
    chain: &[TaskNo],
    a: TaskNo,
    k: u64,
) -> Result<Vec<u64>, AllocError>
    requires task { a.0 < length plan.now.graph.tasks }
    requires small { released plan.now.graph a.0 k < 2 ^ 62 }
    ensures { IfOk result (λ counts. AreNeeded plan.now.graph chain.now a.0 k counts.items) }
{
    let _graph = plan.graph();
    let mut counts = first_counts(alloc, plan, chain, a, k)?;
    settle(plan, chain, a, k, counts.as_mut_slice());
    Ok(counts)
}
