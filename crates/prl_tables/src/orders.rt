//! Whether the entries of a table keep the order of jobs along the edges.

ghost use Rattle.std.specs.Prelude.{◌≡◌, ◌+◌, ◌*◌, ◌/◌, ◌%◌, ◌<◌, ◌≤◌, ◌^◌, ℕ, List, pos, None, length, map, vec_items, IfErr, IfSome, OnOk};
ghost use Rattle.std.specs.Bool.{OnTrue, OnFalse};
ghost use Rattle.prl_plan.specs.Vocabulary.{operand_of, edge_at, release_at, IsPlan, PlanView};
ghost use Rattle.prl_plan.specs.Vocabulary.{preceding, ComesFrom};
ghost use Rattle.prl_plan.specs.declared.limits.TheConstants.{MAX_PREFIX};
ghost use Rattle.prl_plan.specs.declared.walks.Operand.TheVariants as operands;
ghost use Rattle.prl_tables.specs.declared.reading.TableFault.TheVariants as faults;
ghost use Rattle.prl_overlaps.specs.declared.entries.Entry.{Entry as AnyEntry};
ghost use Rattle.prl_overlaps.specs.Overlaps.{AreApart};
ghost use Rattle.prl_tables.specs.Checks.{IsFault};
ghost use Rattle.prl_tables.specs.Tables.{classes, ArePieces, AreWhole, KeepsOrder};
ghost use Rattle.prl_tables.specs.code.Sums.{sums_of, AreSums, IsBefore, IsFirstDisorderOn};

use crate::laws::{classes_are_early, pieces_are_short};
use crate::pieces::classes;
use crate::reading::TableFault;
use crate::sums::Sums;
use prl_base::{EdgeNo, TaskNo};
use prl_overlaps::Entry;
use prl_plan::{
    MAX_PREFIX, Operand, Plan, Producer, encoded_dates_keep_order, look_ups_fit, operands_precede,
};

/// What the test of the order rests on.
pub(crate) fn order_laws()
    ensures to { (plan : PlanView) → IsPlan plan → (e : ℕ) → e < length plan.graph.edges → (edge_at plan.graph e).to.0 < length plan.graph.tasks }
    ensures from { (plan : PlanView) → IsPlan plan → (e i : ℕ) → e < length plan.graph.edges → ComesFrom (edge_at plan.graph e).from i → i < length plan.graph.tasks }
    ensures reads { (plan : PlanView) → IsPlan plan → (e i n : ℕ) → e < length plan.graph.edges → ComesFrom (edge_at plan.graph e).from i → MAX_PREFIX ≤ n →
        (m : ℕ) × (operand_of (edge_at plan.graph e) n ≡ operands.From m) × (preceding (edge_at plan.graph e).ops (pos n) ≡ pos m) }
    ensures later { (plan : PlanView) → IsPlan plan → (i c k : ℕ) → i < length plan.graph.tasks →
        release_at plan i (c + k * classes plan.graph i) ≡ release_at plan i c + k * plan.graph.hyper }
    ensures time { (plan : PlanView) → IsPlan plan → (e i n m : ℕ) → e < length plan.graph.edges → ComesFrom (edge_at plan.graph e).from i →
        preceding (edge_at plan.graph e).ops (pos n) ≡ pos m → m / classes plan.graph i * plan.graph.hyper ≤ release_at plan (edge_at plan.graph e).to.0 n }
    ensures small { (plan : PlanView) → IsPlan plan → (entries : List AnyEntry) → ArePieces plan entries → AreWhole plan entries →
        (i c : ℕ) → i < length plan.graph.tasks → c < classes plan.graph i → ((sums_of entries i c).first < 2 ^ 33) × ((sums_of entries i c).end < 2 ^ 33) }
    ensures kept { (plan : PlanView) → IsPlan plan → (entries : List AnyEntry) → (e i c k m : ℕ) → e < length plan.graph.edges →
        ComesFrom (edge_at plan.graph e).from i → preceding (edge_at plan.graph e).ops (pos (c + k * classes plan.graph (edge_at plan.graph e).to.0)) ≡ pos m →
        IsBefore plan entries e i c k m → KeepsOrder plan entries e c }
    ensures broken { (plan : PlanView) → IsPlan plan → (entries : List AnyEntry) → ArePieces plan entries → AreWhole plan entries → (e i c k m : ℕ) →
        e < length plan.graph.edges → ComesFrom (edge_at plan.graph e).from i → c < classes plan.graph (edge_at plan.graph e).to.0 →
        preceding (edge_at plan.graph e).ops (pos (c + k * classes plan.graph (edge_at plan.graph e).to.0)) ≡ pos m →
        (IsBefore plan entries e i c k m → ⊥) → KeepsOrder plan entries e c → ⊥ }
{
    encoded_dates_keep_order();
    operands_precede();
    pieces_are_short();
}

/// The sums of a class of a task.
pub(crate) fn sums_at(
    plan: &Plan,
    entries: &[Entry],
    sums: &[Vec<Sums>],
    task: TaskNo,
    class: u64,
) -> Sums
    requires sums { AreSums plan.now entries.now (map vec_items sums.now) }
    requires task { task.0 < length plan.now.graph.tasks }
    requires class { class < classes plan.now.graph task.0 }
    ensures { result ≡ sums_of entries.now task.0 class }
{
    let _ = plan;
    let _ = entries;
    sums[task.0 as usize].as_slice()[class as usize]
}

/// The task that an edge goes to.
fn consumer(plan: &Plan, edge: EdgeNo) -> TaskNo
    requires { edge.0 < length plan.now.graph.edges }
    ensures task { result ≡ (edge_at plan.now.graph edge.0).to }
    ensures inside { result.0 < length plan.now.graph.tasks }
{
    order_laws();
    plan.graph().edges.as_slice()[edge.0 as usize].to
}

/// Where an edge comes from.
fn source(plan: &Plan, edge: EdgeNo) -> Producer
    requires { edge.0 < length plan.now.graph.edges }
    ensures source { result ≡ (edge_at plan.now.graph edge.0).from }
    ensures plan { IsPlan plan.now }
{
    plan.graph().edges.as_slice()[edge.0 as usize].from
}

/// The task that an edge comes from, unless it comes from a constant.
fn producer(plan: &Plan, edge: EdgeNo) -> Option<TaskNo>
    requires { edge.0 < length plan.now.graph.edges }
    ensures some { IfSome result (λ task. ComesFrom (edge_at plan.now.graph edge.0).from task.0) }
    ensures none { result ≡ None → (i : ℕ) → ComesFrom (edge_at plan.now.graph edge.0).from i → ⊥ }
{
    match source(plan, edge) {
        Producer::Port { task, .. } => Some(task),
        Producer::Constant(_) => None,
    }
}

/// The job of the consumer that comes so many hyperperiods after job `class` that none reads a
/// constant there.
fn later_job(plan: &Plan, edge: EdgeNo, class: u64) -> u64
    requires edge { edge.0 < length plan.now.graph.edges }
    requires class { class < classes plan.now.graph (edge_at plan.now.graph edge.0).to.0 }
    ensures job { result ≡ class + MAX_PREFIX * classes plan.now.graph (edge_at plan.now.graph edge.0).to.0 }
    ensures late { MAX_PREFIX ≤ result }
    ensures early { release_at plan.now (edge_at plan.now.graph edge.0).to.0 result < 2 ^ 52 }
{
    plan.graph();
    order_laws();
    classes_are_early();
    look_ups_fit();
    class + MAX_PREFIX * classes(plan, consumer(plan, edge))
}

/// The job of the producer that precedes that job.
fn preceding(plan: &Plan, edge: EdgeNo, from: TaskNo, class: u64) -> u64
    requires edge { edge.0 < length plan.now.graph.edges }
    requires from { ComesFrom (edge_at plan.now.graph edge.0).from from.0 }
    requires class { class < classes plan.now.graph (edge_at plan.now.graph edge.0).to.0 }
    ensures precedes { preceding (edge_at plan.now.graph edge.0).ops (pos (class + MAX_PREFIX * classes plan.now.graph (edge_at plan.now.graph edge.0).to.0)) ≡ pos result }
    ensures time { result / classes plan.now.graph from.0 * plan.now.graph.hyper < 2 ^ 52 }
{
    plan.graph();
    order_laws();
    look_ups_fit();
    let _ = from;
    match plan.operand(edge, later_job(plan, edge, class)) {
        Operand::From(m) => m,
        Operand::Const(_) => unreachable!(),
    }
}

/// Whether the class of the consumer keeps the order on an edge that comes from this task.
fn keeps_order(
    plan: &Plan,
    entries: &[Entry],
    sums: &[Vec<Sums>],
    edge: EdgeNo,
    from: TaskNo,
    class: u64,
) -> bool
    requires pieces { ArePieces plan.now entries.now }
    requires whole { AreWhole plan.now entries.now }
    requires sums { AreSums plan.now entries.now (map vec_items sums.now) }
    requires edge { edge.0 < length plan.now.graph.edges }
    requires from { ComesFrom (edge_at plan.now.graph edge.0).from from.0 }
    requires class { class < classes plan.now.graph (edge_at plan.now.graph edge.0).to.0 }
    ensures yes { OnTrue result (KeepsOrder plan.now entries.now edge.0 class) }
    ensures no { OnFalse result (KeepsOrder plan.now entries.now edge.0 class → ⊥) }
{
    order_laws();
    classes_are_early();
    let to = consumer(plan, edge);
    let hyper = plan.graph().hyper;
    let before = preceding(plan, edge, from, class);
    let per = classes(plan, from);
    let end = sums_at(plan, entries, sums, from, before % per).end + before / per * hyper;
    let first = sums_at(plan, entries, sums, to, class).first + MAX_PREFIX * hyper;
    end <= first
}

/// `Order` at the first class of the consumer that does not keep the order on an edge that comes
/// from this task.
fn check_edge(
    plan: &Plan,
    entries: &[Entry],
    sums: &[Vec<Sums>],
    edge: EdgeNo,
    from: TaskNo,
) -> Result<(), TableFault>
    requires pieces { ArePieces plan.now entries.now }
    requires whole { AreWhole plan.now entries.now }
    requires sums { AreSums plan.now entries.now (map vec_items sums.now) }
    requires edge { edge.0 < length plan.now.graph.edges }
    requires from { ComesFrom (edge_at plan.now.graph edge.0).from from.0 }
    ensures cause { IfErr result (λ fault. (c : ℕ) × (fault ≡ faults.Order edge c) × IsFirstDisorderOn plan.now entries.now edge.0 c) }
    ensures order { OnOk result ((c : ℕ) → c < classes plan.now.graph (edge_at plan.now.graph edge.0).to.0 → KeepsOrder plan.now entries.now edge.0 c) }
{
    for class in 0..classes(plan, consumer(plan, edge)) {
        if !keeps_order(plan, entries, sums, edge, from, class) {
            return Err(TableFault::Order { edge, job: class });
        }
    }
    Ok(())
}

/// `Order` at the first edge, and of its consumer's classes the first one, that does not keep the
/// order.
pub(crate) fn check_order(
    plan: &Plan,
    entries: &[Entry],
    sums: &[Vec<Sums>],
) -> Result<(), TableFault>
    requires pieces { ArePieces plan.now entries.now }
    requires whole { AreWhole plan.now entries.now }
    requires apart { AreApart plan.now.graph.hyper entries.now }
    requires sums { AreSums plan.now entries.now (map vec_items sums.now) }
    ensures cause { IfErr result (IsFault plan.now entries.now) }
    ensures order { OnOk result ((e c : ℕ) → e < length plan.now.graph.edges → c < classes plan.now.graph (edge_at plan.now.graph e).to.0 → KeepsOrder plan.now entries.now e c) }
{
    for e in 0..plan.graph().edges.len() {
        let edge = EdgeNo(e as u32);
        if let Some(from) = producer(plan, edge) {
            check_edge(plan, entries, sums, edge, from)?;
        }
    }
    Ok(())
}
