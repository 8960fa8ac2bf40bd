//! The cells of one edge.

ghost use Rattle.std.specs.Prelude.{◌≡◌, ◌<◌, ◌≤◌, ◌^◌, ℕ, List, length, IfOk};
ghost use Rattle.prl_plan.specs.Vocabulary.{task_at, ComesFrom, number_at};
ghost use Rattle.prl_plan.specs.declared.tables.Window.{Window};
ghost use Rattle.prl_buffers.specs.code.Edges.{IsPlanned, jobs_of, ReleasesFit, AreReleases, EndsFit, AreEnds, IsCutOf, HasLeastCount, HasTaskCells, HasEdgeCells};
ghost use Rattle.prl_buffers.specs.code.Turns.{IsTurn};

use crate::turns::{Turn, sums_of, turn_of};
use prl_base::{Clock, Seq, TaskNo};
use prl_numbers::{least_count, shortest_repeat};
use prl_plan::{Dates, Edge, Producer, TaskGraph, Used, Word};
use std::alloc::{AllocError, Global};

/// The least number of cells of an edge, its used instances and the sums of their gaps.
#[derive(Drop)]
pub(crate) struct EdgeCells {
    pub count: u64,
    pub used: Used,
    pub sums: Seq<u64>,
}

/// The clock of a task.
fn clock_of(graph: &TaskGraph, i: TaskNo) -> Clock
    requires { i.0 < length graph.now.tasks }
    ensures { result ≡ (task_at graph.now i.0).clock }
{
    graph.tasks.as_slice()[i.0 as usize].clock
}

/// The shortest list of gaps that repeats as this one does. Takes no memory.
fn shortened(gaps: Seq<u64>) -> Seq<u64>
    requires { 1 ≤ length gaps }
    ensures { IsCutOf gaps result }
{
    let step = shortest_repeat(gaps.as_slice());
    let mut items = gaps.into_vec();
    items.truncate(step);
    Seq::new(items)
}

/// The encoded releases of the instances that the gaps lead to.
fn releases_of(
    alloc: Global,
    graph: &TaskGraph,
    dates: &Dates,
    i: TaskNo,
    first: u64,
    gaps: &[u64],
) -> Result<Vec<u64>, AllocError>
    requires task { i.0 < length graph.now.tasks }
    requires dates { i.0 < length dates.now }
    requires fit { ReleasesFit graph.now i.0 first gaps.now }
    ensures { IfOk result (λ list. AreReleases graph.now dates.now i.0 first gaps.now list.items) }
{
    let clock = clock_of(graph, i);
    let mut releases = Vec::with_capacity(alloc, gaps.len())?;
    let mut m = first;
    for gap in gaps {
        let release = clock.start + m * clock.period;
        releases.push(release.saturating_add(dates.window(i, m).lead))?;
        m += *gap;
    }
    Ok(releases)
}

/// The encoded deadlines of these jobs, numbered from one on.
fn ends_of(
    alloc: Global,
    graph: &TaskGraph,
    dates: &Dates,
    i: TaskNo,
    from: u64,
    jobs: &[u64],
) -> Result<Vec<u64>, AllocError>
    requires task { i.0 < length graph.now.tasks }
    requires dates { i.0 < length dates.now }
    requires some { 0 < (task_at graph.now i.0).clock.period }
    requires fit { EndsFit graph.now dates.now i.0 from jobs.now }
    ensures { IfOk result (λ list. AreEnds graph.now dates.now i.0 from jobs.now list.items) }
{
    let clock = clock_of(graph, i);
    let mut ends = Vec::with_capacity(alloc, jobs.len())?;
    for job in jobs {
        let n = from + *job;
        let deadline = clock.start + n * clock.period + dates.window(i, n).tail;
        ends.push(deadline)?;
    }
    Ok(ends)
}

/// What the jobs of a hyperperiod read on an edge from task `i`.
fn turn_on(alloc: Global, graph: &TaskGraph, edge: &Edge, word: &Word) -> Result<Turn, AllocError>
    requires { (windows : List (List Window)) × (i : ℕ) × IsPlanned graph.now windows edge.now word.now × ComesFrom edge.now.from i }
    ensures { IfOk result (λ turn. IsTurn word.now (jobs_of graph.now edge.now) turn.gaps turn.last) }
{
    let jobs = graph.hyper / clock_of(graph, edge.to).period;
    let turn = turn_of(alloc, word, jobs)?;
    Ok(turn)
}

/// The least number of cells of an edge from task `i`.
fn count_on(
    alloc: Global,
    graph: &TaskGraph,
    edge: &Edge,
    word: &Word,
    dates: &Dates,
    i: TaskNo,
    turn: &Turn,
) -> Result<u64, AllocError>
    requires planned { IsPlanned graph.now dates.now edge.now word.now }
    requires comes { ComesFrom edge.now.from i.0 }
    requires turn { IsTurn word.now (jobs_of graph.now edge.now) turn.now.gaps turn.now.last }
    ensures { IfOk result (HasLeastCount graph.now dates.now edge.now i.0 (record { first = number_at word.now 0; gaps = turn.now.gaps })) }
{
    let first = word.number(0);
    let before = word.prefix.len() as u64;
    let releases = releases_of(alloc, graph, dates, i, first, turn.gaps.as_slice())?;
    let ends = ends_of(alloc, graph, dates, edge.to, before, turn.last.as_slice())?;
    Ok(least_count(&releases, graph.hyper, &ends))
}

/// The cells of an edge from task `i`.
fn cells_from(
    alloc: Global,
    graph: &TaskGraph,
    edge: &Edge,
    word: &Word,
    dates: &Dates,
    i: TaskNo,
) -> Result<EdgeCells, AllocError>
    requires planned { IsPlanned graph.now dates.now edge.now word.now }
    requires comes { ComesFrom edge.now.from i.0 }
    ensures { IfOk result (λ cells. HasTaskCells graph.now dates.now edge.now i.0 cells.count cells.used cells.sums) }
{
    let turn = turn_on(alloc, graph, edge, word)?;
    let count = count_on(alloc, graph, edge, word, dates, i, &turn)?;
    let first = word.number(0);
    let gaps = shortened(turn.gaps);
    let sums = sums_of(alloc, gaps.as_slice())?;
    Ok(EdgeCells {
        count,
        used: Used { first, gaps },
        sums,
    })
}

/// The cells of an edge; one from a constant has none.
pub(crate) fn cells_of(
    alloc: Global,
    graph: &TaskGraph,
    edge: &Edge,
    word: &Word,
    dates: &Dates,
) -> Result<EdgeCells, AllocError>
    requires { IsPlanned graph.now dates.now edge.now word.now }
    ensures { IfOk result (λ cells. HasEdgeCells graph.now dates.now edge.now cells.count cells.used cells.sums) }
{
    match edge.from {
        Producer::Port { task, .. } => {
            let cells = cells_from(alloc, graph, edge, word, dates, task)?;
            Ok(cells)
        }
        Producer::Constant(_) => {
            let gaps = Seq::new(Vec::new(alloc));
            let sums = sums_of(alloc, gaps.as_slice())?;
            Ok(EdgeCells {
                count: 0,
                used: Used { first: 0, gaps },
                sums,
            })
        }
    }
}
