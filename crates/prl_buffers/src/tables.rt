//! The cells of all edges of a task graph.

ghost use Rattle.std.specs.Prelude.{◌≡◌, ◌+◌, ◌≤◌, ◌<◌, ◌^◌, ◌++◌, ◌∷◌, [], ℕ, Some, length, sum, IfOk, OnOk, MatchResult};
ghost use Rattle.prl_plan.specs.CellLists.{AreCellLists, AreSums};
ghost use Rattle.prl_plan.specs.Vocabulary.{AreLeastCells, CellLists, AreEncodedDates, IsWellFormed, AreShortGaps, AreWords};
ghost use Rattle.prl_plan.specs.declared.limits.TheConstants.{MAX_CELLS};
ghost use Rattle.prl_buffers.specs.CellFaults.{IsCellFault};
ghost use Rattle.prl_buffers.specs.code.Tables.{IsDated, AreListed, bases_from};

use crate::edges::{EdgeCells, cells_of};
use prl_base::{Limit, Seq, What};
use prl_plan::{Cells, Dates, MAX_CELLS, TaskGraph, Used, Words};
use std::alloc::{AllocError, Global};

/// Why there are no cells.
#[derive(Clone, Copy)]
pub enum CellFault {
    /// All edges together need more than 4,096 cells.
    Limit(Limit),
    Memory,
}

/// The least number of cells of each edge, its used instances and the sums of their gaps, and how many cells there are.
#[derive(Drop)]
struct EdgeLists {
    counts: Vec<u64>,
    used: Vec<Used>,
    sums: Vec<Seq<u64>>,
    total: u64,
}

/// Adds the cells of one more edge.
fn push_cells(cells: EdgeCells, list: &mut EdgeLists) -> Result<(), AllocError>
    requires { list.old.total + cells.count < 2 ^ 64 }
    ensures counts { OnOk result (list.new.counts.items ≡ list.old.counts.items ++ cells.count ∷ []) }
    ensures used { OnOk result (list.new.used.items ≡ list.old.used.items ++ cells.used ∷ []) }
    ensures sums { OnOk result (list.new.sums.items ≡ list.old.sums.items ++ cells.sums ∷ []) }
    ensures total { list.new.total ≡ list.old.total + cells.count }
{
    list.total += cells.count;
    list.counts.push(cells.count)?;
    list.used.push(cells.used)?;
    list.sums.push(cells.sums)?;
    Ok(())
}

/// The cells of each edge, before they are numbered.
fn listed(
    alloc: Global,
    graph: &TaskGraph,
    words: &Words,
    dates: &Dates,
) -> Result<EdgeLists, AllocError>
    requires { IsDated graph.now words.now.of dates.now }
    ensures { IfOk result (λ list. AreListed graph.now dates.now (length graph.now.edges) list.counts.items list.used.items list.sums.items × (list.total ≡ sum list.counts.items)) }
{
    let edges = graph.edges.as_slice();
    let words = words.of.as_slice();
    let mut list = EdgeLists {
        counts: Vec::new(alloc),
        used: Vec::new(alloc),
        sums: Vec::new(alloc),
        total: 0,
    };
    for e in 0..edges.len() {
        push_cells(
            cells_of(alloc, graph, &edges[e], &words[e], dates)?,
            &mut list,
        )?;
    }
    Ok(list)
}

/// The first cell of each edge, where the edges have so many cells.
fn bases_of(alloc: Global, counts: &[u64]) -> Result<Seq<u32>, AllocError>
    requires { sum counts.now ≤ MAX_CELLS }
    ensures { IfOk result (λ bases. bases ≡ bases_from 0 counts.now) }
{
    let mut bases = Vec::with_capacity(alloc, counts.len())?;
    let mut before: u32 = 0;
    for count in counts {
        bases.push(if *count == 0 { 0 } else { before })?;
        before += *count as u32;
    }
    Ok(Seq::new(bases))
}

/// The same numbers in 32 bits.
fn narrowed(alloc: Global, counts: &[u64]) -> Result<Seq<u32>, AllocError>
    requires { sum counts.now ≤ MAX_CELLS }
    ensures { IfOk result (λ narrow. narrow ≡ counts.now) }
{
    let mut narrow = Vec::with_capacity(alloc, counts.len())?;
    for count in counts {
        narrow.push(*count as u32)?;
    }
    Ok(Seq::new(narrow))
}

/// The first cell of each edge, where the edges have so many cells, and these numbers in 32 bits.
fn numbered(alloc: Global, counts: &[u64]) -> Result<(Seq<u32>, Seq<u32>), AllocError>
    requires { sum counts.now ≤ MAX_CELLS }
    ensures bases { IfOk result (λ numbers. numbers.0 ≡ bases_from 0 counts.now) }
    ensures counts { IfOk result (λ numbers. numbers.1 ≡ counts.now) }
{
    let bases = bases_of(alloc, counts)?;
    Ok((bases, narrowed(alloc, counts)?))
}

/// The cells of the lists, by their numbers.
fn joined(numbers: (Seq<u32>, Seq<u32>), list: EdgeLists) -> Cells
    requires lists { AreCellLists numbers.0 numbers.1 list.used.items }
    requires sums { AreSums list.used.items (Some list.sums.items) }
    ensures { result ≡ record { bases = numbers.0; counts = numbers.1; used = list.used.items } }
{
    Cells::with_sums(
        numbers.0,
        numbers.1,
        Seq::new(list.used),
        Seq::new(list.sums),
    )
}

/// The least number of buffer cells of each edge that comes from a task, its used instances and its first cell; the cells are
/// numbered edge after edge. The limit on their number is tested after all edges are counted, each by division.
pub fn cells(
    alloc: Global,
    graph: &TaskGraph,
    words: &Words,
    dates: &Dates,
) -> Result<Cells, CellFault>
    requires well { IsWellFormed graph.now }
    requires words { AreWords graph.now words.now.of }
    requires dates { AreEncodedDates graph.now dates.now }
    ensures cells { MatchResult result
        (λ c. AreLeastCells graph.now dates.now c.bases c.counts c.used × (sum c.counts ≤ MAX_CELLS) × AreShortGaps c.used)
        (IsCellFault graph.now dates.now) }
{
    let Ok(list) = listed(alloc, graph, words, dates) else {
        return Err(CellFault::Memory);
    };
    if list.total > u64::from(MAX_CELLS) {
        return Err(CellFault::Limit(Limit {
            what: What::Cells,
            found: list.total,
        }));
    }
    match numbered(alloc, list.counts.as_slice()) {
        Ok(numbers) => Ok(joined(numbers, list)),
        Err(_) => Err(CellFault::Memory),
    }
}
