//! Plans: a task graph with its words, its encoded dates and its buffer cells, and the look-ups over them.

ghost use Rattle.std.specs.Prelude.{◌≡◌, ◌+◌, ◌*◌, ◌<◌, ◌≤◌, ◌^◌, ◌↔◌, [], pos, length, nat_abs, sum, slice_index, is_some, IsTrue, if◌then◌else◌};
ghost use Rattle.prl_plan.specs.declared.graphs.Producer.TheVariants as producers;
ghost use Rattle.prl_plan.specs.declared.limits.TheConstants.{MAX_CELLS, MAX_JOBS};
ghost use Rattle.prl_plan.specs.declared.walks.Operand.TheVariants as operands;
ghost use Rattle.prl_plan.specs.Operands.{operand_of, operand_from};
ghost use Rattle.prl_plan.specs.CellLists.{plan_of};
ghost use Rattle.prl_plan.specs.Dates.{encoded_release, encoded_deadline};
ghost use Rattle.prl_plan.specs.Cells.{IsUsed};
ghost use Rattle.prl_plan.specs.Plans.{IsPlan, edge_at, release_at, deadline_at, place_on, both_writes, cell_of, IsSmallOperand, ComesFromTask};
ghost use Rattle.prl_plan.specs.Horizons.{sum_below};
ghost use Rattle.prl_plan.specs.FirstReaders.{IsFirstReader};
ghost use Rattle.prl_plan.specs.Precedence.{ComesFrom};
ghost use Rattle.prl_plan.specs.Words.{IsWord, word_at};
ghost use Rattle.std.specs.Bool.{OnTrue, OnFalse};
ghost use Rattle.prl_plan.specs.Jobs.{task_at};

use crate::{Cells, Dates, Operand, Producer, TaskGraph, Word, Words};
use prl_base::{CellNo, Clock, EdgeNo, TaskNo, Value};
use std::marker::Model;

/// A plan of a well-formed task graph, with its words, its encoded dates and its buffer cells. Contracts see a `PlanView`.
pub struct Plan {
    graph: TaskGraph,
    words: Words,
    dates: Dates,
    cells: Cells,
}

impl Model for Plan {
    ghost use Rattle.prl_plan.specs.Plans.{PlanView, IsPlan};
    ghost use Rattle.prl_plan.specs.CellLists.{plan_of};

    ghost Value = { PlanView };

    ghost view = { λ p. plan_of p.graph p.words.of p.dates p.cells };

    ghost invariant = { λ p. IsPlan (plan_of p.graph p.words.of p.dates p.cells) };
}

/// What job `n` reads on an edge from a constant.
fn constant_at(word: &Word, n: u64, value: Value) -> Value
    requires { IsWord word.now }
    ensures { operands.Const result ≡ operand_from (producers.Constant value) (word_at word.now n) }
{
    let prefix = word.prefix.as_slice();
    if n < prefix.len() as u64 {
        prefix[n as usize]
    } else {
        value
    }
}

impl Plan {
    /// The plan of a well-formed graph without narrow chains, of its words, its encoded dates and its least cells, within
    /// the limits. Takes no memory.
    pub fn new(graph: TaskGraph, words: Words, dates: Dates, cells: Cells) -> Plan
        requires { IsPlan (plan_of graph words.of dates cells) }
        ensures value { result ≡ plan_of graph words.of dates cells }
        ensures plan { IsPlan result }
    {
        Plan {
            graph,
            words,
            dates,
            cells,
        }
    }

    /// The task graph.
    pub fn graph(&self) -> &TaskGraph
        ensures graph { result.now ≡ self.now.graph }
        ensures plan { IsPlan self.now }
    {
        &self.graph
    }

    /// The dependency words of the edges. Takes no memory.
    pub fn words(&self) -> &Words
        ensures { result.now.of ≡ self.now.words }
    {
        &self.words
    }

    /// The encoded dates. Takes no memory.
    pub fn dates(&self) -> &Dates
        ensures { result.now ≡ self.now.windows }
    {
        &self.dates
    }

    /// The clock of a task.
    pub(crate) fn clock_of(&self, i: TaskNo) -> Clock
        requires { i.0 < length self.now.graph.tasks }
        ensures clock { result ≡ (task_at self.now.graph i.0).clock }
        ensures plan { IsPlan self.now }
    {
        self.graph.tasks.as_slice()[i.0 as usize].clock
    }

    /// Where the values of an edge come from.
    pub(crate) fn source_of(&self, e: EdgeNo) -> Producer
        requires { e.0 < length self.now.graph.edges }
        ensures { result ≡ (edge_at self.now.graph e.0).from }
    {
        self.graph.edges.as_slice()[e.0 as usize].from
    }

    /// Whether an edge leads to task `i`.
    pub(crate) fn leads_to(&self, e: EdgeNo, i: TaskNo) -> bool
        requires { e.0 < length self.now.graph.edges }
        ensures yes { OnTrue result ((edge_at self.now.graph e.0).to.0 ≡ i.0) }
        ensures no { OnFalse result ((edge_at self.now.graph e.0).to.0 ≡ i.0 → ⊥) }
    {
        self.graph.edges.as_slice()[e.0 as usize].to.0 == i.0
    }

    /// Whether an edge comes from task `i`.
    pub(crate) fn comes_from(&self, e: EdgeNo, i: TaskNo) -> bool
        requires { e.0 < length self.now.graph.edges }
        ensures yes { OnTrue result (ComesFrom (edge_at self.now.graph e.0).from i.0) }
        ensures no { OnFalse result (ComesFrom (edge_at self.now.graph e.0).from i.0 → ⊥) }
    {
        match self.source_of(e) {
            Producer::Port { task, .. } => task == i,
            Producer::Constant(_) => false,
        }
    }

    /// The port of its consumer that an edge leads to.
    pub(crate) fn port_of(&self, e: EdgeNo) -> u32
        requires { e.0 < length self.now.graph.edges }
        ensures { result ≡ (edge_at self.now.graph e.0).port }
    {
        self.graph.edges.as_slice()[e.0 as usize].port
    }

    /// What job `n` of the consumer reads on the edge. Takes no memory.
    pub fn operand(&self, e: EdgeNo, n: u64) -> Operand
        requires edge { e.0 < length self.now.graph.edges }
        requires small { IsSmallOperand (operand_of (edge_at self.now.graph e.0) n) }
        ensures { result ≡ operand_of (edge_at self.now.graph e.0) n }
    {
        let word = &self.words.of.as_slice()[e.0 as usize];
        match self.source_of(e) {
            Producer::Port { .. } => word.at(n),
            Producer::Constant(value) => Operand::Const(constant_at(word, n, value)),
        }
    }

    /// The encoded release of job `n` of task `i`, in ticks. Takes no memory.
    pub fn release(&self, i: TaskNo, n: u64) -> u64
        requires task { i.0 < length self.now.graph.tasks }
        requires small { release_at self.now i.0 n < 2 ^ 63 }
        ensures encoded { pos result ≡ encoded_release self.now.graph self.now.windows i.0 (pos n) }
        ensures at { result ≡ release_at self.now i.0 n }
    {
        let clock = self.clock_of(i);
        clock.start + n * clock.period + self.dates.window(i, n).lead
    }

    /// The encoded deadline of job `n` of task `i`, in ticks. Takes no memory.
    pub fn deadline(&self, i: TaskNo, n: u64) -> u64
        requires task { i.0 < length self.now.graph.tasks }
        requires small { deadline_at self.now i.0 n < 2 ^ 63 }
        ensures encoded { pos result ≡ encoded_deadline self.now.graph self.now.windows i.0 (pos n) }
        ensures at { result ≡ deadline_at self.now i.0 n }
    {
        let clock = self.clock_of(i);
        clock.start + n * clock.period + self.dates.window(i, n).tail
    }

    /// How many constants the jobs of its consumer read at first on an edge.
    pub(crate) fn constants_on(&self, e: EdgeNo) -> u64
        requires { e.0 < length self.now.graph.edges }
        ensures count { IsFirstReader (edge_at self.now.graph e.0).ops result }
        ensures plan { IsPlan self.now }
    {
        self.words.of.as_slice()[e.0 as usize].prefix.len() as u64
    }

    /// How many actions the writes of the first `jobs` instances to an edge from a task are: two for each that is used.
    pub(crate) fn writes_on(&self, e: EdgeNo, jobs: u64) -> u64
        requires edge { e.0 < length self.now.graph.edges }
        requires jobs { jobs ≤ MAX_JOBS }
        ensures count { result ≡ sum_below (λ n. length (if is_some (place_on self.now e.0 n) then both_writes self.now e.0 n else [])) jobs }
        ensures small { result ≤ 2 * jobs }
    {
        2 * self.cells.used_before(e, jobs)
    }

    /// Where an instance stands among the used ones of the edge, if it is one.
    fn place(&self, e: EdgeNo, m: u64) -> Option<u64>
        requires { e.0 < length self.now.graph.edges }
        ensures at { result ≡ place_on self.now e.0 m }
        ensures plan { IsPlan self.now }
    {
        self.cells.place(e, m)
    }

    /// Whether some job of the consumer reads instance `m` on the edge. Takes no memory.
    pub fn uses(&self, e: EdgeNo, m: u64) -> bool
        requires { e.0 < length self.now.graph.edges }
        ensures used { IsTrue result ↔ IsUsed (edge_at self.now.graph e.0) m }
        ensures place { result ≡ is_some (place_on self.now e.0 m) }
    {
        self.place(e, m).is_some()
    }

    /// The cell in which a used instance of the edge stands. Takes no memory.
    pub fn cell(&self, e: EdgeNo, m: u64) -> CellNo
        requires edge { e.0 < length self.now.graph.edges }
        requires used { IsUsed (edge_at self.now.graph e.0) m }
        ensures cell { result.0 ≡ cell_of self.now e.0 m }
        ensures small { result.0 < MAX_CELLS }
    {
        match self.place(e, m) {
            Some(k) => CellNo(self.cells.base(e) + (k % u64::from(self.cells.count(e))) as u32),
            None => unreachable!(),
        }
    }

    /// The first cell of an edge that comes from a task. Takes no memory.
    pub fn base(&self, e: EdgeNo) -> CellNo
        requires edge { e.0 < length self.now.graph.edges }
        requires task { ComesFromTask (edge_at self.now.graph e.0).from }
        ensures { result.0 ≡ slice_index self.now.bases e.0 }
    {
        CellNo(self.cells.base(e))
    }

    /// How many cells the edge has, 0 where it comes from a constant. Takes no memory.
    pub fn count(&self, e: EdgeNo) -> u32
        requires { e.0 < length self.now.graph.edges }
        ensures { result ≡ slice_index self.now.counts e.0 }
    {
        self.cells.count(e)
    }

    /// How many cells there are. Takes no memory.
    pub fn total(&self) -> u32
        ensures { result ≡ sum self.now.counts }
    {
        self.cells.total()
    }
}

impl Drop for Plan {
    fn drop(self) {
        let Plan {
            graph,
            words,
            dates,
            cells,
        } = self;
        drop(graph);
        drop(words);
        drop(dates);
        drop(cells);
    }
}
