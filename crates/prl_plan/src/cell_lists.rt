//! Buffer cells as they are kept: by edge, its first cell, its number of cells and its used instances.

ghost use Rattle.std.specs.Prelude.{◌≡◌, ◌+◌, ◌<◌, ◌≤◌, ◌^◌, ℕ, length, take, sum, slice_index, slice_index_or, Some};
ghost use Rattle.prl_plan.specs.Cells.{no_used, place_of};
ghost use Rattle.prl_plan.specs.CellLists.{AreCellLists, AreSums, IsOrdered, CountsUsed};

use crate::Used;
use prl_base::{EdgeNo, Seq};
use std::marker::Model;

/// The cells of the edges of a graph. Contracts see the three lists.
#[derive(Drop)]
pub struct Cells {
    bases: Seq<u32>,
    counts: Seq<u32>,
    used: Seq<Used>,
    sums: Option<Seq<Seq<u64>>>,
}

impl Model for Cells {
    ghost use Rattle.prl_plan.specs.CellLists.{CellLists, AreCellLists, AreSums};

    ghost Value = { CellLists };

    ghost view = { λ c. record { bases = c.bases; counts = c.counts; used = c.used } };

    ghost invariant = { λ c. AreCellLists c.bases c.counts c.used × AreSums c.used c.sums };
}

impl Cells {
    /// The cells of these lists: by edge, its first cell, how many cells it has, and its used instances by their shortest
    /// gaps. Takes no memory. A look-up of a used instance goes through the gaps.
    pub fn new(bases: Seq<u32>, counts: Seq<u32>, used: Seq<Used>) -> Cells
        requires { AreCellLists bases counts used }
        ensures { result ≡ record { bases = bases; counts = counts; used = used } }
    {
        Cells {
            bases,
            counts,
            used,
            sums: None,
        }
    }

    /// The same with the sums of each edge's gaps, from none of them to all. Takes no memory. A look-up of a used instance
    /// is a binary search.
    pub fn with_sums(
        bases: Seq<u32>,
        counts: Seq<u32>,
        used: Seq<Used>,
        sums: Seq<Seq<u64>>,
    ) -> Cells
        requires lists { AreCellLists bases counts used }
        requires sums { AreSums used (Some sums) }
        ensures { result ≡ record { bases = bases; counts = counts; used = used } }
    {
        Cells {
            bases,
            counts,
            used,
            sums: Some(sums),
        }
    }

    /// The used instances of an edge: the first one, and the shortest list of gaps that repeats; for an edge from a constant
    /// 0 and no gaps. Takes no memory.
    pub fn used(&self, e: EdgeNo) -> &Used
        requires { e.0 < length self.now.used }
        ensures { result.now ≡ slice_index_or self.now.used e.0 no_used }
    {
        &self.used.as_slice()[e.0 as usize]
    }

    /// The sum of the first `j` gaps of an edge.
    fn sum_of(&self, e: EdgeNo, j: usize) -> u64
        requires edge { e.0 < length self.now.used }
        requires inside { j ≤ length (slice_index_or self.now.used e.0 no_used).gaps }
        requires small { sum (slice_index_or self.now.used e.0 no_used).gaps < 2 ^ 64 }
        ensures { result ≡ sum (take j (slice_index_or self.now.used e.0 no_used).gaps) }
    {
        match &self.sums {
            Some(sums) => sums.as_slice()[e.0 as usize].as_slice()[j],
            None => total(&self.used(e).gaps.as_slice()[..j]),
        }
    }

    /// How many gaps of an edge lead no further than to `rest`.
    fn gaps_to(&self, e: EdgeNo, rest: u64) -> usize
        requires edge { e.0 < length self.now.used }
        requires rest { rest < sum (slice_index_or self.now.used e.0 no_used).gaps }
        requires small { sum (slice_index_or self.now.used e.0 no_used).gaps < 2 ^ 64 }
        ensures inside { result < length (slice_index_or self.now.used e.0 no_used).gaps }
        ensures reached { sum (take result (slice_index_or self.now.used e.0 no_used).gaps) ≤ rest }
        ensures not_passed { rest < sum (take (result + 1) (slice_index_or self.now.used e.0 no_used).gaps) }
    {
        let mut low = 0;
        let mut high = self.used(e).gaps.len();
        while low + 1 < high {
            let middle = low + (high - low) / 2;
            if self.sum_of(e, middle) <= rest {
                low = middle;
            } else {
                high = middle;
            }
        }
        low
    }

    /// Where an instance stands among the used ones of an edge, if it is one. Takes no memory.
    pub(crate) fn place(&self, e: EdgeNo, m: u64) -> Option<u64>
        requires edge { e.0 < length self.now.used }
        requires order { IsOrdered (slice_index_or self.now.used e.0 no_used) }
        ensures { result ≡ place_of (slice_index_or self.now.used e.0 no_used) m }
    {
        let used = self.used(e);
        let gaps = used.gaps.len();
        if gaps == 0 {
            return None;
        }
        if m < used.first {
            return None;
        }
        let total = self.sum_of(e, gaps);
        let past = m - used.first;
        let last = self.gaps_to(e, past % total);
        if self.sum_of(e, last) != past % total {
            return None;
        }
        Some(past / total * gaps as u64 + last as u64)
    }

    /// How many used instances of an edge have a number below `m`. Takes no memory.
    pub(crate) fn used_before(&self, e: EdgeNo, m: u64) -> u64
        requires edge { e.0 < length self.now.used }
        requires order { IsOrdered (slice_index_or self.now.used e.0 no_used) }
        requires small { m < 2 ^ 63 }
        ensures { CountsUsed (slice_index_or self.now.used e.0 no_used) m result }
    {
        let used = self.used(e);
        let gaps = used.gaps.len();
        if gaps == 0 {
            return 0;
        }
        if m <= used.first {
            return 0;
        }
        let total = self.sum_of(e, gaps);
        let past = m - 1 - used.first;
        let last = self.gaps_to(e, past % total);
        past / total * gaps as u64 + last as u64 + 1
    }

    /// The first cell of an edge, 0 where it has none. Takes no memory.
    pub(crate) fn base(&self, e: EdgeNo) -> u32
        requires { e.0 < length self.now.bases }
        ensures { result ≡ slice_index self.now.bases e.0 }
    {
        self.bases.as_slice()[e.0 as usize]
    }

    /// How many cells an edge has. Takes no memory.
    pub(crate) fn count(&self, e: EdgeNo) -> u32
        requires { e.0 < length self.now.counts }
        ensures { result ≡ slice_index self.now.counts e.0 }
    {
        self.counts.as_slice()[e.0 as usize]
    }

    /// How many cells there are. Takes no memory.
    pub(crate) fn total(&self) -> u32
        requires { sum self.now.counts < 2 ^ 32 }
        ensures { result ≡ sum self.now.counts }
    {
        self.counts.as_slice().iter().sum()
    }
}

/// The sum of these numbers.
fn total(numbers: &[u64]) -> u64
    requires { sum numbers.now < 2 ^ 64 }
    ensures { result ≡ sum numbers.now }
{
    numbers.iter().sum()
}
