//! The instances that the jobs of one hyperperiod read.

ghost use Rattle.std.specs.Prelude.{◌≡◌, ◌+◌, ◌<◌, ◌^◌, ◌↔◌, ℕ, length, sum, IfOk};
ghost use Rattle.prl_plan.specs.Vocabulary.{number_at, ListsSums};
ghost use Rattle.prl_buffers.specs.code.Turns.{IsSteady, IsTurn};

use prl_base::Seq;
use prl_plan::Word;
use std::alloc::{AllocError, Global};

/// What the jobs of a hyperperiod read on an edge.
#[derive(Drop)]
pub(crate) struct Turn {
    /// The differences between the instances that are read, in order; the last one leads to what the first job of the next
    /// hyperperiod reads.
    pub gaps: Seq<u64>,
    /// For each of these instances its last reader, counted from the first job that reads one.
    pub last: Seq<u64>,
}

/// What so many jobs after the prefix of the word read.
pub(crate) fn turn_of(alloc: Global, word: &Word, jobs: u64) -> Result<Turn, AllocError>
    requires { IsSteady word.now jobs }
    ensures { IfOk result (λ turn. IsTurn word.now jobs turn.gaps turn.last) }
{
    let mut gaps = Vec::new(alloc);
    let mut last = Vec::new(alloc);
    for i in 0..jobs {
        let gap = word.number(i + 1) - word.number(i);
        if gap > 0 {
            gaps.push(gap)?;
            last.push(i)?;
        }
    }
    Ok(Turn {
        gaps: Seq::new(gaps),
        last: Seq::new(last),
    })
}

/// The sums of no gap, of the first, of the first two and so on.
pub(crate) fn sums_of(alloc: Global, gaps: &[u64]) -> Result<Seq<u64>, AllocError>
    requires { sum gaps.now < 2 ^ 64 }
    ensures { IfOk result (ListsSums gaps.now) }
{
    let mut sums = Vec::with_capacity(alloc, gaps.len())?;
    let mut total = 0;
    sums.push(total)?;
    for gap in gaps {
        total += *gap;
        sums.push(total)?;
    }
    Ok(Seq::new(sums))
}
