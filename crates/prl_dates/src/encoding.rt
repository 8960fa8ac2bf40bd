//! Encoded dates of a task graph.

ghost use Rattle.std.specs.Prelude.{MatchResult};
ghost use Rattle.prl_plan.specs.Vocabulary.{AreEncodedDates, IsWellFormed, HaveRoom};
ghost use Rattle.prl_plan.specs.Vocabulary.{AreShortWindows};
ghost use Rattle.prl_dates.specs.Faults.{IsDateFault, IsOfGraph, HasNarrowChain, HasNoNarrowChain};

use crate::DateFault;
use crate::bests::{First, bests, first_table};
use crate::lanes::lanes;
use crate::latest::lower_to_end;
use crate::laws::faults_tell_of_narrow_chains;
use crate::windows::windows;
use prl_plan::{Dates, TaskGraph};
use std::alloc::Global;

/// The encoded dates of all jobs: the least releases and the greatest deadlines that keep each job
/// after those that precede it, as shortest lists that repeat. There are none where some job has no
/// room: the fault tells the lowest job whose best is above its deadline, or where there is no such
/// job, the lowest that ends a loop. One of the two comes exactly where some chain of jobs, of any
/// length, needs longer than its last job has.
pub fn encode(alloc: Global, graph: &TaskGraph) -> Result<Dates, DateFault>
    requires { IsWellFormed graph.now }
    ensures dates { MatchResult result (λ dates. AreEncodedDates graph.now dates × HaveRoom graph.now dates × AreShortWindows dates)
        (IsDateFault graph.now) }
    ensures narrow { MatchResult result (λ dates. HasNoNarrowChain graph.now) (λ fault. IsOfGraph fault → HasNarrowChain graph.now) }
{
    faults_tell_of_narrow_chains();
    let lanes = lanes(alloc, graph)?;
    let mut tails = first_table(alloc, graph, First::Due)?;
    let bests = bests(alloc, graph, lanes.as_slice(), tails.as_slice())?;
    lower_to_end(
        alloc,
        graph,
        lanes.as_slice(),
        bests.as_slice(),
        tails.as_mut_slice(),
    )?;
    let windows = windows(alloc, graph, bests.as_slice(), tails.as_slice())?;
    Ok(Dates::new(windows))
}
