//! The plain run by earliest deadline first.

ghost use Rattle.std.specs.Prelude.{◌≡◌, ◌<◌, ◌≤◌, [], Some, None, length, map, vec_items, slice_index_or, IfOk, MatchOption};
ghost use Rattle.prl_plan.specs.Horizons.{IsHorizon, constants_of};
ghost use Rattle.prl_overlaps.specs.Demand.{wcets_of};
ghost use Rattle.prl_edf.specs.Outcomes.{ComesTo};
ghost use Rattle.prl_edf.specs.Pieces.{run_of, ticks_of, AreLongest};
ghost use Rattle.prl_edf.specs.UnitLists.{units_of, AreUnitLists};
ghost use Rattle.prl_edf.specs.code.Going.{IsFresh, IsRestAfter, AreRests, IsChoice, IsMaking};

use crate::Piece;
use crate::pieces::give;
use crate::rests::{Choice, Ready, Rest, choose};
use prl_base::{Seq, TaskNo};
use prl_plan::{Horizon, Plan, look_ups_fit, plan_facts};
use std::alloc::{AllocError, Global};

/// A timed run: its pieces, in order of time, each as long as possible.
pub struct Timed {
    pub pieces: Seq<Piece>,
}

impl Timed {
    /// How many ticks the pieces have together. Takes no memory.
    pub fn ticks(&self) -> u64
        requires { AreLongest self.now.pieces }
        ensures { result ≡ ticks_of self.now.pieces }
    {
        let mut ticks = 0;
        for piece in self.pieces.as_slice() {
            ticks += piece.ticks();
        }
        ticks
    }
}

/// What the plain run comes to.
#[derive(Drop)]
pub enum Outcome {
    /// It meets all windows.
    Met(Timed),
    /// A job misses its window: of those that do, the one that is due first, and of these that of
    /// the lowest task.
    Missed { task: TaskNo, job: u64 },
}

/// The units of job `n` of task `i`.
fn unit_at(units: &[Vec<u32>], i: TaskNo, n: u64) -> u32
    requires task { i.0 < length units.now }
    requires job { n < length (slice_index_or (map vec_items units.now) i.0 []) }
    ensures { result ≡ units_of (map vec_items units.now) i.0 n }
{
    units[i.0 as usize].as_slice()[n as usize]
}

/// Job `n` of task `i` with all its units, where it is a job of the horizon.
fn rest_at(plan: &Plan, horizon: Horizon, units: &[Vec<u32>], i: TaskNo, n: u64) -> Option<Rest>
    requires horizon { IsHorizon plan.now horizon }
    requires units { AreUnitLists (constants_of plan.now horizon) (wcets_of plan.now) (map vec_items units.now) }
    requires task { i.0 < length plan.now.graph.tasks }
    ensures { MatchOption result ((constants_of plan.now horizon).jobs i.0 ≤ n) (IsFresh (constants_of plan.now horizon) (units_of (map vec_items units.now)) i.0 n) }
{
    if n >= horizon.jobs_of(plan, i) {
        return None;
    }
    plan_facts(plan, horizon);
    look_ups_fit();
    Some(Rest {
        job: n,
        release: plan.release(i, n),
        deadline: plan.deadline(i, n),
        units: u64::from(unit_at(units, i, n)),
    })
}

/// The first job of each task.
fn all_rests(
    alloc: Global,
    plan: &Plan,
    horizon: Horizon,
    units: &[Vec<u32>],
) -> Result<Vec<Option<Rest>>, AllocError>
    requires horizon { IsHorizon plan.now horizon }
    requires units { AreUnitLists (constants_of plan.now horizon) (wcets_of plan.now) (map vec_items units.now) }
    ensures { IfOk result (λ rests. AreRests (constants_of plan.now horizon) (units_of (map vec_items units.now)) (run_of []) 0 rests.items) }
{
    plan_facts(plan, horizon);
    let mut rests = Vec::new(alloc);
    for i in 0..plan.graph().tasks.len() {
        rests.push(rest_at(plan, horizon, units, TaskNo(i as u32), 0))?;
    }
    Ok(rests)
}

/// What is left of a task after its first job has got some units.
fn rest_after(
    plan: &Plan,
    horizon: Horizon,
    units: &[Vec<u32>],
    ready: Ready,
    had: u64,
) -> Option<Rest>
    requires horizon { IsHorizon plan.now horizon }
    requires units { AreUnitLists (constants_of plan.now horizon) (wcets_of plan.now) (map vec_items units.now) }
    requires task { ready.task.0 < length plan.now.graph.tasks }
    requires job { ready.rest.job < (constants_of plan.now horizon).jobs ready.task.0 }
    requires had { had ≤ ready.rest.units }
    ensures { IsRestAfter (constants_of plan.now horizon) (units_of (map vec_items units.now)) ready had result }
{
    if had == ready.rest.units {
        return rest_at(plan, horizon, units, ready.task, ready.rest.job + 1);
    }
    Some(Rest {
        units: ready.rest.units - had,
        ..ready.rest
    })
}

/// The ticks from now on go to the first ready task, up to the last unit of its job, its deadline
/// or the next release. It returns when.
fn go_on(
    plan: &Plan,
    horizon: Horizon,
    units: &[Vec<u32>],
    rests: &mut Vec<Option<Rest>>,
    pieces: &mut Vec<Piece>,
    now: u64,
    best: Choice,
    ready: Ready,
) -> Result<u64, AllocError>
    requires horizon { IsHorizon plan.now horizon }
    requires units { AreUnitLists (constants_of plan.now horizon) (wcets_of plan.now) (map vec_items units.now) }
    requires making { IsMaking (constants_of plan.now horizon) (units_of (map vec_items units.now)) pieces.old.items now rests.old.items }
    requires best { IsChoice rests.old.items now horizon.end (length plan.now.graph.tasks) best }
    requires ready { best.ready ≡ Some ready }
    requires early { now < ready.rest.deadline }
    ensures making { IfOk result (λ to. IsMaking (constants_of plan.now horizon) (units_of (map vec_items units.now)) pieces.new.items to rests.new.items) }
    ensures later { IfOk result (λ to. now < to) }
{
    plan_facts(plan, horizon);
    let limit = ready.rest.deadline.min(best.next);
    let had = ready.rest.units.min(limit - now);
    let to = now + had;
    give(
        pieces,
        Piece {
            task: ready.task,
            job: ready.rest.job,
            from: now,
            to,
        },
    )?;
    rests[ready.task.0 as usize] = rest_after(plan, horizon, units, ready, had);
    Ok(to)
}

/// What the plain run by earliest deadline first comes to in which the jobs have these units: a
/// list for each task, with a number from 1 to its WCET for each of its jobs. A tick goes to the
/// job that is due first of those that are released and not done, of several to that of the lowest
/// task; it is idle where all are done.
pub fn run_units(
    alloc: Global,
    plan: &Plan,
    horizon: Horizon,
    units: &[Vec<u32>],
) -> Result<Outcome, AllocError>
    requires horizon { IsHorizon plan.now horizon }
    requires units { AreUnitLists (constants_of plan.now horizon) (wcets_of plan.now) (map vec_items units.now) }
    ensures { IfOk result (ComesTo (constants_of plan.now horizon) (units_of (map vec_items units.now))) }
{
    plan_facts(plan, horizon);
    let mut rests = all_rests(alloc, plan, horizon, units)?;
    let mut pieces = Vec::new(alloc);
    let mut now = 0;
    loop {
        let best = choose(&rests, now, horizon.end);
        match best.ready {
            None => {
                if best.next == horizon.end {
                    return Ok(Outcome::Met(Timed {
                        pieces: Seq::new(pieces),
                    }));
                }
                now = best.next;
            }
            Some(ready) => {
                if ready.rest.deadline <= now {
                    return Ok(Outcome::Missed {
                        task: ready.task,
                        job: ready.rest.job,
                    });
                }
                now = go_on(
                    plan,
                    horizon,
                    units,
                    &mut rests,
                    &mut pieces,
                    now,
                    best,
                    ready,
                )?;
            }
        }
    }
}

impl Drop for Timed {
    fn drop(self) {
        let Timed { pieces } = self;
        drop(pieces);
    }
}
