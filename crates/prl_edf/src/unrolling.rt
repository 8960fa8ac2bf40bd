//! Timed runs as lists of events.

ghost use Rattle.std.specs.Prelude.{◌≡◌, ◌+◌, ◌<◌, ◌≤◌, ◌++◌, ℕ, List, ◌∷◌, drop, Some, None, length, slice_get, reverse, replicate, OnOk, IfOk};
ghost use Rattle.std.specs.Bool.{OnTrue, OnFalse};
ghost use Rattle.prl_plan.specs.declared.events.Action.TheVariants as actions;
ghost use Rattle.prl_plan.specs.declared.events.Event.TheVariants as kinds;
ghost use Rattle.prl_plan.specs.Vocabulary.{IsJob, IsHorizon, constants_of, opening, after_events};
ghost use Rattle.prl_plan.specs.Vocabulary.{IsLegal, IsComplete};
ghost use Rattle.prl_track.specs.Routes.{AreRoutes};
ghost use Rattle.prl_overlaps.specs.Demand.{wcets_of};
ghost use Rattle.prl_edf.specs.declared.pieces.Piece.{Piece};
ghost use Rattle.prl_edf.specs.Pieces.{run_of, AreLongest};
ghost use Rattle.prl_edf.specs.TimedRuns.{totals};
ghost use Rattle.prl_edf.specs.EdfRuns.{IsMetRun};
ghost use Rattle.prl_edf.specs.Unrolled.{acts_of, IsUnrolled};
ghost use Rattle.prl_edf.specs.code.Lasts.{next_job, is_other, lasts_in, IsUnrolling};

use crate::Piece;
use crate::laws::actions_end_once;
use crate::runs::Timed;
use prl_base::TaskNo;
use prl_plan::{Action, Event, Horizon, Plan, look_ups_fit, plan_facts, plan_is_one};
use prl_track::{Cursor, Routes};
use std::alloc::{AllocError, Global};

/// The clock goes on by some ticks.
fn push_ticks(events: &mut Vec<Event>, ticks: u64) -> Result<(), AllocError>
    ensures { OnOk result (events.new.items ≡ events.old.items ++ replicate ticks kinds.Tick) }
{
    for _ in 0..ticks {
        events.push(Event::Tick)?;
    }
    Ok(())
}

/// Whether an action ends its job.
fn is_end(action: Action) -> bool
    ensures yes { OnTrue result (action ≡ actions.End) }
    ensures no { OnFalse result (action ≡ actions.End → ⊥) }
{
    match action {
        Action::ReadConst { .. } => false,
        Action::Read { .. } => false,
        Action::Write { .. } => false,
        Action::End => true,
    }
}

/// A job does all its acts, found along the route of its task.
fn push_acts(
    events: &mut Vec<Event>,
    plan: &Plan,
    horizon: Horizon,
    routes: &Routes,
    task: TaskNo,
    job: u64,
) -> Result<(), AllocError>
    requires horizon { IsHorizon plan.now horizon }
    requires routes { AreRoutes plan.now.graph routes.now }
    requires job { IsJob (constants_of plan.now horizon) task.0 job }
    ensures { OnOk result (events.new.items ≡ events.old.items ++ acts_of (constants_of plan.now horizon) task.0 job) }
{
    plan_facts(plan, horizon);
    plan_is_one(plan);
    look_ups_fit();
    actions_end_once();
    let mut cursor = Cursor { index: 0, rest: 0 };
    for place in 0..u32::MAX {
        events.push(Event::Act(task))?;
        let next = routes.stop(plan, task, job, place, cursor);
        if is_end(next.action) {
            return Ok(());
        }
        cursor = next.cursor.moved();
    }
    unreachable!()
}

/// Whether a job is not the one that comes next.
fn comes_last(next: Option<u64>, job: u64) -> bool
    ensures { result ≡ is_other next job }
{
    match next {
        None => true,
        Some(next) => next != job,
    }
}

/// Which pieces are the last of their jobs, from the last piece to the first. A task's jobs come in
/// order, so a piece is where the next one of its task is of another job.
fn lasts_of(alloc: Global, tasks: usize, pieces: &[Piece]) -> Result<Vec<bool>, AllocError>
    requires { (k : ℕ) (piece : Piece) → slice_get pieces.now k ≡ Some piece → piece.task.0 < tasks }
    ensures { IfOk result (λ lasts. lasts.items ≡ reverse (lasts_in pieces.now)) }
{
    let mut seen = vec![in alloc; None; tasks]?;
    let mut lasts = Vec::new(alloc);
    for back in 0..pieces.len() {
        let piece = pieces[pieces.len() - 1 - back];
        let task = piece.task.0 as usize;
        lasts.push(comes_last(seen[task], piece.job))?;
        seen[task] = Some(piece.job);
    }
    Ok(lasts)
}

/// The events of one piece: the ticks up to its last one and all acts of its job, where it is the
/// job's last. It returns the date then.
fn unroll_piece(
    list: &mut Vec<Event>,
    plan: &Plan,
    horizon: Horizon,
    routes: &Routes,
    pieces: &[Piece],
    piece: Piece,
    last: bool,
    now: u64,
) -> Result<u64, AllocError>
    requires horizon { IsHorizon plan.now horizon }
    requires routes { AreRoutes plan.now.graph routes.now }
    requires longest { AreLongest pieces.now }
    requires run { IsMetRun (constants_of plan.now horizon) (wcets_of plan.now) (run_of pieces.now) }
    requires job { IsJob (constants_of plan.now horizon) piece.task.0 piece.job }
    requires so_far { (k : ℕ) × (rest : List Piece) × (drop k pieces.now ≡ piece ∷ rest) × (last ≡ is_other (next_job rest piece.task.0) piece.job)
        × IsUnrolling (constants_of plan.now horizon) (run_of pieces.now) (drop k pieces.now) now list.old.items }
    ensures { IfOk result (λ date. (k : ℕ) (rest : List Piece) → drop k pieces.now ≡ piece ∷ rest → last ≡ is_other (next_job rest piece.task.0) piece.job →
        IsUnrolling (constants_of plan.now horizon) (run_of pieces.now) (drop k pieces.now) now list.old.items →
        IsUnrolling (constants_of plan.now horizon) (run_of pieces.now) rest date list.new.items) }
{
    plan_facts(plan, horizon);
    let _ = pieces;
    if last {
        push_ticks(list, piece.to - 1 - now)?;
        push_acts(list, plan, horizon, routes, piece.task, piece.job)?;
        return Ok(piece.to - 1);
    }
    Ok(now)
}

/// The events of the pieces.
fn unroll(
    alloc: Global,
    plan: &Plan,
    horizon: Horizon,
    pieces: &[Piece],
) -> Result<Vec<Event>, AllocError>
    requires horizon { IsHorizon plan.now horizon }
    requires longest { AreLongest pieces.now }
    requires run { IsMetRun (constants_of plan.now horizon) (wcets_of plan.now) (run_of pieces.now) }
    ensures { IfOk result (λ list. IsUnrolled (constants_of plan.now horizon) (totals (constants_of plan.now horizon) (run_of pieces.now)) (run_of pieces.now) list.items) }
{
    plan_facts(plan, horizon);
    let lasts = lasts_of(alloc, plan.graph().tasks.len(), pieces)?;
    let routes = Routes::new(alloc, plan)?;
    let mut list = Vec::new(alloc);
    let mut now = 0;
    for k in 0..pieces.len() {
        let last = lasts[pieces.len() - 1 - k];
        now = unroll_piece(
            &mut list, plan, horizon, &routes, pieces, pieces[k], last, now,
        )?;
    }
    Ok(list)
}

/// The events of a run by earliest deadline first that meets all windows, in which no job has more
/// units than its WCET. Where the last unit of a job begins, the job does all that it has to do; ticks
/// lead from one such place to the next. They are a whole schedule.
pub fn events_of(
    alloc: Global,
    plan: &Plan,
    horizon: Horizon,
    timed: &Timed,
) -> Result<Vec<Event>, AllocError>
    requires horizon { IsHorizon plan.now horizon }
    requires longest { AreLongest timed.now.pieces }
    requires run { IsMetRun (constants_of plan.now horizon) (wcets_of plan.now) (run_of timed.now.pieces) }
    ensures unrolled { IfOk result (λ list. IsUnrolled (constants_of plan.now horizon) (totals (constants_of plan.now horizon) (run_of timed.now.pieces)) (run_of timed.now.pieces) list.items) }
    ensures legal { IfOk result (λ list. IsLegal (constants_of plan.now horizon) (opening (constants_of plan.now horizon)) list.items) }
    ensures complete { IfOk result (λ list. IsComplete (constants_of plan.now horizon) (after_events (constants_of plan.now horizon) (opening (constants_of plan.now horizon)) list.items)) }
{
    plan_facts(plan, horizon);
    actions_end_once();
    let list = unroll(alloc, plan, horizon, timed.pieces.as_slice())?;
    Ok(list)
}
