//! Tracks: the state of an executive without values.

ghost use Rattle.std.specs.Prelude.{◌≡◌, ◌+◌, ◌<◌, ◌≤◌, ℕ, length, replicate, slice_index, IfOk, IfErr, MatchOption, MatchResult};
ghost use Rattle.std.specs.Bool.{OnTrue, OnFalse};
ghost use Rattle.prl_base.specs.declared.numbers.EdgeNo.{EdgeNo};
ghost use Rattle.prl_plan.specs.declared.events.Action.TheVariants as actions;
ghost use Rattle.prl_plan.specs.Facts.{HasPlanFacts};
ghost use Rattle.prl_plan.specs.Horizons.{IsHorizon, Placement, constants_on};
ghost use Rattle.prl_plan.specs.Rules.{first_unfinished, IsComplete, IsFirstUnfinished, KeepsLegal, FirstBroken};
ghost use Rattle.prl_plan.specs.Runs.{opening, moved, next_action, after_action, after_event};
ghost use Rattle.prl_track.specs.code.Tests.{Overtakes, IsNotEarlier, IsDueFirst, IsInTime};
ghost use Rattle.prl_track.specs.code.Firsts.{IsFirstAt, IsFirstOf, AreFirsts};
ghost use Rattle.prl_track.specs.code.Cursors.{IsReading};
ghost use Rattle.prl_track.specs.Routes.{AreRoutes, IsAt};
ghost use Rattle.prl_track.specs.code.Nexts.{IsChoice};

use crate::firsts::{Chosen, First};
use crate::routes::{Cursor, NextAction, Routes};
use crate::{Acted, Illegal, Unfinished};
use prl_base::TaskNo;
use prl_deadlines::{goes_before, is_due};
use prl_plan::{
    Action, Event, Horizon, Placed, Plan, Rule, SlotNo, look_ups_fit, plan_facts, plan_is_one,
};
use std::alloc::{AllocError, Global};
use std::marker::Model;

/// The state of an executive of a plan in a horizon: the tick, how far each task is, and which instance stands in each half of
/// a cell. It tests an event, does it, and tells the next one; values are no part of it. Contracts see a `TrackView`.
pub struct Track<'a> {
    plan: &'a Plan,
    /// Where the tasks run, and by which windows their jobs are released.
    placed: Placed<'a>,
    horizon: Horizon,
    now: u64,
    /// By task, how many jobs have ended, and the place of the next job's next action.
    ended: Vec<u64>,
    places: Vec<u32>,
    /// By half of a cell, the instance in it plus 1, or 0.
    tags: Vec<u64>,
    /// By task, its first unfinished job, where its next action stands, and the edges that its jobs go through.
    firsts: Vec<Option<First>>,
    cursors: Vec<Cursor>,
    routes: Routes,
}

impl<'a> Model for Track<'a> {
    ghost use Rattle.prl_track.specs.Tracks.{TrackView};

    ghost Value = { TrackView };

    ghost use Rattle.prl_track.specs.code.Tracks.{IsTrack};

    ghost view = { λ t. record { plan = t.plan.now; placement = t.placed; horizon = t.horizon; state = record { now = t.now; ended = t.ended.items; places = t.places.items; tags = t.tags.items } } };

    ghost invariant = { λ t. IsTrack (record { plan = t.plan.now; placement = t.placed; horizon = t.horizon; state = record { now = t.now; ended = t.ended.items; places = t.places.items; tags = t.tags.items } }) t.firsts.items t.routes t.cursors.items };
}

/// Job `n` of task `i` with its dates, where it is a job of the horizon.
fn first_at(plan: &Plan, placed: &Placed<'_>, horizon: Horizon, i: TaskNo, n: u64) -> Option<First>
    requires horizon { IsHorizon plan.now horizon }
    requires windows { length placed.now.windows ≡ length plan.now.graph.tasks }
    requires facts { HasPlanFacts (constants_on plan.now placed.now horizon) }
    requires task { i.0 < length plan.now.graph.tasks }
    ensures { MatchOption result ((constants_on plan.now placed.now horizon).jobs i.0 ≤ n)
        (IsFirstAt (constants_on plan.now placed.now horizon) i.0 n) }
{
    if n >= horizon.jobs_of(plan, i) {
        return None;
    }
    Some(First {
        job: n,
        release: placed.release(plan, i, n),
        deadline: plan.deadline(i, n),
    })
}

/// The first job of each task.
fn all_firsts(
    alloc: Global,
    plan: &Plan,
    placed: &Placed<'_>,
    horizon: Horizon,
) -> Result<Vec<Option<First>>, AllocError>
    requires horizon { IsHorizon plan.now horizon }
    requires windows { length placed.now.windows ≡ length plan.now.graph.tasks }
    requires facts { HasPlanFacts (constants_on plan.now placed.now horizon) }
    ensures { IfOk result (λ firsts. AreFirsts (constants_on plan.now placed.now horizon)
        (opening (constants_on plan.now placed.now horizon)).ended firsts.items) }
{
    plan_facts(plan, horizon);
    let mut firsts = Vec::new(alloc);
    for i in 0..plan.graph().tasks.len() {
        firsts.push(first_at(plan, placed, horizon, TaskNo(i as u32), 0))?;
    }
    Ok(firsts)
}

/// The first job of each task, and the edges that its jobs go through.
fn opened_lists(
    alloc: Global,
    plan: &Plan,
    placed: &Placed<'_>,
    horizon: Horizon,
) -> Result<(Vec<Option<First>>, Routes), AllocError>
    requires horizon { IsHorizon plan.now horizon }
    requires windows { length placed.now.windows ≡ length plan.now.graph.tasks }
    requires facts { HasPlanFacts (constants_on plan.now placed.now horizon) }
    ensures firsts { IfOk result (λ opened. AreFirsts (constants_on plan.now placed.now horizon)
        (opening (constants_on plan.now placed.now horizon)).ended opened.0.items) }
    ensures routes { IfOk result (λ opened. AreRoutes plan.now.graph opened.1) }
{
    let firsts = all_firsts(alloc, plan, placed, horizon)?;
    Ok((firsts, Routes::new(alloc, plan)?))
}

/// For each of so many tasks that no job has ended, the first place, and where the action there stands.
fn starts(alloc: Global, tasks: usize) -> Result<(Vec<u64>, Vec<u32>, Vec<Cursor>), AllocError>
    ensures ended { IfOk result (λ starts. starts.0.items ≡ replicate tasks 0) }
    ensures places { IfOk result (λ starts. starts.1.items ≡ replicate tasks 0) }
    ensures cursors { IfOk result (λ starts. starts.2.items ≡ replicate tasks (record { index = 0; rest = 0 })) }
{
    let ended = vec![in alloc; 0; tasks]?;
    let places = vec![in alloc; 0; tasks]?;
    let cursors = vec![in alloc; Cursor { index: 0, rest: 0 }; tasks]?;
    Ok((ended, places, cursors))
}

impl<'a> Track<'a> {
    ghost use Rattle.prl_track.specs.Tracks.{run_of, opened, opened_on, IsNext};

    /// The track before the first event, where all tasks run on one processor.
    pub fn new(alloc: Global, plan: &'a Plan, horizon: Horizon) -> Result<Track<'a>, AllocError>
        requires { IsHorizon plan.now horizon }
        ensures { IfOk result (λ track. track ≡ opened plan.now horizon) }
    {
        plan_facts(plan, horizon);
        plan_is_one(plan);
        Track::on(alloc, plan, Placed::alone(plan), horizon)
    }

    /// The track before the first event, where each task runs on its processor, and jobs are released by these windows.
    pub fn on(
        alloc: Global,
        plan: &'a Plan,
        placed: Placed<'a>,
        horizon: Horizon,
    ) -> Result<Track<'a>, AllocError>
        requires horizon { IsHorizon plan.now horizon }
        requires windows { length placed.windows ≡ length plan.now.graph.tasks }
        requires facts { HasPlanFacts (constants_on plan.now placed horizon) }
        ensures { IfOk result (λ track. track ≡ opened_on plan.now placed.entry horizon) }
    {
        plan_facts(plan, horizon);
        let tasks = plan.graph().tasks.len();
        let opened = opened_lists(alloc, plan, &placed, horizon)?;
        let starts = starts(alloc, tasks)?;
        let tags = vec![in alloc; 0; 2 * plan.total() as usize]?;
        Ok(Track {
            plan,
            placed,
            horizon,
            now: 0,
            ended: starts.0,
            places: starts.1,
            tags,
            firsts: opened.0,
            cursors: starts.2,
            routes: opened.1,
        })
    }

    /// How many tasks the plan has.
    fn tasks(&self) -> u32
        ensures { result ≡ length self.entry.now.plan.graph.tasks }
    {
        plan_facts(self.plan, self.horizon);
        self.plan.graph().tasks.len() as u32
    }

    /// The first unfinished job of task `j` in the horizon, if there is one.
    fn first(&self, j: TaskNo) -> Option<First>
        requires { j.0 < length self.now.plan.graph.tasks }
        ensures { IsFirstOf (run_of self.entry.now) self.entry.now.state j.0 result }
    {
        plan_facts(self.plan, self.horizon);
        self.firsts[j.0 as usize]
    }

    /// The processor of task `j`.
    fn processor(&self, j: TaskNo) -> u32
        ensures { result ≡ slice_index self.entry.now.placement.processors j.0 }
    {
        self.placed.processor(j)
    }

    /// Whether the first unfinished job of task `j`, on this processor, is released, and due before `deadline`.
    fn overtakes(&self, j: TaskNo, processor: u32, deadline: u64) -> bool
        requires { j.0 < length self.now.plan.graph.tasks }
        ensures yes { OnTrue result (Overtakes (run_of self.entry.now) self.entry.now.state j.0 processor deadline) }
        ensures no { OnFalse result (IsNotEarlier (run_of self.entry.now) self.entry.now.state j.0 processor deadline) }
    {
        if self.processor(j) != processor {
            return false;
        }
        match self.first(j) {
            Some(first) => goes_before(first.release, first.deadline, deadline, self.now),
            None => false,
        }
    }

    /// Whether a released unfinished job on this processor is due before `deadline`.
    fn is_overtaken(&self, processor: u32, deadline: u64) -> bool
        ensures yes { OnTrue result ((j : ℕ) × Overtakes (run_of self.entry.now) self.entry.now.state j processor deadline) }
        ensures no { OnFalse result ((j : ℕ) → j < length self.entry.now.plan.graph.tasks → IsNotEarlier (run_of self.entry.now) self.entry.now.state j processor deadline) }
    {
        for j in 0..self.tasks() {
            if self.overtakes(TaskNo(j), processor, deadline) {
                return true;
            }
        }
        false
    }

    /// Whether the first unfinished job of task `j` is due at the next tick.
    fn is_due(&self, j: TaskNo) -> bool
        requires { j.0 < length self.now.plan.graph.tasks }
        ensures yes { OnTrue result (IsDueFirst (run_of self.entry.now) self.entry.now.state j.0) }
        ensures no { OnFalse result (IsInTime (run_of self.entry.now) self.entry.now.state j.0) }
    {
        match self.first(j) {
            Some(first) => is_due(first.deadline, self.now),
            None => false,
        }
    }

    /// Whether an unfinished job is due at the next tick.
    fn has_due(&self) -> bool
        ensures yes { OnTrue result ((j : ℕ) × IsDueFirst (run_of self.entry.now) self.entry.now.state j) }
        ensures no { OnFalse result ((j : ℕ) → j < length self.entry.now.plan.graph.tasks → IsInTime (run_of self.entry.now) self.entry.now.state j) }
    {
        for j in 0..self.tasks() {
            if self.is_due(TaskNo(j)) {
                return true;
            }
        }
        false
    }

    /// Refused where a horizon job has not ended: the first such job of the lowest task that has one. Takes no memory.
    pub fn finished(&self) -> Result<(), Unfinished>
        ensures { MatchResult result (λ _. IsComplete (run_of self.entry.now) self.entry.now.state)
            (λ left. IsFirstUnfinished (run_of self.entry.now) self.entry.now.state left.task.0 left.job) }
    {
        for j in 0..self.tasks() {
            if let Some(first) = self.first(TaskNo(j)) {
                return Err(Unfinished {
                    task: TaskNo(j),
                    job: first.job,
                });
            }
        }
        Ok(())
    }

    /// Whether a tick keeps the rules.
    fn may_tick(&self) -> bool
        ensures yes { OnTrue result (KeepsLegal (run_of self.entry.now) self.entry.now.state Event.Tick) }
        ensures no { OnFalse result (FirstBroken (run_of self.entry.now) self.entry.now.state Event.Tick Rule.L4) }
    {
        if self.now >= self.horizon.end {
            return false;
        }
        if self.has_due() {
            return false;
        }
        true
    }

    /// The first unfinished job of the task, where an act of the task keeps the rules, or else the first rule that it breaks.
    fn may_act(&self, task: TaskNo) -> Result<u64, Rule>
        requires { task.0 < length self.now.plan.graph.tasks }
        ensures { MatchResult result
            (λ job. (job ≡ first_unfinished self.entry.now.state task.0) × KeepsLegal (run_of self.entry.now) self.entry.now.state (Event.Act task))
            (FirstBroken (run_of self.entry.now) self.entry.now.state (Event.Act task)) }
    {
        let Some(first) = self.first(task) else {
            return Err(Rule::L2);
        };
        if self.now < first.release {
            return Err(Rule::L1);
        }
        if self.is_overtaken(self.processor(task), first.deadline) {
            return Err(Rule::L3);
        }
        Ok(first.job)
    }

    /// The clock goes on by one tick.
    fn go_on(&mut self)
        requires { KeepsLegal (run_of self.old) self.old.state Event.Tick }
        ensures { self.exit.now ≡ record self.entry.now { state = after_event (run_of self.entry.now) self.entry.now.state Event.Tick } }
    {
        plan_facts(self.plan, self.horizon);
        self.now += 1;
    }

    /// The clock goes on by one tick, to the tick that is told. Where this breaks L4 the state stays. Takes no memory.
    pub fn tick(&mut self) -> Result<u64, Illegal>
        ensures ok { IfOk result (λ tick. KeepsLegal (run_of self.entry.now) self.entry.now.state Event.Tick × (tick ≡ self.entry.now.state.now + 1)
            × (self.exit.now ≡ record self.entry.now { state = after_event (run_of self.entry.now) self.entry.now.state Event.Tick })) }
        ensures err { IfErr result (λ e. FirstBroken (run_of self.entry.now) self.entry.now.state Event.Tick e.rule × (self.exit.now ≡ self.entry.now)) }
    {
        if !self.may_tick() {
            return Err(Illegal { rule: Rule::L4 });
        }
        self.go_on();
        Ok(self.now)
    }

    /// The choice among the tasks up to task `j`, from the choice among those below it.
    fn choice_with(&self, best: Option<Chosen>, j: TaskNo) -> Option<Chosen>
        requires task { j.0 < length self.now.plan.graph.tasks }
        requires best { IsChoice (run_of self.now) self.now.state j.0 best }
        ensures { IsChoice (run_of self.entry.now) self.entry.now.state (j.0 + 1) result }
    {
        plan_facts(self.plan, self.horizon);
        let Some(first) = self.first(j) else {
            return best;
        };
        if self.now < first.release {
            return best;
        }
        match best {
            Some(chosen) if chosen.deadline <= first.deadline => best,
            _ => Some(Chosen {
                task: j,
                deadline: first.deadline,
            }),
        }
    }

    /// The task that goes on next: the lowest one that has a released unfinished job which is due earliest. None where no
    /// unfinished job is released.
    fn earliest(&self) -> Option<Chosen>
        ensures { IsChoice (run_of self.entry.now) self.entry.now.state (length self.entry.now.plan.graph.tasks) result }
    {
        let mut best = None;
        for j in 0..self.tasks() {
            best = self.choice_with(best, TaskNo(j));
        }
        best
    }

    /// The event that comes next: an act of the released unfinished job that is due earliest, of the lowest such task; else a
    /// tick; none where every horizon job has ended. Takes no memory.
    pub fn next(&self) -> Option<Event>
        ensures { IsNext (run_of self.entry.now) self.entry.now.state result }
    {
        if let Some(chosen) = self.earliest() {
            return Some(Event::Act(chosen.task));
        }
        match self.finished() {
            Ok(()) => None,
            Err(_) => Some(Event::Tick),
        }
    }

    /// The job of the task does an action that neither writes nor ends the job, and stands at the cursor before it.
    fn pass(&mut self, task: TaskNo, cursor: Cursor)
        requires allowed { KeepsLegal (run_of self.old) self.old.state (Event.Act task) }
        requires reads { IsReading (next_action (run_of self.old) self.old.state task.0) }
        requires at { IsAt self.old.plan task.0 (first_unfinished self.old.state task.0) (slice_index self.old.state.places task.0) cursor }
        ensures { self.exit.now ≡ record self.entry.now { state = moved self.entry.now.state task.0 } }
    {
        let i = task.0 as usize;
        self.places[i] += 1;
        self.cursors[i] = cursor.moved();
    }

    /// The job of the task writes a half of its instance, and stands at the cursor before that.
    fn write(&mut self, task: TaskNo, job: u64, slot: SlotNo, cursor: Cursor)
        requires allowed { KeepsLegal (run_of self.old) self.old.state (Event.Act task) }
        requires job { job ≡ first_unfinished self.old.state task.0 }
        requires writes { (edge : EdgeNo) × (next_action (run_of self.old) self.old.state task.0 ≡ actions.Write edge job slot) }
        requires at { IsAt self.old.plan task.0 (first_unfinished self.old.state task.0) (slice_index self.old.state.places task.0) cursor }
        ensures { self.exit.now ≡ record self.entry.now { state = after_event (run_of self.entry.now) self.entry.now.state (Event.Act task) } }
    {
        let i = task.0 as usize;
        self.places[i] += 1;
        self.tags[slot.0 as usize] = job + 1;
        self.cursors[i] = cursor.moved();
    }

    /// The job of the task ends.
    fn end(&mut self, task: TaskNo, job: u64)
        requires allowed { KeepsLegal (run_of self.old) self.old.state (Event.Act task) }
        requires job { job ≡ first_unfinished self.old.state task.0 }
        requires ends { next_action (run_of self.old) self.old.state task.0 ≡ actions.End }
        ensures { self.exit.now ≡ record self.entry.now { state = after_action self.entry.now.state task.0 actions.End } }
    {
        plan_facts(self.plan, self.horizon);
        let i = task.0 as usize;
        self.ended[i] = job + 1;
        self.places[i] = 0;
        self.cursors[i] = Cursor { index: 0, rest: 0 };
        self.firsts[i] = first_at(self.plan, &self.placed, self.horizon, task, job + 1);
    }

    /// How many jobs of the task have ended: the number of its next one.
    fn ended_of(&self, task: TaskNo) -> u64
        requires { KeepsLegal (run_of self.now) self.now.state (Event.Act task) }
        ensures { result ≡ first_unfinished self.entry.now.state task.0 }
    {
        plan_facts(self.plan, self.horizon);
        self.ended[task.0 as usize]
    }

    /// How many jobs of a task have ended: the number of its next one. Takes no memory.
    pub fn ended(&self, task: TaskNo) -> u64
        requires { task.0 < length self.now.plan.graph.tasks }
        ensures { result ≡ first_unfinished self.entry.now.state task.0 }
    {
        plan_facts(self.plan, self.horizon);
        self.ended[task.0 as usize]
    }

    /// Where the next action of the task stands, and what it is.
    fn stop_of(&self, task: TaskNo, job: u64) -> NextAction
        requires allowed { KeepsLegal (run_of self.now) self.now.state (Event.Act task) }
        requires job { job ≡ first_unfinished self.now.state task.0 }
        ensures at { IsAt self.entry.now.plan task.0 (first_unfinished self.entry.now.state task.0) (slice_index self.entry.now.state.places task.0) result.cursor }
        ensures action { result.action ≡ next_action (run_of self.entry.now) self.entry.now.state task.0 }
    {
        plan_facts(self.plan, self.horizon);
        look_ups_fit();
        let i = task.0 as usize;
        self.routes
            .stop(self.plan, task, job, self.places[i], self.cursors[i])
    }

    /// The job of the task does its next action.
    fn proceed(&mut self, task: TaskNo, job: u64) -> Action
        requires allowed { KeepsLegal (run_of self.old) self.old.state (Event.Act task) }
        requires job { job ≡ first_unfinished self.old.state task.0 }
        ensures action { result ≡ next_action (run_of self.entry.now) self.entry.now.state task.0 }
        ensures state { self.exit.now ≡ record self.entry.now { state = after_event (run_of self.entry.now) self.entry.now.state (Event.Act task) } }
    {
        let stop = self.stop_of(task, job);
        match stop.action {
            Action::ReadConst { .. } => self.pass(task, stop.cursor),
            Action::Read { .. } => self.pass(task, stop.cursor),
            Action::Write { slot, .. } => self.write(task, job, slot, stop.cursor),
            Action::End => self.end(task, job),
        }
        stop.action
    }

    /// The first unfinished job of the task does its next action, which is told. Where this breaks a rule the first such rule
    /// is answered, and the state stays. Takes no memory.
    pub fn act(&mut self, task: TaskNo) -> Result<Acted, Illegal>
        requires { task.0 < length self.old.plan.graph.tasks }
        ensures ok { IfOk result (λ acted. KeepsLegal (run_of self.entry.now) self.entry.now.state (Event.Act task)
            × (acted.job ≡ first_unfinished self.entry.now.state task.0) × (acted.action ≡ next_action (run_of self.entry.now) self.entry.now.state task.0)
            × (self.exit.now ≡ record self.entry.now { state = after_event (run_of self.entry.now) self.entry.now.state (Event.Act task) })) }
        ensures err { IfErr result (λ e. FirstBroken (run_of self.entry.now) self.entry.now.state (Event.Act task) e.rule × (self.exit.now ≡ self.entry.now)) }
    {
        match self.may_act(task) {
            Ok(job) => Ok(Acted {
                job,
                action: self.proceed(task, job),
            }),
            Err(rule) => Err(Illegal { rule }),
        }
    }

    /// Does an event that keeps the rules, as the one that comes next does. Takes no memory.
    pub fn follow(&mut self, event: Event)
        requires { KeepsLegal (run_of self.old) self.old.state event }
        ensures { self.exit.now ≡ record self.entry.now { state = after_event (run_of self.entry.now) self.entry.now.state event } }
    {
        match event {
            Event::Tick => self.go_on(),
            Event::Act(task) => {
                let job = self.ended_of(task);
                self.proceed(task, job);
            }
        }
    }
}

impl<'a> Drop for Track<'a> {
    fn drop(self) {
        let Track {
            plan: _,
            placed,
            horizon: _,
            now: _,
            ended,
            places,
            tags,
            firsts,
            cursors,
            routes,
        } = self;
        drop(placed);
        drop(ended);
        drop(places);
        drop(tags);
        drop(firsts);
        drop(cursors);
        drop(routes);
    }
}
