//! The machine.

ghost use Rattle.std.specs.Prelude.{◌≡◌, ◌<◌, ℕ, length, IfOk, IfErr, MatchOption, MatchResult};
ghost use Rattle.prl_plan.specs.Vocabulary.{HasPlanFacts, IsHorizon, Placement, constants_on};
ghost use Rattle.prl_plan.specs.Vocabulary.{first_unfinished, IsComplete, IsFirstUnfinished};
ghost use Rattle.prl_plan.specs.Vocabulary.{KeepsLegal, FirstBroken, after_event};
ghost use Rattle.prl_values.specs.Fitting.{HaveTaskBodies, HaveTypedRows};
ghost use Rattle.prl_track.specs.Vocabulary.{IsNext, IsOfPlan, Drives};

use crate::laws::machine_laws;
use crate::stores::Store;
use crate::{Illegal, Seen, Unfinished};
use prl_base::{TaskNo, Value};
use prl_body::{Bodies, Machine};
use prl_flow::Sensors;
use prl_plan::{Event, Horizon, Kind, Placed, Plan, plan_facts, plan_is_one};
use prl_track::Track;
use prl_values::Work;
use std::alloc::{AllocError, Global};
use std::marker::Model;

/// The machine of a plan, its bodies, the rows of its sensors and a horizon. Contracts see a `CoreView`.
pub struct Core<'a> {
    plan: &'a Plan,
    bodies: &'a Bodies,
    sensors: &'a Sensors,
    horizon: Horizon,
    track: Track<'a>,
    store: Store,
}

impl<'a> Model for Core<'a> {
    ghost use Rattle.std.specs.Prelude.{◌≡◌};
    ghost use Rattle.std.specs.Coded.{codes};
    ghost use Rattle.prl_body.specs.contracts.codes.Code as code;
    ghost use Rattle.prl_core.specs.Cores.{CoreView};

    ghost Value = { CoreView };

    ghost coded = { Prim.hlevel (codes, code.the_row.coded) };

    ghost use Rattle.prl_core.specs.code.Kept.{IsKept};

    ghost view = { λ a. record { plan = a.track.plan; placement = a.track.placement; bodies = a.bodies.now; rows = a.sensors.now; horizon = a.track.horizon; state = a.track.state } };

    ghost invariant = { λ a. (a.plan.now ≡ a.track.plan) × (a.horizon ≡ a.track.horizon)
        × IsKept (record { plan = a.track.plan; placement = a.track.placement; bodies = a.bodies.now; rows = a.sensors.now; horizon = a.track.horizon; state = a.track.state }) a.store.halves.items a.store.workers.items };
}

impl<'a> Core<'a> {
    ghost use Rattle.prl_core.specs.Cores.{constants, opened, opened_on, Tells, AreOutputs, IsMachineOf, IsNoNode};

    /// The machine before the first event: no job has begun, and the cells are empty. Each node task has a body that fits it,
    /// and each sensor a row of its type for each job of the horizon. All tasks run on one processor.
    pub fn new(
        alloc: Global,
        plan: &'a Plan,
        bodies: &'a Bodies,
        sensors: &'a Sensors,
        horizon: Horizon,
    ) -> Result<Core<'a>, AllocError>
        requires horizon { IsHorizon plan.now horizon }
        requires bodies { HaveTaskBodies plan.now.graph bodies.now }
        requires rows { HaveTypedRows plan.now.graph horizon.until sensors.now }
        ensures { IfOk result (λ core. core ≡ opened plan.now bodies.now sensors.now horizon) }
    {
        plan_is_one(plan);
        plan_facts(plan, horizon);
        Core::on(alloc, plan, Placed::alone(plan), bodies, sensors, horizon)
    }

    /// The same, where each task runs on its processor, and jobs are released by these windows.
    pub fn on(
        alloc: Global,
        plan: &'a Plan,
        placed: Placed<'a>,
        bodies: &'a Bodies,
        sensors: &'a Sensors,
        horizon: Horizon,
    ) -> Result<Core<'a>, AllocError>
        requires horizon { IsHorizon plan.now horizon }
        requires windows { length placed.windows ≡ length plan.now.graph.tasks }
        requires facts { HasPlanFacts (constants_on plan.now placed horizon) }
        requires bodies { HaveTaskBodies plan.now.graph bodies.now }
        requires rows { HaveTypedRows plan.now.graph horizon.until sensors.now }
        ensures { IfOk result (λ core. core ≡ opened_on plan.now placed.entry bodies.now sensors.now horizon) }
    {
        plan_is_one(plan);
        let track = Track::on(alloc, plan, placed, horizon)?;
        let store = Store::new(alloc, plan, bodies, horizon)?;
        Ok(Core {
            plan,
            bodies,
            sensors,
            horizon,
            track,
            store,
        })
    }

    /// The clock goes on by one tick.
    fn tick(&mut self) -> Result<Seen, Illegal>
        ensures ok { IfOk result (λ seen. KeepsLegal (constants self.entry.now) self.entry.now.state Event.Tick × Tells self.entry.now Event.Tick seen
            × (self.exit.now ≡ record self.entry.now { state = after_event (constants self.entry.now) self.entry.now.state Event.Tick })) }
        ensures err { IfErr result (λ e. FirstBroken (constants self.entry.now) self.entry.now.state Event.Tick e.rule × (self.exit.now ≡ self.entry.now)) }
    {
        machine_laws();
        let tick = self.track.tick()?;
        Ok(Seen::Ticked(tick))
    }

    /// An act of the task.
    fn act(&mut self, task: TaskNo) -> Result<Seen, Illegal>
        requires { task.0 < length self.old.plan.graph.tasks }
        ensures ok { IfOk result (λ seen. KeepsLegal (constants self.entry.now) self.entry.now.state (Event.Act task) × Tells self.entry.now (Event.Act task) seen
            × (self.exit.now ≡ record self.entry.now { state = after_event (constants self.entry.now) self.entry.now.state (Event.Act task) })) }
        ensures err { IfErr result (λ e. FirstBroken (constants self.entry.now) self.entry.now.state (Event.Act task) e.rule × (self.exit.now ≡ self.entry.now)) }
    {
        machine_laws();
        let acted = self.track.act(task)?;
        Ok(
            self.store
                .serve(self.plan, self.sensors, self.bodies, task, acted),
        )
    }

    /// Does one event, and tells what it saw. An event that breaks a rule is answered by the first that it breaks, and
    /// changes nothing. Takes no memory.
    pub fn step(&mut self, event: Event) -> Result<Seen, Illegal>
        requires { IsOfPlan self.old.plan event }
        ensures ok { IfOk result (λ seen. KeepsLegal (constants self.entry.now) self.entry.now.state event × Tells self.entry.now event seen
            × (self.exit.now ≡ record self.entry.now { state = after_event (constants self.entry.now) self.entry.now.state event })) }
        ensures err { IfErr result (λ e. FirstBroken (constants self.entry.now) self.entry.now.state event e.rule × (self.exit.now ≡ self.entry.now)) }
    {
        match event {
            Event::Tick => self.tick(),
            Event::Act(task) => self.act(task),
        }
    }

    /// Refused where a horizon job has not ended: the first such job of the lowest task that has one. Takes no memory.
    pub fn finished(&self) -> Result<(), Unfinished>
        ensures { MatchResult result (λ _. IsComplete (constants self.entry.now) self.entry.now.state)
            (λ left. IsFirstUnfinished (constants self.entry.now) self.entry.now.state left.task.0 left.job) }
    {
        self.track.finished()
    }

    /// The event that comes next: an act of the released unfinished job that is due earliest, of the lowest such task; else a
    /// tick; none where every horizon job has ended. Takes no memory.
    pub fn next(&self) -> Option<Event>
        ensures { IsNext (constants self.entry.now) self.entry.now.state result }
    {
        self.track.next()
    }

    /// The task of the actuator of main's output of this number.
    fn task_of(&self, actuator: u32) -> usize
        requires { (i : ℕ) × Drives self.now.plan i actuator }
        ensures { Drives self.entry.now.plan result actuator }
    {
        for (i, task) in self.plan.graph().tasks.as_slice().iter().enumerate() {
            if task.kind == Kind::Actuator(actuator) {
                return i;
            }
        }
        unreachable!()
    }

    /// The values of the ended jobs of the actuator of main's output of this number, in order. Takes no memory.
    pub fn output(&self, actuator: u32) -> &[Value]
        requires { (i : ℕ) × Drives self.now.plan i actuator }
        ensures { (i : ℕ) × Drives self.entry.now.plan i actuator × AreOutputs self.entry.now i result.now }
    {
        machine_laws();
        let i = self.task_of(actuator);
        let ended = self.track.ended(TaskNo(i as u32)) as usize;
        match &self.store.workers[i].work {
            Work::Actuator(column) => &column.as_slice()[..ended],
            Work::Sensor(_) => unreachable!(),
            Work::Node { .. } => unreachable!(),
        }
    }

    /// The machine of a node task's body; none where the task is no node task. Takes no memory.
    pub fn machine(&self, task: TaskNo) -> Option<&Machine>
        requires { task.0 < length self.now.plan.graph.tasks }
        ensures { MatchOption result (IsNoNode self.entry.now task.0) (λ machine. IsMachineOf self.entry.now task.0 machine.now) }
    {
        self.store.workers[task.0 as usize].machine()
    }
}

impl<'a> Drop for Core<'a> {
    fn drop(self) {
        let Core {
            plan: _,
            bodies: _,
            sensors: _,
            horizon: _,
            track,
            store,
        } = self;
        drop(track);
        drop(store);
    }
}
