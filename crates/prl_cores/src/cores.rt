//! The machine of a plan on several processors.

ghost use Rattle.std.specs.Prelude.{◌≡◌, ℕ, IfOk, IfErr, MatchResult};
ghost use Rattle.prl_plan.specs.Vocabulary.{IsHorizon, IsComplete, IsFirstUnfinished, KeepsLegal};
ghost use Rattle.prl_plan.specs.Vocabulary.{FirstBroken, after_event};
ghost use Rattle.prl_values.specs.Fitting.{HaveTaskBodies, HaveTypedRows};
ghost use Rattle.prl_track.specs.Vocabulary.{IsNext, IsOfPlan, Drives};
ghost use Rattle.prl_cores.specs.Spreads.{IsSpreadOf};

use crate::Spread;
use crate::laws::spread_plans_keep_facts;
use prl_base::Value;
use prl_body::Bodies;
use prl_core::Core;
use prl_flow::Sensors;
use prl_plan::{Event, Horizon, Plan, plan_is_one};
use prl_track::{Illegal, Seen, Unfinished};
use std::alloc::{AllocError, Global};
use std::marker::Model;

/// The machine of a plan that is spread over processors, with its bodies, the rows of its sensors and a horizon. All processors
/// share one clock. Contracts see the `CoreView` of its one machine.
pub struct Cores<'a> {
    core: Core<'a>,
}

impl<'a> Model for Cores<'a> {
    ghost use Rattle.std.specs.Prelude.{◌≡◌};
    ghost use Rattle.std.specs.Coded.{codes};
    ghost use Rattle.prl_body.specs.contracts.codes.Code as code;
    ghost use Rattle.prl_core.specs.Cores.{CoreView};

    ghost Value = { CoreView };

    ghost coded = { Prim.hlevel (codes, code.the_row.coded) };

    ghost view = { λ a. a.core };
}

impl<'a> Cores<'a> {
    ghost use Rattle.prl_core.specs.Cores.{constants, opened_on, Tells, AreOutputs};

    /// The machine before the first event. Each node task has a body that fits it, and each sensor a row of its type for each job
    /// of the horizon.
    pub fn new(
        alloc: Global,
        plan: &'a Plan,
        spread: &'a Spread,
        bodies: &'a Bodies,
        sensors: &'a Sensors,
        horizon: Horizon,
    ) -> Result<Cores<'a>, AllocError>
        requires horizon { IsHorizon plan.now horizon }
        requires spread { IsSpreadOf plan.now spread.now }
        requires bodies { HaveTaskBodies plan.now.graph bodies.now }
        requires rows { HaveTypedRows plan.now.graph horizon.until sensors.now }
        ensures { IfOk result (λ cores. cores ≡ opened_on plan.now spread.now.placement bodies.now sensors.now horizon) }
    {
        plan_is_one(plan);
        spread_plans_keep_facts();
        let core = Core::on(alloc, plan, spread.placed(), bodies, sensors, horizon)?;
        Ok(Cores { core })
    }

    /// Does one event, and tells what it saw. An event that breaks a rule is answered by the first that it breaks, and changes nothing;
    /// a job may not act while an earlier due one of its processor is released. Takes no memory.
    pub fn step(&mut self, event: Event) -> Result<Seen, Illegal>
        requires { IsOfPlan self.old.plan event }
        ensures ok { IfOk result (λ seen. KeepsLegal (constants self.entry.now) self.entry.now.state event × Tells self.entry.now event seen
            × (self.exit.now ≡ record self.entry.now { state = after_event (constants self.entry.now) self.entry.now.state event })) }
        ensures err { IfErr result (λ e. FirstBroken (constants self.entry.now) self.entry.now.state event e.rule × (self.exit.now ≡ self.entry.now)) }
    {
        self.core.step(event)
    }

    /// Refused where a horizon job has not ended: the first such job of the lowest task that has one. Takes no memory.
    pub fn finished(&self) -> Result<(), Unfinished>
        ensures { MatchResult result (λ _. IsComplete (constants self.entry.now) self.entry.now.state)
            (λ left. IsFirstUnfinished (constants self.entry.now) self.entry.now.state left.task.0 left.job) }
    {
        self.core.finished()
    }

    /// The event that comes next: an act of the released unfinished job of all processors that is due earliest, of the lowest such
    /// task; else a tick; none where every horizon job has ended. Takes no memory.
    pub fn next(&self) -> Option<Event>
        ensures { IsNext (constants self.entry.now) self.entry.now.state result }
    {
        self.core.next()
    }

    /// The values of the ended jobs of the actuator of main's output of this number, in order. Takes no memory.
    pub fn output(&self, actuator: u32) -> &[Value]
        requires { (i : ℕ) × Drives self.now.plan i actuator }
        ensures { (i : ℕ) × Drives self.entry.now.plan i actuator × AreOutputs self.entry.now i result.now }
    {
        self.core.output(actuator)
    }
}

impl<'a> Drop for Cores<'a> {
    fn drop(self) {
        let Cores { core } = self;
        drop(core);
    }
}
