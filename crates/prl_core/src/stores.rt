//! Stores: the values of a machine, in the halves of cells and by task.

ghost use Rattle.std.specs.Prelude.{◌≡◌, ◌*◌, ◌<◌, ◌%◌, ℕ, length, sum, IfOk};
ghost use Rattle.prl_base.specs.declared.numbers.TaskNo.{TaskNo as AnyTask};
ghost use Rattle.prl_plan.specs.declared.events.Action.TheVariants as actions;
ghost use Rattle.prl_plan.specs.declared.graphs.Producer.TheVariants as producers;
ghost use Rattle.prl_plan.specs.Vocabulary.{IsHorizon, edge_at};
ghost use Rattle.prl_values.specs.Fitting.{HaveTaskBodies};
ghost use Rattle.prl_track.specs.Machine.{cell_no, sight_of_write};
ghost use Rattle.prl_core.specs.code.Stores.{AreNewWorkers, CanTake, CanRead, CanGive, CanBegin, CanServe, Takes, DoesRead, Gives, Ends, Serves};

use prl_base::{EdgeNo, TaskNo, Value};
use prl_body::Bodies;
use prl_flow::Sensors;
use prl_plan::{Action, Horizon, Plan, Producer, SlotNo};
use prl_track::{Acted, Seen};
use prl_values::Worker;
use std::alloc::{AllocError, Global};

/// The values of a machine.
pub(crate) struct Store {
    /// By half of a cell, the value of which it holds a half.
    pub(crate) halves: Vec<Value>,
    pub(crate) workers: Vec<Worker>,
}

/// The output of its task that an edge comes from.
fn output_of(plan: &Plan, e: EdgeNo) -> u32
    requires edge { e.0 < length plan.now.graph.edges }
    requires port { (task : AnyTask) × (out : ℕ) × ((edge_at plan.now.graph e.0).from ≡ producers.Port task out) }
    ensures { (task : AnyTask) × ((edge_at plan.now.graph e.0).from ≡ producers.Port task result) }
{
    match plan.graph().edges.as_slice()[e.0 as usize].from {
        Producer::Port { out, .. } => out,
        Producer::Constant(_) => unreachable!(),
    }
}

impl Store {
    /// The store before the first event.
    pub(crate) fn new(
        alloc: Global,
        plan: &Plan,
        bodies: &Bodies,
        horizon: Horizon,
    ) -> Result<Store, AllocError>
        requires horizon { IsHorizon plan.now horizon }
        requires bodies { HaveTaskBodies plan.now.graph bodies.now }
        ensures halves { IfOk result (λ store. length store.halves.items ≡ 2 * sum plan.now.counts) }
        ensures workers { IfOk result (λ store. AreNewWorkers plan.now bodies.now horizon.until store.workers.items) }
    {
        let mut workers = Vec::new(alloc);
        for i in 0..plan.graph().tasks.len() {
            workers.push(Worker::new(alloc, plan, bodies, horizon, TaskNo(i as u32))?)?;
        }
        let slots = 2 * plan.total() as usize;
        let halves = vec![in alloc; Value::Int(0); slots]?;
        Ok(Store { halves, workers })
    }

    /// The open job of a task completes an operand.
    fn take(
        &mut self,
        sensors: &Sensors,
        bodies: &Bodies,
        task: TaskNo,
        job: u64,
        port: u32,
        value: Value,
    )
        requires { CanTake sensors.now bodies.now self.old.workers.items task.0 job port value }
        ensures halves { self.new.halves ≡ self.old.halves }
        ensures workers { Takes sensors.now bodies.now task.0 job port value self.old.workers.items self.new.workers.items }
    {
        self.workers[task.0 as usize].take(sensors, bodies, port, job, value);
    }

    /// A job reads a half of an instance.
    fn read(
        &mut self,
        sensors: &Sensors,
        bodies: &Bodies,
        task: TaskNo,
        job: u64,
        port: u32,
        edge: EdgeNo,
        instance: u64,
        slot: SlotNo,
    ) -> Seen
        requires slot { slot.0 < length self.old.halves.items }
        requires reads { CanRead sensors.now bodies.now self.old.halves.items self.old.workers.items task.0 job port slot.0 (slot.0 % 2) }
        ensures halves { self.new.halves.items ≡ self.old.halves.items }
        ensures read { DoesRead sensors.now bodies.now self.old.halves.items self.old.workers.items self.new.workers.items task job port (actions.Read port edge instance slot) (slot.0 % 2) result }
    {
        let cell = slot.cell();
        if slot.is_low() {
            return Seen::Half {
                task,
                job,
                edge,
                cell,
            };
        }
        let value = self.halves[slot.0 as usize];
        self.take(sensors, bodies, task, job, port, value);
        Seen::Read {
            task,
            job,
            port,
            edge,
            instance,
            cell,
            value,
        }
    }

    /// A job writes a half of its instance.
    fn write(
        &mut self,
        sensors: &Sensors,
        bodies: &Bodies,
        task: TaskNo,
        job: u64,
        out: u32,
        slot: SlotNo,
    )
        requires slot { slot.0 < length self.old.halves.items }
        requires gives { CanGive sensors.now bodies.now self.old.workers.items task.0 job out }
        ensures { Gives sensors.now bodies.now task.0 job out slot.0 self.old.halves.items self.new.halves.items self.old.workers.items self.new.workers.items }
    {
        let worker = &mut self.workers[task.0 as usize];
        worker.begin(sensors, bodies, job);
        self.halves[slot.0 as usize] = worker.given(out);
    }

    /// A job ends.
    fn end(&mut self, sensors: &Sensors, bodies: &Bodies, task: TaskNo, job: u64)
        requires { CanBegin sensors.now bodies.now self.old.workers.items task.0 job }
        ensures halves { self.new.halves ≡ self.old.halves }
        ensures ends { Ends sensors.now bodies.now task.0 job self.old.workers.items self.new.workers.items }
    {
        let worker = &mut self.workers[task.0 as usize];
        worker.begin(sensors, bodies, job);
        worker.end();
    }

    /// A job of the task does an action, which is told.
    pub(crate) fn serve(
        &mut self,
        plan: &Plan,
        sensors: &Sensors,
        bodies: &Bodies,
        task: TaskNo,
        acted: Acted,
    ) -> Seen
        requires { CanServe plan.now.graph sensors.now bodies.now self.old.halves.items self.old.workers.items task.0 acted.job acted.action }
        ensures { Serves plan.now.graph sensors.now bodies.now task acted.job self.old.halves.items self.new.halves.items self.old.workers.items self.new.workers.items acted.action result }
    {
        let job = acted.job;
        match acted.action {
            Action::ReadConst { port, value } => {
                self.take(sensors, bodies, task, job, port, value);
                Seen::ReadConst {
                    task,
                    job,
                    port,
                    value,
                }
            }
            Action::Read {
                port,
                edge,
                instance,
                slot,
            } => self.read(sensors, bodies, task, job, port, edge, instance, slot),
            Action::Write { edge, slot, .. } => {
                self.write(sensors, bodies, task, job, output_of(plan, edge), slot);
                sight_of_write(task, job, edge, slot)
            }
            Action::End => {
                self.end(sensors, bodies, task, job);
                Seen::Ended { task, job }
            }
        }
    }
}

/// What is told of a write of a half.
fn sight_of_write(task: TaskNo, job: u64, edge: EdgeNo, slot: SlotNo) -> Seen
    ensures { result ≡ sight_of_write task job edge (cell_no slot) (slot.0 % 2) }
{
    let cell = slot.cell();
    if slot.is_low() {
        Seen::Half {
            task,
            job,
            edge,
            cell,
        }
    } else {
        Seen::Wrote {
            task,
            job,
            edge,
            cell,
        }
    }
}

impl Drop for Store {
    fn drop(self) {
        let Store { halves, workers } = self;
        drop(halves);
        drop(workers);
    }
}
