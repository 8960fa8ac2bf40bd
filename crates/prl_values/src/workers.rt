//! What the open job of a task has read, and how its jobs come to what they give.

ghost use Rattle.std.specs.Prelude.{◌≡◌, ◌+◌, ◌<◌, ℕ, false, length, slice_get, slice_set, MatchOption, Some};
ghost use Rattle.prl_body.specs.Bodies.{body_named};
ghost use Rattle.prl_body.specs.declared.bodies.CheckedBody.{CheckedBody};
ghost use Rattle.prl_body.specs.declared.machines.Machine.{Machine as AnyMachine};
ghost use Rattle.prl_values.specs.Workers.{CanStep, IsReady, HasRun, HasTaken, HasBegun, HasEnded, HasNoMachine, HasMachine, StepsTo};

use prl_base::{Name, Value};
use prl_body::{Bodies, Machine};
use prl_flow::Sensors;

/// How the jobs of a task come to what they give.
pub enum Work {
    /// They give the rows of main's input of this number.
    Sensor(u32),
    /// They run the body of this name, one step each.
    Node { word: Name, machine: Machine },
    /// They hand on what they read, which stands here in their order.
    Actuator(Vec<Value>),
}

/// What a task works with.
pub struct Worker {
    /// By port, what the open job has read so far.
    pub operands: Vec<Value>,
    /// By output, what the task gave when its body ran last.
    pub outputs: Vec<Value>,
    /// Whether the body has run for the open job.
    pub ran: bool,
    pub work: Work,
}

/// One step of the body of this name.
fn step(
    bodies: &Bodies,
    word: &Name,
    machine: &mut Machine,
    operands: &[Value],
    outputs: &mut [Value],
)
    requires { (body : CheckedBody) × (body_named bodies.now word.now ≡ Some body) × CanStep body operands.now outputs.old machine.old }
    ensures { (body : CheckedBody) × (body_named bodies.now word.now ≡ Some body) × StepsTo body operands.now machine.old machine.new outputs.new }
{
    match bodies.of(word) {
        Some(body) => machine.step(body, operands, outputs),
        None => unreachable!(),
    }
}

impl Worker {
    /// Runs the body of a job.
    fn run(&mut self, sensors: &Sensors, bodies: &Bodies, job: u64)
        requires { IsReady sensors.now bodies.now job self.old.operands.items self.old }
        ensures { HasRun sensors.now bodies.now job self.old.operands.items self.old self.new }
    {
        self.ran = true;
        match &mut self.work {
            Work::Sensor(k) => self.outputs[0] = sensors.value(*k, job),
            Work::Node { word, machine } => {
                step(
                    bodies,
                    word,
                    machine,
                    self.operands.as_slice(),
                    &mut self.outputs,
                );
            }
            Work::Actuator(column) => column[job as usize] = self.operands[0],
        }
    }

    /// The open job completes the operand of a port; with its last one the body runs. Takes no memory.
    pub fn take(&mut self, sensors: &Sensors, bodies: &Bodies, port: u32, job: u64, value: Value)
        requires port { port < length self.old.operands.items }
        requires ready { port + 1 ≡ length self.old.operands.items →
            IsReady sensors.now bodies.now job (slice_set self.old.operands.items port value) self.old }
        ensures { HasTaken sensors.now bodies.now port job value self.old self.new }
    {
        self.operands[port as usize] = value;
        if port as usize + 1 == self.operands.len() {
            self.run(sensors, bodies, job);
        }
    }

    /// Runs the body of the open job, where it has not run. Takes no memory.
    pub fn begin(&mut self, sensors: &Sensors, bodies: &Bodies, job: u64)
        requires { self.old.ran ≡ false → IsReady sensors.now bodies.now job self.old.operands.items self.old }
        ensures { HasBegun sensors.now bodies.now job self.old self.new }
    {
        if !self.ran {
            self.run(sensors, bodies, job);
        }
    }

    /// What the task gave at an output.
    pub fn given(&self, out: u32) -> Value
        requires { out < length self.now.outputs.items }
        ensures { slice_get self.now.outputs.items out ≡ Some result }
    {
        self.outputs[out as usize]
    }

    /// The open job ends.
    pub fn end(&mut self)
        ensures { HasEnded self.old self.new }
    {
        self.ran = false;
    }

    /// The machine of a node task's body; none where the task is no node task.
    pub fn machine(&self) -> Option<&Machine>
        ensures { MatchOption result (HasNoMachine self.entry.now.work) (λ machine. HasMachine self.entry.now.work machine.now) }
    {
        match &self.work {
            Work::Node { machine, .. } => Some(machine),
            Work::Sensor(_) => None,
            Work::Actuator(_) => None,
        }
    }
}

impl Drop for Work {
    fn drop(self) {
        match self {
            Work::Node { word, machine } => {
                drop(word);
                drop(machine);
            }
            Work::Actuator(part) => drop(part),
            Work::Sensor(_) => {}
        }
    }
}

impl Drop for Worker {
    fn drop(self) {
        let Worker {
            operands,
            outputs,
            ran: _,
            work,
        } = self;
        drop(operands);
        drop(outputs);
        drop(work);
    }
}
