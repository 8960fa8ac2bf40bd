//! What a seat of the board knows, as plain data, of which no value is made, and the rule of the
//! table.

ghost use Rattle.std.specs.Prelude.{◌≡◌};
ghost use Rattle.std.specs.Bool.{OnTrue, OnFalse};
ghost use Rattle.prl_rule.specs.declared.views.Gate.TheVariants as gates;

use atomic_table::TableRule;
use prl_base::Value;
use prl_body::Bodies;
use prl_flow::Sensors;
use prl_plan::{Horizon, Plan};
use std::collections::LinkedList;

/// Whether the clock waits for the jobs that are due.
#[derive(Clone, Copy)]
pub enum Gate {
    /// A tick comes only when every horizon job that is due by it has ended.
    Gated,
    /// A tick comes at any time.
    Free,
}

impl Gate {
    /// Whether the clock waits for the jobs that are due.
    pub fn is_gated(&self) -> bool
        ensures yes { OnTrue result (self.now ≡ gates.Gated) }
        ensures no { OnFalse result (self.now ≡ gates.Gated → ⊥) }
    {
        match self {
            Gate::Gated => true,
            Gate::Free => false,
        }
    }
}

/// What a run is about.
pub struct Constants {
    pub plan: Plan,
    pub horizon: Horizon,
    pub gate: Gate,
    pub sensors: Sensors,
    pub bodies: Bodies,
}

/// Where a task stands.
pub struct Standing {
    /// How many of its jobs have ended.
    pub ended: u64,
    /// The place of the next action among those of its next job.
    pub place: u64,
    pub is_open: bool,
    /// The greatest `now` that was loaded for it.
    pub now: u64,
}

/// What was loaded last of a half.
pub struct KeptHalf {
    pub word: u64,
    /// Of which half: twice the cell's number, and 1 more where it is the high half.
    pub slot: u64,
    /// The low half of the operand that is being read, once it is there.
    pub low: u64,
}

/// The values of a task.
pub struct HeldValues {
    /// What the open job has read so far, in the order of its ports.
    pub operands: LinkedList<Value>,
    pub registers: LinkedList<Value>,
    /// What each job has given whose body has run.
    pub outputs: LinkedList<LinkedList<Value>>,
}

/// What is known of the stop word.
pub struct KeptStop {
    /// The stop word that was loaded last.
    pub word: u64,
    pub raised: bool,
}

/// What the holder of a task's part knows.
pub struct TaskPart {
    pub stand: Standing,
    pub kept: KeptHalf,
    pub values: HeldValues,
    pub stop: KeptStop,
    pub loads: u64,
}

/// What the holder of the clock's part knows.
pub struct ClockPart {
    pub now: u64,
    /// By task, the done word that was loaded last.
    pub looks: LinkedList<u64>,
    pub count: u64,
    /// The stop word that was loaded last.
    pub stop: u64,
}

/// What a seat knows.
pub struct View {
    /// None in a spent view.
    pub constants: Option<Constants>,
    /// A place for each task, which is filled where the view has the task's part.
    pub tasks: LinkedList<Option<TaskPart>>,
    pub clock: Option<ClockPart>,
}

/// What the table is told when it is made.
#[derive(Clone, Copy)]
pub struct About<'a> {
    pub plan: &'a Plan,
    pub sensors: &'a Sensors,
    pub bodies: &'a Bodies,
    pub horizon: Horizon,
    pub gate: Gate,
}

/// The rule of the table.
pub struct Running;

impl<'a> TableRule<(), View, About<'a>> for Running {
    ghost use Rattle.prl_rule.specs.Known.{known};
    ghost use Rattle.prl_rule.specs.Rule.{Agreed, all_parts};

    ghost holds = { λ about. Agreed (known about.plan.now about.horizon about.gate about.sensors.now about.bodies.now) };

    ghost first = { λ about. all_parts (known about.plan.now about.horizon about.gate about.sensors.now about.bodies.now) };
}
