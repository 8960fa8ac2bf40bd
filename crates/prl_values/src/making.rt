//! The worker of a task before its first job. All its memory is taken here.

ghost use Rattle.std.specs.Prelude.{◌≡◌, ◌<◌, ◌^◌, length, IfOk};
ghost use Rattle.prl_plan.specs.Horizons.{IsHorizon};
ghost use Rattle.prl_values.specs.Vocabulary.{HaveTaskBodies, port_types, word_of};
ghost use Rattle.prl_values.specs.Workers.{IsNewWorker, IsNewWork, outs_of};

use crate::workers::{Work, Worker};
use prl_base::{Name, TaskNo, Value};
use prl_body::{Bodies, Machine};
use prl_plan::{Edge, Horizon, Kind, Plan, plan_is_one};
use std::alloc::{AllocError, Global};

/// How many of these edges lead to task `i`.
fn ports_of(edges: &[Edge], i: u32) -> usize
    requires { length edges.now < 2 ^ 32 }
    ensures { result ≡ length (port_types edges.now i) }
{
    let mut count = 0;
    for edge in edges {
        if edge.to.0 == i {
            count += 1;
        }
    }
    count
}

/// The word of a node task's name: all before `@`.
fn word_of(name: &[u8]) -> &[u8]
    ensures { result.now ≡ word_of name.now }
{
    for (i, byte) in name.iter().enumerate() {
        if *byte == b'@' {
            return &name[..i];
        }
    }
    name
}

/// How the jobs of a task come to what they give, and how many outputs there are.
fn work_of(
    alloc: Global,
    plan: &Plan,
    bodies: &Bodies,
    horizon: Horizon,
    i: TaskNo,
) -> Result<(Work, usize), AllocError>
    requires task { i.0 < length plan.now.graph.tasks }
    requires horizon { IsHorizon plan.now horizon }
    requires bodies { HaveTaskBodies plan.now.graph bodies.now }
    ensures { IfOk result (λ made. IsNewWork plan.now bodies.now horizon.until i.0 made.0 × (made.1 ≡ outs_of bodies.now made.0)) }
{
    plan_is_one(plan);
    let task = &plan.graph().tasks.as_slice()[i.0 as usize];
    match task.kind {
        Kind::Sensor(k) => Ok((Work::Sensor(k), 1)),
        Kind::Node(_) => {
            let word = Name::of_word(alloc, word_of(task.name.bytes()))?;
            match bodies.of(&word) {
                Some(body) => {
                    let machine = Machine::new(alloc, body)?;
                    Ok((Work::Node { word, machine }, body.parts().outs.len()))
                }
                None => unreachable!(),
            }
        }
        Kind::Actuator(_) => {
            let jobs = horizon.jobs_of(plan, i) as usize;
            Ok((Work::Actuator(vec![in alloc; Value::Int(0); jobs]?), 0))
        }
    }
}

impl Worker {
    /// The worker of a task before its first job.
    pub fn new(
        alloc: Global,
        plan: &Plan,
        bodies: &Bodies,
        horizon: Horizon,
        i: TaskNo,
    ) -> Result<Worker, AllocError>
        requires task { i.0 < length plan.now.graph.tasks }
        requires horizon { IsHorizon plan.now horizon }
        requires bodies { HaveTaskBodies plan.now.graph bodies.now }
        ensures { IfOk result (IsNewWorker plan.now bodies.now horizon.until i.0) }
    {
        plan_is_one(plan);
        let ports = ports_of(plan.graph().edges.as_slice(), i.0);
        let operands = vec![in alloc; Value::Int(0); ports]?;
        let (work, outs) = work_of(alloc, plan, bodies, horizon, i)?;
        let outputs = vec![in alloc; Value::Int(0); outs]?;
        Ok(Worker {
            operands,
            outputs,
            ran: false,
            work,
        })
    }
}
