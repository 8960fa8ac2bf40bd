//! Task graphs: periodic tasks, and the edges over which they hand values on.

use prl_base::{Clock, Label, Op, Seq, TaskNo, Ty, Value};

/// What a task is for.
#[derive(Clone, Copy, PartialEq, Eq)]
pub enum Kind {
    /// It reads the sensor of main's input of this number.
    Sensor(u32),
    /// It runs the imported application of this number.
    Node(u32),
    /// It drives the actuator of main's output of this number.
    Actuator(u32),
}

/// A strictly periodic task. Its jobs are numbered from 0 and released at the dates of its clock.
#[derive(Drop)]
pub struct Task {
    pub name: Label,
    pub kind: Kind,
    pub clock: Clock,
    /// The worst-case execution time of a job, in ticks.
    pub wcet: u32,
    /// The deadline of a job, in ticks after its release.
    pub due: u64,
}

/// Where the values of an edge come from.
#[derive(Clone, Copy)]
pub enum Producer {
    /// An output of a task.
    Port { task: TaskNo, out: u32 },
    /// The same value always.
    Constant(Value),
}

/// An edge of a task graph: one input port of its consumer.
#[derive(Drop)]
pub struct Edge {
    pub from: Producer,
    /// The consumer.
    pub to: TaskNo,
    /// The input port of the consumer.
    pub port: u32,
    /// The operators between the two, that nearest to the consumer first.
    pub ops: Seq<Op>,
    /// The period of the producer's flow, in ticks.
    pub period: u64,
    /// The type of the producer's flow.
    pub ty: Ty,
}

/// Tasks and the edges among them.
pub struct TaskGraph {
    pub tasks: Seq<Task>,
    pub edges: Seq<Edge>,
    /// The hyperperiod, in ticks.
    pub hyper: u64,
}

impl Drop for TaskGraph {
    fn drop(self) {
        let TaskGraph {
            tasks,
            edges,
            hyper: _,
        } = self;
        drop(tasks);
        drop(edges);
    }
}
