//! Whether a graph is well formed.

ghost use Rattle.std.specs.Prelude.{◌≡◌, ◌+◌, ◌*◌, ◌/◌, ◌<◌, ◌≤◌, ◌^◌, ◌↔◌, ◌==◌, length, map, sum, true, decimal, IfSome, IsTrue};
ghost use Rattle.std.specs.List.{list_all, list_any};
ghost use Rattle.std.specs.Str.{bytes_eq};
ghost use Rattle.prl_plan.specs.Graphs.{IsWellFormed, is_actuator, is_sensor};
ghost use Rattle.prl_plan.specs.declared.limits.TheConstants.{MAX_EDGES, MAX_TASKS, MAX_HYPER};
ghost use Rattle.prl_plantext.specs.code.Checks.{actuators_have_one, are_in_order, are_numbered, clock_before, comes_with, counted, divides, earlier_by, earlier_by_parts, faster, gives, has_name, have_edges, have_own_names, have_tasks, is_edge, is_edge_into, is_elsewhere_or_first, is_name, is_next, is_of_type, is_operator_for, is_positive, is_same_clock, is_small, is_source, is_task, is_task_name, is_well_formed, may_follow, none_counted, ports_follow, producer_clock};

use crate::cutting::cut_at;
use itoa::Buffer;
use prl_base::{Clock, MAX_FACTOR, Op, Ty, Value, is_word};
use prl_plan::{
    Edge, Kind, MAX_EDGES, MAX_HYPER, MAX_PERIOD_JOBS, MAX_TASKS, Producer, Task, TaskGraph,
};

/// The most bytes of a name.
const NAME_BYTES: usize = 64;

/// How many tasks of each kind there are.
#[derive(Clone, Copy)]
pub(crate) struct Counts {
    sensors: u32,
    nodes: u32,
    actuators: u32,
}

/// Whether after so many tasks one of this kind may come next, with this number.
fn may_follow(counts: Counts, kind: Kind) -> bool
    ensures { result ≡ may_follow counts kind }
{
    match kind {
        Kind::Sensor(k) => k == counts.sensors && counts.nodes == 0 && counts.actuators == 0,
        Kind::Node(k) => k == counts.nodes && counts.actuators == 0,
        Kind::Actuator(k) => k == counts.actuators,
    }
}

/// The counts with one task more.
fn counted(counts: Counts, kind: Kind) -> Counts
    requires { counts.sensors + counts.nodes + counts.actuators ≤ MAX_TASKS }
    ensures counts { result ≡ counted counts kind }
    ensures one { result.sensors + result.nodes + result.actuators ≡ counts.sensors + counts.nodes + counts.actuators + 1 }
{
    match kind {
        Kind::Sensor(_) => Counts {
            sensors: counts.sensors + 1,
            ..counts
        },
        Kind::Node(_) => Counts {
            nodes: counts.nodes + 1,
            ..counts
        },
        Kind::Actuator(_) => Counts {
            actuators: counts.actuators + 1,
            ..counts
        },
    }
}

/// Whether the tasks of sensors, of nodes and of actuators stand in this order, and each kind is numbered from 0.
fn are_numbered(tasks: &[Task]) -> bool
    requires { length tasks.now ≤ MAX_TASKS }
    ensures { result ≡ are_numbered none_counted tasks.now }
{
    let mut counts = Counts {
        sensors: 0,
        nodes: 0,
        actuators: 0,
    };
    for task in tasks {
        if !may_follow(counts, task.kind) {
            return false;
        }
        counts = counted(counts, task.kind);
    }
    true
}

fn is_name(bytes: &[u8]) -> bool
    ensures { result ≡ is_name bytes.now }
{
    is_word(bytes) && bytes.len() <= NAME_BYTES
}

/// Whether the bytes are a number in decimal, as it is written.
fn is_decimal(bytes: &[u8], number: u32) -> bool
    ensures { result ≡ bytes_eq bytes.now (decimal number) }
{
    let mut buffer = Buffer::new();
    buffer.format(number).as_bytes() == bytes
}

/// Whether a task of this kind may have the name.
fn is_task_name(kind: Kind, name: &[u8]) -> bool
    ensures { result ≡ is_task_name kind name.now }
{
    match kind {
        Kind::Sensor(_) | Kind::Actuator(_) => is_name(name),
        Kind::Node(k) => {
            let (import, number) = cut_at(name, b'@');
            is_name(import) && is_decimal(number, k)
        }
    }
}

/// Whether the number is from 1 to 2^31 - 1.
fn is_positive(number: u64) -> bool
    ensures { result ≡ is_positive number }
{
    1 <= number && number < 1 << 31
}

/// Whether the number is from 1 on and divides the other.
fn divides(number: u64, other: u64) -> bool
    ensures { result ≡ divides number other }
{
    1 <= number && other % number == 0
}

/// Whether a task is one of a graph with this hyperperiod, but for its number.
fn is_task(hyper: u64, task: &Task) -> bool
    ensures { result ≡ is_task hyper task.now }
{
    let clock = task.clock;
    is_task_name(task.kind, task.name.bytes())
        && is_positive(clock.period)
        && clock.start < 1 << 31
        && is_positive(u64::from(task.wcet))
        && 1 <= task.due
        && task.due <= clock.period
        && divides(clock.period, hyper)
}

fn are_tasks(hyper: u64, tasks: &[Task]) -> bool
    ensures { result ≡ list_all (is_task hyper) tasks.now }
{
    tasks.iter().all(|task| is_task(hyper, task))
}

/// Whether some task has the name.
fn has_name(name: &[u8], tasks: &[Task]) -> bool
    ensures { result ≡ has_name name.now tasks.now }
{
    tasks.iter().any(|task| task.name.bytes() == name)
}

/// Whether all names differ.
fn have_own_names(tasks: &[Task]) -> bool
    ensures { result ≡ have_own_names tasks.now }
{
    let mut rest = tasks;
    while let [task, later @ ..] = rest {
        if has_name(task.name.bytes(), later) {
            return false;
        }
        rest = later;
    }
    true
}

/// How many jobs the tasks have in a hyperperiod.
fn jobs_in(hyper: u64, tasks: &[Task]) -> u64
    requires tasks { list_all (is_task hyper) tasks.now ≡ true }
    requires few { length tasks.now ≤ MAX_TASKS }
    requires short { hyper ≤ MAX_HYPER }
    ensures { result ≡ sum (map (λ task. hyper / task.clock.period) tasks.now) }
{
    let mut jobs = 0;
    for task in tasks {
        jobs += hyper / task.clock.period;
    }
    jobs
}

/// Whether a value has the type.
#[tactic(auto, using(crate::proofs::Integers::integer_is))]
fn is_of_type(ty: Ty, value: Value) -> bool
    ensures { result ≡ is_of_type ty value }
{
    match ty {
        Ty::Int => match value {
            Value::Int(_number) => true,
            Value::Bool(_) => false,
        },
        Ty::Bool => match value {
            Value::Int(_) => false,
            Value::Bool(_) => true,
        },
    }
}

/// Whether an operator's numbers and constants are in range on an edge of this type.
fn is_operator_for(ty: Ty, op: Op) -> bool
    ensures { result ≡ is_operator_for ty op }
{
    match op {
        Op::Fby(value) | Op::Cons(value) => is_of_type(ty, value),
        Op::Tail => true,
        Op::Up(k) | Op::Down(k) => 1 <= k && u64::from(k) <= MAX_FACTOR,
        Op::Shift(ratio) => ratio.den >= 1 && ratio.num >= 0,
    }
}

fn are_operators_for(ty: Ty, ops: &[Op]) -> bool
    ensures { result ≡ list_all (is_operator_for ty) ops.now }
{
    ops.iter().all(|op| is_operator_for(ty, *op))
}

/// The clock so much earlier, where that has a start of at least 0.
fn earlier_by(ticks: u64, clock: Clock) -> Option<Clock>
    ensures clock { result ≡ earlier_by ticks clock }
    ensures start { IfSome result (λ before. before.start ≤ clock.start) }
{
    if ticks <= clock.start {
        Some(Clock {
            period: clock.period,
            start: clock.start - ticks,
        })
    } else {
        None
    }
}

/// The clock that a flow has where an operator on it gives this clock, if there is one.
fn clock_before(ty: Ty, op: Op, clock: Clock) -> Option<Clock>
    requires operator { is_operator_for ty op ≡ true }
    requires period { clock.period ≤ MAX_HYPER }
    requires start { clock.start < 2 ^ 62 }
    ensures clock { result ≡ clock_before op clock }
    ensures start { IfSome result (λ before. before.start ≤ clock.start + MAX_HYPER) }
{
    let Clock { period, start } = clock;
    match op {
        Op::Fby(_) => Some(clock),
        Op::Cons(_) => Some(Clock {
            period,
            start: start + period,
        }),
        Op::Tail => earlier_by(period, clock),
        Op::Up(k) => Some(Clock {
            period: u64::from(k) * period,
            start,
        }),
        Op::Down(k) => faster(u64::from(k), clock),
        Op::Shift(ratio) => {
            earlier_by_parts(ratio.num.unsigned_abs() * period, ratio.den, clock)
        }
    }
}

/// The clock that is so many times as fast, where its period is whole.
fn faster(k: u64, clock: Clock) -> Option<Clock>
    requires { 1 ≤ k }
    ensures clock { result ≡ faster k clock }
    ensures start { IfSome result (λ before. before.start ≡ clock.start) }
{
    if clock.period % k == 0 {
        Some(Clock {
            period: clock.period / k,
            start: clock.start,
        })
    } else {
        None
    }
}

/// The clock so many parts of a tick earlier, where it is whole.
fn earlier_by_parts(parts: u64, of: u64, clock: Clock) -> Option<Clock>
    requires { 1 ≤ of }
    ensures clock { result ≡ earlier_by_parts parts of clock }
    ensures start { IfSome result (λ before. before.start ≤ clock.start) }
{
    if parts % of == 0 {
        earlier_by(parts / of, clock)
    } else {
        None
    }
}

/// The clock of a producer's flow, from that of the consumer, if the operators between them allow one.
fn producer_clock(hyper: u64, ty: Ty, ops: &[Op], consumer: Clock) -> Option<Clock>
    requires operators { list_all (is_operator_for ty) ops.now ≡ true }
    requires few { length ops.now < 2 ^ 32 }
    requires hyper { (1 ≤ hyper) × (hyper ≤ MAX_HYPER) }
    requires start { consumer.start < 2 ^ 31 }
    ensures { result ≡ producer_clock hyper ops.now consumer }
{
    let mut clock = consumer;
    for op in ops {
        if !divides(clock.period, hyper) {
            return None;
        }
        clock = clock_before(ty, *op, clock)?;
    }
    if divides(clock.period, hyper) {
        Some(clock)
    } else {
        None
    }
}

fn is_same_clock(a: Clock, b: Clock) -> bool
    ensures { result ≡ is_same_clock a b }
{
    a.period == b.period && a.start == b.start
}

fn is_sensor(kind: Kind) -> bool
    ensures { result ≡ is_sensor kind }
{
    match kind {
        Kind::Sensor(_) => true,
        Kind::Node(_) | Kind::Actuator(_) => false,
    }
}

fn is_actuator(kind: Kind) -> bool
    ensures { result ≡ is_actuator kind }
{
    match kind {
        Kind::Actuator(_) => true,
        Kind::Sensor(_) | Kind::Node(_) => false,
    }
}

/// Whether a task may be the producer of a flow with this clock, at this output.
fn gives(task: &Task, out: u32, clock: Clock) -> bool
    ensures { result ≡ gives task.now out clock }
{
    !is_actuator(task.kind)
        && (!is_sensor(task.kind) || out == 0)
        && is_same_clock(clock, task.clock)
}

/// Whether a flow of this type and clock may come from there.
fn is_source(tasks: &[Task], ty: Ty, clock: Clock, from: Producer) -> bool
    ensures { result ≡ is_source tasks.now ty clock from }
{
    match from {
        Producer::Constant(value) => is_of_type(ty, value),
        Producer::Port { task, out } => match tasks.get(task.0 as usize) {
            Some(task) => gives(task, out, clock),
            None => false,
        },
    }
}

/// Whether a flow with this clock, if there is one, may be the producer's.
fn comes_with(tasks: &[Task], edge: &Edge, clock: Option<Clock>) -> bool
    ensures { result ≡ comes_with tasks.now edge.now clock }
{
    match clock {
        None => false,
        Some(clock) => {
            clock.period == edge.period && is_source(tasks, edge.ty, clock, edge.from)
        }
    }
}

/// Whether an edge into this task is one of the graph, but for its place among the edges.
fn is_edge_into(hyper: u64, tasks: &[Task], edge: &Edge, consumer: &Task) -> bool
    requires hyper { (1 ≤ hyper) × (hyper ≤ MAX_HYPER) }
    requires start { consumer.now.clock.start < 2 ^ 31 }
    ensures { result ≡ is_edge_into hyper tasks.now edge.now consumer.now }
{
    let ops = edge.ops.as_slice();
    !is_sensor(consumer.kind)
        && (ops.len() as u64) < 1 << 32
        && are_operators_for(edge.ty, ops)
        && comes_with(
            tasks,
            edge,
            producer_clock(hyper, edge.ty, ops, consumer.clock),
        )
}

/// Whether an edge is one of a graph with these tasks, but for its place among the edges.
fn is_edge(hyper: u64, tasks: &[Task], edge: &Edge) -> bool
    requires hyper { (1 ≤ hyper) × (hyper ≤ MAX_HYPER) }
    requires tasks { list_all (is_task hyper) tasks.now ≡ true }
    ensures { result ≡ is_edge hyper tasks.now edge.now }
{
    match tasks.get(edge.to.0 as usize) {
        Some(consumer) => is_edge_into(hyper, tasks, edge, consumer),
        None => false,
    }
}

fn are_edges(hyper: u64, tasks: &[Task], edges: &[Edge]) -> bool
    requires hyper { (1 ≤ hyper) × (hyper ≤ MAX_HYPER) }
    requires tasks { list_all (is_task hyper) tasks.now ≡ true }
    ensures { result ≡ list_all (is_edge hyper tasks.now) edges.now }
{
    for edge in edges {
        if !is_edge(hyper, tasks, edge) {
            return false;
        }
    }
    true
}

/// Whether an edge may stand after one into this port of this task.
fn is_next(task: u32, port: u32, edge: &Edge) -> bool
    requires { port < 2 ^ 31 }
    ensures { result ≡ is_next task port edge.now }
{
    let to = edge.to.0;
    (to == task && edge.port == port + 1) || (task < to && edge.port == 0)
}

/// Whether edges stand by consumer and then by port, ports from 0 without a gap.
fn are_in_order(edges: &[Edge]) -> bool
    requires { length edges.now ≤ MAX_EDGES }
    ensures { result ≡ are_in_order edges.now }
{
    match edges {
        [] => true,
        [first, later @ ..] => first.port == 0 && ports_follow(first.to.0, later),
    }
}

/// Whether edges may stand so after one into port 0 of this task.
fn ports_follow(first: u32, edges: &[Edge]) -> bool
    requires { length edges.now ≤ MAX_EDGES }
    ensures { result ≡ ports_follow first 0 edges.now }
{
    let mut task = first;
    let mut port = 0;
    for edge in edges {
        if !is_next(task, port, edge) {
            return false;
        }
        task = edge.to.0;
        port = edge.port;
    }
    true
}

fn has_port(edges: &[Edge], i: usize) -> bool
    ensures { result ≡ list_any (λ edge. edge.to.0 == i) edges.now }
{
    edges.iter().any(|edge| edge.to.0 as usize == i)
}

fn has_no_port_but_first(edges: &[Edge], i: usize) -> bool
    ensures { result ≡ list_all (is_elsewhere_or_first i) edges.now }
{
    edges
        .iter()
        .all(|edge| edge.to.0 as usize != i || edge.port == 0)
}

/// Whether each actuator task has exactly one port.
fn actuators_have_one(tasks: &[Task], edges: &[Edge]) -> bool
    ensures { result ≡ actuators_have_one edges.now 0 tasks.now }
{
    for (i, task) in tasks.iter().enumerate() {
        if is_actuator(task.kind) && !(has_port(edges, i) && has_no_port_but_first(edges, i)) {
            return false;
        }
    }
    true
}

/// Whether there are few enough tasks, edges and ticks.
fn is_small(graph: &TaskGraph) -> bool
    ensures { result ≡ is_small graph.now }
{
    graph.tasks.len() <= MAX_TASKS
        && graph.edges.len() <= MAX_EDGES
        && 1 <= graph.hyper
        && graph.hyper <= MAX_HYPER
}

fn have_tasks(hyper: u64, tasks: &[Task]) -> bool
    requires few { length tasks.now ≤ MAX_TASKS }
    requires short { hyper ≤ MAX_HYPER }
    ensures { result ≡ have_tasks hyper tasks.now }
{
    are_numbered(tasks)
        && are_tasks(hyper, tasks)
        && have_own_names(tasks)
        && jobs_in(hyper, tasks) <= MAX_PERIOD_JOBS
}

fn have_edges(hyper: u64, tasks: &[Task], edges: &[Edge]) -> bool
    requires hyper { (1 ≤ hyper) × (hyper ≤ MAX_HYPER) }
    requires tasks { list_all (is_task hyper) tasks.now ≡ true }
    requires few { length edges.now ≤ MAX_EDGES }
    ensures { result ≡ have_edges hyper tasks.now edges.now }
{
    are_edges(hyper, tasks, edges) && are_in_order(edges) && actuators_have_one(tasks, edges)
}

/// Whether a graph passes all tests.
fn passes(graph: &TaskGraph) -> bool
    ensures { result ≡ is_well_formed graph.now }
{
    is_small(graph)
        && have_tasks(graph.hyper, graph.tasks.as_slice())
        && have_edges(graph.hyper, graph.tasks.as_slice(), graph.edges.as_slice())
}

/// Whether a graph is well formed.
pub(crate) fn is_well_formed(graph: &TaskGraph) -> bool
    ensures { IsTrue result ↔ IsWellFormed graph.now }
{
    passes(graph)
}
