//! Reading the graph of a text.

ghost use Rattle.std.specs.Prelude.{◌≡◌, ◌≤◌, ◌<◌, ◌^◌, length, IfOk, OnOk, IsTrue};
ghost use Rattle.std.specs.Int.{IsGcd};
ghost use Rattle.prl_plan.specs.declared.limits.TheConstants.{MAX_TASKS};
ghost use Rattle.prl_plantext.specs.code.Graphs.{after_producer, count_named, edge_after, edge_in, empty, fraction_in, fraction_or_none, graph_of, kind_named, is_reduced, operator_in, operators_in, producer_in, task_in, type_in, value_in, with_line, with_task, with_edge};

use crate::cutting::{Words, cut_at, is_keyword, number_in, small_in};
use crate::printing::kind_text;
use prl_base::{
    Clock, Label, MAX_PART, Op, Ratio, Seq, TaskNo, Ty, Value, decimal_of, gcd, integer_of,
};
use prl_plan::{Edge, Kind, MAX_EDGES, MAX_TASKS, Producer, Task, TaskGraph};
use std::alloc::{AllocError, Global};
use std::marker::Model;

/// The value of a word, 0 where it has none.
fn value_in(word: &[u8]) -> Value
    ensures { result ≡ value_in word.now }
{
    if is_keyword(word, b"true") {
        Value::Bool(true)
    } else if is_keyword(word, b"false") {
        Value::Bool(false)
    } else {
        Value::Int(integer_of(word).unwrap_or(0))
    }
}

/// The type of a word, `int` where it has none.
fn type_in(word: &[u8]) -> Ty
    ensures { result ≡ type_in word.now }
{
    if is_keyword(word, b"bool") {
        Ty::Bool
    } else {
        Ty::Int
    }
}

/// Whether two numbers have no common divisor but 1.
fn is_reduced(a: u64, b: u64) -> bool
    ensures by_division { result ≡ is_reduced a b }
    ensures reduced { IsTrue result → IsGcd a b 1 }
{
    gcd(a, b) == 1
}

/// The ratio of these parts, 0 where they are not those of a reduced ratio.
fn ratio_or_none(num: u64, den: u64) -> Ratio
    ensures { result ≡ fraction_or_none num den }
{
    if den >= 1 && num <= MAX_PART && den <= MAX_PART && is_reduced(num, den) {
        Ratio {
            num: num as i64,
            den,
        }
    } else {
        Ratio { num: 0, den: 1 }
    }
}

/// The ratio of a word.
fn ratio_in(word: &[u8]) -> Ratio
    ensures { result ≡ fraction_in word.now }
{
    let (num, den) = cut_at(word, b'/');
    ratio_or_none(number_in(num), decimal_of(den).unwrap_or(1))
}

/// The operator of a keyword and the word after it, where it is the keyword of one.
fn operator_in(word: &[u8], argument: &[u8]) -> Option<Op>
    ensures { result ≡ operator_in word.now argument.now }
{
    if is_keyword(word, b"fby") {
        Some(Op::Fby(value_in(argument)))
    } else if is_keyword(word, b"cons") {
        Some(Op::Cons(value_in(argument)))
    } else if is_keyword(word, b"up") {
        Some(Op::Up(small_in(argument)))
    } else if is_keyword(word, b"down") {
        Some(Op::Down(small_in(argument)))
    } else if is_keyword(word, b"shift") {
        Some(Op::Shift(ratio_in(argument)))
    } else {
        None
    }
}

/// The operators of the words that are left.
fn operators_in(alloc: Global, words: &mut Words<'_>) -> Result<Vec<Op>, AllocError>
    ensures { IfOk result (λ ops. ops.items ≡ operators_in words.old) }
{
    let mut ops = Vec::new(alloc);
    while !words.is_empty() {
        let word = words.next();
        if is_keyword(word, b"tail") {
            ops.push(Op::Tail)?;
        } else if let Some(op) = operator_in(word, words.next()) {
            ops.push(op)?;
        }
    }
    Ok(ops)
}

/// Takes where an edge comes from.
fn producer_in(words: &mut Words<'_>) -> Producer
    ensures producer { result ≡ producer_in words.entry.now }
    ensures rest { words.exit.now ≡ after_producer words.entry.now }
{
    let word = words.next();
    if is_keyword(word, b"const") {
        return Producer::Constant(value_in(words.next()));
    }
    let (task, out) = cut_at(word, b'.');
    Producer::Port {
        task: TaskNo(small_in(task)),
        out: small_in(out),
    }
}

/// The edge of a line, by the words after its producer.
fn edge_after(alloc: Global, from: Producer, words: &mut Words<'_>) -> Result<Edge, AllocError>
    ensures { IfOk result (λ edge. edge ≡ edge_after from words.old) }
{
    words.next();
    let (to, port) = cut_at(words.next(), b'.');
    words.next();
    let ty = type_in(words.next());
    let period = words.number();
    words.next();
    Ok(Edge {
        from,
        to: TaskNo(small_in(to)),
        port: small_in(port),
        ops: Seq::new(operators_in(alloc, words)?),
        period,
        ty,
    })
}

/// The edge of a line, by its words after the first.
fn edge_in(alloc: Global, words: &mut Words<'_>) -> Result<Edge, AllocError>
    ensures { IfOk result (λ edge. edge ≡ edge_in words.old) }
{
    words.next();
    words.next();
    let from = producer_in(words);
    edge_after(alloc, from, words)
}

/// How many of these tasks are of the kind of this name.
fn count_named(tasks: &[Task], name: &[u8]) -> usize
    ensures count { result ≡ count_named name.now tasks.now }
    ensures few { result ≤ length tasks.now }
{
    let mut count = 0;
    for task in tasks {
        if kind_text(task.kind).as_bytes() == name {
            count += 1;
        }
    }
    count
}

/// The kind of this name, with a number.
fn kind_named(name: &[u8], k: u32) -> Kind
    ensures { result ≡ kind_named name.now k }
{
    if is_keyword(name, b"sensor") {
        Kind::Sensor(k)
    } else if is_keyword(name, b"node") {
        Kind::Node(k)
    } else {
        Kind::Actuator(k)
    }
}

/// The task of a line, by its words after the first: of its kind it is the next after these.
fn task_in(alloc: Global, earlier: &[Task], words: &mut Words<'_>) -> Result<Task, AllocError>
    requires { length earlier.now ≤ MAX_TASKS }
    ensures { IfOk result (λ task. task ≡ task_in earlier.now words.old) }
{
    words.next();
    let name = Label::new(alloc, words.next())?;
    let kind = words.next();
    let period = words.number();
    let start = words.number();
    let due = words.number();
    words.next();
    let wcet = small_in(words.next());
    Ok(Task {
        name,
        kind: kind_named(kind, count_named(earlier, kind) as u32),
        clock: Clock { period, start },
        wcet,
        due,
    })
}

/// The graph of the lines so far. Contracts see it as a graph.
#[derive(Drop)]
struct Found {
    tasks: Vec<Task>,
    edges: Vec<Edge>,
    hyper: u64,
}

impl Model for Found {
    ghost use Rattle.prl_plan.specs.declared.graphs.TaskGraph.{TaskGraph};

    ghost Value = { TaskGraph };

    ghost view = { λ f. record { tasks = f.tasks.items; edges = f.edges.items; hyper = f.hyper } };
}

impl Found {
    /// Adds a task, unless there are too many already.
    fn take_task(&mut self, alloc: Global, words: &mut Words<'_>) -> Result<(), AllocError>
        ensures { OnOk result (self.new ≡ with_task self.old words.old) }
    {
        if self.tasks.len() <= MAX_TASKS {
            let task = task_in(alloc, self.tasks.as_slice(), words)?;
            self.tasks.push(task)?;
        }
        Ok(())
    }

    /// Adds an edge, unless there are too many already.
    fn take_edge(&mut self, alloc: Global, words: &mut Words<'_>) -> Result<(), AllocError>
        ensures { OnOk result (self.new ≡ with_edge self.old words.old) }
    {
        if self.edges.len() <= MAX_EDGES {
            let edge = edge_in(alloc, words)?;
            self.edges.push(edge)?;
        }
        Ok(())
    }

    /// Adds what a line tells.
    fn take_line(&mut self, alloc: Global, line: &[u8]) -> Result<(), AllocError>
        ensures { OnOk result (self.new ≡ with_line self.old line.now) }
    {
        let mut words = Words::new(line);
        let word = words.next();
        if is_keyword(word, b"task") {
            self.take_task(alloc, &mut words)?;
        } else if is_keyword(word, b"edge") {
            self.take_edge(alloc, &mut words)?;
        } else if is_keyword(word, b"hyperperiod") {
            self.hyper = number_in(words.next());
        }
        Ok(())
    }
}

/// The graph that a text is read to, where it may be the text of a plan.
pub(crate) fn graph_of(alloc: Global, text: &[u8]) -> Result<TaskGraph, AllocError>
    ensures { IfOk result (λ graph. graph ≡ graph_of text.now) }
{
    let mut found = Found {
        tasks: Vec::new(alloc),
        edges: Vec::new(alloc),
        hyper: 0,
    };
    let mut rest = text;
    while !rest.is_empty() {
        let (line, after) = cut_at(rest, b'\n');
        found.take_line(alloc, line)?;
        rest = after;
    }
    Ok(TaskGraph {
        tasks: Seq::new(found.tasks),
        edges: Seq::new(found.edges),
        hyper: found.hyper,
    })
}
