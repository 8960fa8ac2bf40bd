//! Printing a plan.

ghost use Rattle.std.specs.Prelude.{◌≡◌, ◌++◌, ◌<◌, ◌^◌, length, IfOk, OnOk, codes, decimal};
ghost use Rattle.std.specs.List.{flat_map};
ghost use Rattle.prl_base.specs.Texts.{type_text, value_text};
ghost use Rattle.prl_plan.specs.Plans.{edge_at};
ghost use Rattle.prl_plantext.specs.PlanTexts.{after_blank, cells_line_words, dates_words, edge_words, kind_text, line, numbered, operator_words, operators_words, pair_text, plan_text, producer_words, task_words, window_text, word_words};
ghost use Rattle.prl_plantext.specs.ReadTexts.{IsTextOf};

use prl_base::{
    Clock, EdgeNo, Op, TaskNo, Ty, Value, push_number, push_ratio, push_type, push_value,
};
use prl_plan::{Edge, Kind, Plan, Producer, Task, Window, Word};
use prl_words::graph_is_representable;
use std::alloc::{AllocError, Global};

/// The name of a kind of task, as it is written.
pub(crate) fn kind_text(kind: Kind) -> &'static str
    ensures { result.now ≡ kind_text kind }
{
    match kind {
        Kind::Sensor(_) => "sensor",
        Kind::Node(_) => "node",
        Kind::Actuator(_) => "actuator",
    }
}

/// Appends a number after these bytes.
fn push_after(text: &mut Vec<u8>, front: &[u8], number: u64) -> Result<(), AllocError>
    ensures { OnOk result (text.new.items ≡ text.old.items ++ front.now ++ decimal number) }
{
    text.extend_from_slice(front)?;
    push_number(text, number)
}

/// Appends a value after these bytes.
fn push_value_after(text: &mut Vec<u8>, front: &[u8], value: Value) -> Result<(), AllocError>
    ensures { OnOk result (text.new.items ≡ text.old.items ++ front.now ++ value_text value) }
{
    text.extend_from_slice(front)?;
    push_value(text, value)
}

/// Appends two numbers with a byte between them.
fn push_pair(text: &mut Vec<u8>, first: u64, byte: u8, second: u64) -> Result<(), AllocError>
    ensures { OnOk result (text.new.items ≡ text.old.items ++ pair_text first byte second) }
{
    push_number(text, first)?;
    text.push(byte)?;
    push_number(text, second)
}

/// Appends the clock of a task.
fn push_clock(text: &mut Vec<u8>, clock: Clock) -> Result<(), AllocError>
    ensures { OnOk result (text.new.items ≡ text.old.items ++ (codes " period " ++ decimal clock.period ++ codes " start " ++ decimal clock.start)) }
{
    push_after(text, b" period ", clock.period)?;
    push_after(text, b" start ", clock.start)
}

/// Appends the relative deadline and the worst-case execution time of a task.
fn push_times(text: &mut Vec<u8>, due: u64, wcet: u32) -> Result<(), AllocError>
    ensures { OnOk result (text.new.items ≡ text.old.items ++ (codes " due " ++ decimal due ++ codes " wcet " ++ decimal wcet)) }
{
    push_after(text, b" due ", due)?;
    push_after(text, b" wcet ", u64::from(wcet))
}

/// Appends the line of a task.
fn push_task(text: &mut Vec<u8>, k: usize, task: &Task) -> Result<(), AllocError>
    ensures { OnOk result (text.new.items ≡ text.old.items ++ line (task_words k task.now)) }
{
    push_after(text, b"task ", k as u64)?;
    text.push(b' ')?;
    text.extend_from_slice(task.name.bytes())?;
    text.push(b' ')?;
    text.extend_from_slice(kind_text(task.kind).as_bytes())?;
    push_clock(text, task.clock)?;
    push_times(text, task.due, task.wcet)?;
    text.push(b'\n')?;
    Ok(())
}

/// Appends a line for each task.
fn push_tasks(text: &mut Vec<u8>, tasks: &[Task]) -> Result<(), AllocError>
    ensures { OnOk result (text.new.items ≡ text.old.items ++ numbered task_words 0 tasks.now) }
{
    for (k, task) in tasks.iter().enumerate() {
        push_task(text, k, task)?;
    }
    Ok(())
}

/// Appends windows, each after a blank.
fn push_windows(text: &mut Vec<u8>, windows: &[Window]) -> Result<(), AllocError>
    ensures { OnOk result (text.new.items ≡ text.old.items ++ flat_map (λ w. after_blank (window_text w)) windows.now) }
{
    for window in windows {
        text.push(b' ')?;
        push_pair(text, window.lead, b':', window.tail)?;
    }
    Ok(())
}

/// Appends the line of a task's dates.
fn push_task_dates(text: &mut Vec<u8>, i: usize, windows: &[Window]) -> Result<(), AllocError>
    ensures { OnOk result (text.new.items ≡ text.old.items ++ line (dates_words i windows.now)) }
{
    push_after(text, b"dates ", i as u64)?;
    push_windows(text, windows)?;
    text.push(b'\n')?;
    Ok(())
}

/// Appends a line for the dates of each task.
fn push_dates(text: &mut Vec<u8>, plan: &Plan) -> Result<(), AllocError>
    ensures { OnOk result (text.new.items ≡ text.old.items ++ numbered dates_words 0 plan.now.windows) }
{
    for i in 0..plan.graph().tasks.len() {
        push_task_dates(text, i, plan.dates().list(TaskNo(i as u32)))?;
    }
    Ok(())
}

/// Appends where an edge comes from, each word after a blank.
fn push_producer(text: &mut Vec<u8>, from: Producer) -> Result<(), AllocError>
    ensures { OnOk result (text.new.items ≡ text.old.items ++ flat_map after_blank (producer_words from)) }
{
    match from {
        Producer::Port { task, out } => {
            text.push(b' ')?;
            push_pair(text, u64::from(task.0), b'.', u64::from(out))
        }
        Producer::Constant(value) => { push_value_after(text, b" const ", value) }
    }
}

/// Appends an operator, each word after a blank.
fn push_operator(text: &mut Vec<u8>, op: Op) -> Result<(), AllocError>
    ensures { OnOk result (text.new.items ≡ text.old.items ++ flat_map after_blank (operator_words op)) }
{
    match op {
        Op::Fby(value) => push_value_after(text, b" fby ", value),
        Op::Cons(value) => push_value_after(text, b" cons ", value),
        Op::Tail => text.extend_from_slice(b" tail"),
        Op::Up(factor) => push_after(text, b" up ", u64::from(factor)),
        Op::Down(factor) => push_after(text, b" down ", u64::from(factor)),
        Op::Shift(ratio) => {
            text.extend_from_slice(b" shift ")?;
            push_ratio(text, ratio)
        }
    }
}

/// Appends the operators of an edge, each word after a blank.
fn push_operators(text: &mut Vec<u8>, ops: &[Op]) -> Result<(), AllocError>
    ensures { OnOk result (text.new.items ≡ text.old.items ++ flat_map after_blank (operators_words ops.now)) }
{
    if ops.is_empty() {
        return text.extend_from_slice(b" none");
    }
    for op in ops {
        push_operator(text, *op)?;
    }
    Ok(())
}

/// Appends the type and the period of a producer's flow.
fn push_flow(text: &mut Vec<u8>, ty: Ty, period: u64) -> Result<(), AllocError>
    ensures { OnOk result (text.new.items ≡ text.old.items ++ (codes " type " ++ type_text ty ++ codes " period " ++ decimal period)) }
{
    text.extend_from_slice(b" type ")?;
    push_type(text, ty)?;
    push_after(text, b" period ", period)
}

/// Appends the line of an edge.
fn push_edge(text: &mut Vec<u8>, e: usize, edge: &Edge) -> Result<(), AllocError>
    ensures { OnOk result (text.new.items ≡ text.old.items ++ line (edge_words e edge.now)) }
{
    push_after(text, b"edge ", e as u64)?;
    text.extend_from_slice(b" from")?;
    push_producer(text, edge.from)?;
    text.extend_from_slice(b" to ")?;
    push_pair(text, u64::from(edge.to.0), b'.', u64::from(edge.port))?;
    push_flow(text, edge.ty, edge.period)?;
    text.extend_from_slice(b" ops")?;
    push_operators(text, edge.ops.as_slice())?;
    text.push(b'\n')?;
    Ok(())
}

/// Appends a line for each edge.
fn push_edges(text: &mut Vec<u8>, edges: &[Edge]) -> Result<(), AllocError>
    ensures { OnOk result (text.new.items ≡ text.old.items ++ numbered edge_words 0 edges.now) }
{
    for (e, edge) in edges.iter().enumerate() {
        push_edge(text, e, edge)?;
    }
    Ok(())
}

/// Appends values, each after a blank.
fn push_values(text: &mut Vec<u8>, values: &[Value]) -> Result<(), AllocError>
    ensures { OnOk result (text.new.items ≡ text.old.items ++ flat_map (λ v. after_blank (value_text v)) values.now) }
{
    for value in values {
        text.push(b' ')?;
        push_value(text, *value)?;
    }
    Ok(())
}

/// Appends numbers, each after a blank.
fn push_numbers(text: &mut Vec<u8>, numbers: &[u64]) -> Result<(), AllocError>
    ensures { OnOk result (text.new.items ≡ text.old.items ++ flat_map (λ n. after_blank (decimal n)) numbers.now) }
{
    for number in numbers {
        text.push(b' ')?;
        push_number(text, *number)?;
    }
    Ok(())
}

/// Appends the line of a dependency word.
fn push_word(text: &mut Vec<u8>, e: usize, word: &Word) -> Result<(), AllocError>
    ensures { OnOk result (text.new.items ≡ text.old.items ++ line (word_words e word.now)) }
{
    push_after(text, b"word ", e as u64)?;
    push_after(text, b" prefix ", word.prefix.len() as u64)?;
    push_values(text, word.prefix.as_slice())?;
    text.extend_from_slice(b" repeat")?;
    push_numbers(text, word.repeat.as_slice())?;
    push_after(text, b" step ", word.step_in)?;
    push_after(text, b" ", word.step_out)?;
    text.push(b'\n')?;
    Ok(())
}

/// Appends a line for each dependency word.
fn push_words(text: &mut Vec<u8>, words: &[Word]) -> Result<(), AllocError>
    ensures { OnOk result (text.new.items ≡ text.old.items ++ numbered word_words 0 words.now) }
{
    for (e, word) in words.iter().enumerate() {
        push_word(text, e, word)?;
    }
    Ok(())
}

/// Appends the first cell of an edge and how many it has, each word after a blank.
fn push_cells(text: &mut Vec<u8>, base: u32, count: u32) -> Result<(), AllocError>
    ensures { OnOk result (text.new.items ≡ text.old.items ++ codes " base " ++ decimal base ++ codes " count " ++ decimal count) }
{
    push_after(text, b" base ", u64::from(base))?;
    push_after(text, b" count ", u64::from(count))
}

/// Appends the line of an edge's cells.
fn push_edge_cells(text: &mut Vec<u8>, plan: &Plan, e: EdgeNo) -> Result<(), AllocError>
    requires { e.0 < length plan.now.graph.edges }
    ensures { OnOk result (text.new.items ≡ text.old.items ++ line (cells_line_words plan.now e.0 (edge_at plan.now.graph e.0))) }
{
    push_after(text, b"cells ", u64::from(e.0))?;
    match plan.graph().edges.as_slice()[e.0 as usize].from {
        Producer::Port { .. } => push_cells(text, plan.base(e).0, plan.count(e))?,
        Producer::Constant(_) => text.extend_from_slice(b" none")?,
    }
    text.push(b'\n')?;
    Ok(())
}

/// Appends a line for the cells of each edge.
fn push_all_cells(text: &mut Vec<u8>, plan: &Plan) -> Result<(), AllocError>
    ensures { OnOk result (text.new.items ≡ text.old.items ++ numbered (cells_line_words plan.now) 0 plan.now.graph.edges) }
{
    for e in 0..plan.graph().edges.len() {
        push_edge_cells(text, plan, EdgeNo(e as u32))?;
    }
    Ok(())
}

/// The text of a plan: its hyperperiod, its tasks, their dates, its edges, their words and their cells, a line each. It is
/// read back as this plan.
pub fn plan_text(alloc: Global, plan: &Plan) -> Result<Vec<u8>, AllocError>
    ensures text { IfOk result (λ text. text.items ≡ plan_text plan.now) }
    ensures read_back { IfOk result (λ text. IsTextOf plan.now text.items) }
{
    let graph = plan.graph();
    graph_is_representable(graph);
    let mut text = Vec::new(alloc);
    push_after(&mut text, b"plan 1\nhyperperiod ", graph.hyper)?;
    text.push(b'\n')?;
    push_tasks(&mut text, graph.tasks.as_slice())?;
    push_dates(&mut text, plan)?;
    push_edges(&mut text, graph.edges.as_slice())?;
    push_words(&mut text, plan.words().of.as_slice())?;
    push_all_cells(&mut text, plan)?;
    Ok(text)
}
