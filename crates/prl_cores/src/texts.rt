//! Texts of processors: one task a line.

ghost use Rattle.std.specs.Prelude.{◌≡◌, ◌<◌, ◌≤◌, ◌^◌, List, Option, Some, None, length, replicate, IfErr, IfOk, IfSome, MatchOption};
ghost use Rattle.std.specs.Bool.{OnTrue, OnFalse};
ghost use Rattle.std.specs.Vec.{vec_items};
ghost use Rattle.prl_base.specs.Vocabulary.{GivesBut, lines_of};
ghost use Rattle.prl_cores.specs.declared.texts.CoresFault.TheVariants as faults;
ghost use Rattle.prl_cores.specs.Processors.{IsOfTasks, processor_in, placing_of, placed_in, or_line, placed_from, all_placed, processors_of};
ghost use Rattle.prl_schedules.specs.Vocabulary.{without_return, task_names};

use prl_base::{TaskNo, cut_line, len_before};
use prl_plan::{Plan, plan_is_one};
use prl_schedules::{TaskNames, without_return};
use std::alloc::Global;

/// Why a text does not place the tasks.
#[derive(Clone, Copy)]
pub enum CoresFault {
    /// The line of this number, counted from 1, is the first that is no task and its processor, or is a second line for a task.
    Syntax(u64),
    /// No line is of this task, the lowest such one.
    Missing(TaskNo),
    Memory,
}

/// The number of a processor, 0 to 15, without leading zeros.
pub fn processor_in(bytes: &[u8]) -> Option<u32>
    ensures { result ≡ processor_in bytes.now }
{
    match bytes {
        [digit @ b'0'..=b'9'] => Some(u32::from(*digit - b'0')),
        [b'1', digit @ b'0'..=b'5'] => Some(10 + u32::from(*digit - b'0')),
        _ => None,
    }
}

/// The task and the processor that a line tells.
fn placing_of(names: &TaskNames<'_>, line: &[u8]) -> Option<(TaskNo, u32)>
    ensures exact { result ≡ placing_of names.now line.now }
    ensures task { IfSome result (λ placing. placing.0.0 < length names.now) }
{
    let len = len_before(line, b' ');
    if len == line.len() {
        return None;
    }
    match names.task_of(&line[..len]) {
        None => None,
        Some(task) => match processor_in(&line[len + 1..]) {
            None => None,
            Some(processor) => Some((task, processor)),
        },
    }
}

/// Gives a task the processor that a line tells, where it has none yet.
fn place(
    names: &TaskNames<'_>,
    table: &mut Vec<Option<u32>>,
    line: &[u8],
    number: u64,
) -> Result<(), CoresFault>
    requires { length table.old.items ≡ length names.now }
    ensures long { length table.new.items ≡ length table.old.items }
    ensures task { IfErr result (IsOfTasks (length names.now)) }
    ensures exact { GivesBut faults.Memory (λ done. table.new.items) result (or_line number (placed_in table.old.items (placing_of names.now line.now))) }
{
    match placing_of(names, line) {
        Some((task, processor)) if table[task.0 as usize].is_none() => {
            table[task.0 as usize] = Some(processor);
            Ok(())
        }
        _ => Err(CoresFault::Syntax(number)),
    }
}

/// By task, the processor that the lines of the text give it.
fn placed(
    alloc: Global,
    names: &TaskNames<'_>,
    text: &[u8],
    count: usize,
) -> Result<Vec<Option<u32>>, CoresFault>
    requires { count ≡ length names.now }
    ensures exact { GivesBut faults.Memory vec_items result (placed_from names.now 1 (replicate (length names.now) None) (lines_of text.now)) }
    ensures long { IfOk result (λ table. length table.items ≡ length names.now) }
    ensures task { IfErr result (IsOfTasks (length names.now)) }
{
    let Ok(mut table) = vec![in alloc; None; count] else {
        return Err(CoresFault::Memory);
    };
    let mut rest = text;
    let mut number: u64 = 1;
    while let Some((line, after)) = cut_line(rest) {
        place(names, &mut table, without_return(line), number)?;
        rest = after;
        number += 1;
    }
    if rest.is_empty() {
        return Ok(table);
    }
    place(names, &mut table, rest, number)?;
    Ok(table)
}

/// The processors of the tasks, where each has one.
fn all_placed(alloc: Global, table: &[Option<u32>]) -> Result<Vec<u32>, CoresFault>
    requires { length table.now < 2 ^ 32 }
    ensures exact { GivesBut faults.Memory vec_items result (all_placed 0 table.now) }
    ensures long { IfOk result (λ processors. length processors.items ≡ length table.now) }
    ensures task { IfErr result (IsOfTasks (length table.now)) }
{
    let Ok(mut processors) = Vec::with_capacity(alloc, table.len()) else {
        return Err(CoresFault::Memory);
    };
    for (i, processor) in table.iter().enumerate() {
        match processor {
            Some(processor) => match processors.push(*processor) {
                Ok(()) => {}
                Err(_) => return Err(CoresFault::Memory),
            },
            None => return Err(CoresFault::Missing(TaskNo(i as u32))),
        }
    }
    Ok(processors)
}

/// By task of the plan, the processor that the text gives it: a line `NAME P` a task, in any order, with P from 0 to 15. Refused
/// are, in this order: the first line that is of another form or a second one for its task, and the lowest task without a line.
pub fn read_cores(alloc: Global, text: &[u8], plan: &Plan) -> Result<Vec<u32>, CoresFault>
    ensures exact { GivesBut faults.Memory vec_items result (processors_of (task_names plan.now) text.now) }
    ensures long { IfOk result (λ processors. length processors.items ≡ length plan.now.graph.tasks) }
    ensures task { IfErr result (IsOfTasks (length plan.now.graph.tasks)) }
{
    plan_is_one(plan);
    let tasks = plan.graph().tasks.as_slice();
    let Ok(names) = TaskNames::new(alloc, tasks) else {
        return Err(CoresFault::Memory);
    };
    let table = placed(alloc, &names, text, tasks.len())?;
    all_placed(alloc, table.as_slice())
}
