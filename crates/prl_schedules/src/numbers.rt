//! The names of the tasks of a plan, and a table of their numbers.

ghost use Rattle.std.specs.Prelude.{◌≡◌, ◌<◌, ◌^◌, length, IfOk, IfSome};
ghost use Rattle.prl_schedules.specs.Schedules.{task_of};
ghost use Rattle.prl_schedules.specs.ScheduleTexts.{names_of};
ghost use Rattle.prl_schedules.specs.code.Numbers.{number_in, AreNumbers};

use prl_base::TaskNo;
use prl_plan::Task;
use std::alloc::{AllocError, Global};
use std::collections::BTreeMap;
use std::marker::Model;

/// The number of the task of each name.
type Numbers<'a> = BTreeMap<&'a [u8], u32>;

/// The names of tasks. Contracts see the list of them.
#[derive(Drop)]
pub struct TaskNames<'a> {
    tasks: &'a [Task],
    numbers: Numbers<'a>,
}

impl<'a> Model for TaskNames<'a> {
    ghost use Rattle.std.specs.Prelude.{List, ℕ};
    ghost use Rattle.prl_schedules.specs.ScheduleTexts.{names_of};
    ghost use Rattle.prl_schedules.specs.code.Numbers.{AreNumbers};

    ghost Value = { List (List ℕ) };

    ghost view = { λ n. names_of n.tasks.now };

    ghost invariant = { λ n. AreNumbers n.numbers (names_of n.tasks.now) };
}

/// The number of each of the tasks.
fn numbers_of(alloc: Global, tasks: &[Task]) -> Result<Numbers<'_>, AllocError>
    requires { length tasks.now < 2 ^ 32 }
    ensures { IfOk result (λ table. AreNumbers table (names_of tasks.now)) }
{
    let mut table = BTreeMap::new(alloc);
    for (k, task) in tasks.iter().enumerate() {
        let bytes = task.name.bytes();
        if !table.contains_key(bytes) {
            table.insert(bytes, k as u32)?;
        }
    }
    Ok(table)
}

/// The number of the task of this name.
fn found(numbers: &Numbers<'_>, name: &[u8]) -> Option<u32>
    ensures { result ≡ number_in numbers.now name.now }
{
    numbers.get(name).copied()
}

impl<'a> TaskNames<'a> {
    /// The names of these tasks.
    pub fn new(alloc: Global, tasks: &'a [Task]) -> Result<TaskNames<'a>, AllocError>
        requires { length tasks.now < 2 ^ 32 }
        ensures { IfOk result (λ names. names ≡ names_of tasks.now) }
    {
        let numbers = numbers_of(alloc, tasks)?;
        Ok(TaskNames { tasks, numbers })
    }

    /// The first task of this name. Takes no memory.
    pub fn task_of(&self, name: &[u8]) -> Option<TaskNo>
        ensures exact { result ≡ task_of self.now name.now }
        ensures task { IfSome result (λ task. task.0 < length self.now) }
    {
        match found(&self.numbers, name) {
            Some(number) => Some(TaskNo(number)),
            None => None,
        }
    }
}
