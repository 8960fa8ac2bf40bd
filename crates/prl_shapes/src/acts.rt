//! The tasks that act in a run, tick by tick.

ghost use Rattle.std.specs.Prelude.{◌≡◌, ◌++◌, IfOk, OnOk};
ghost use Rattle.prl_shapes.specs.Acts.{acts_of, also_acted, is_in, new_acts};

use prl_base::TaskNo;
use prl_plan::Event;
use std::alloc::{AllocError, Global};

/// A task acts at a tick.
#[derive(Clone, Copy)]
pub struct Act {
    pub tick: u64,
    pub task: TaskNo,
}

/// Whether a number is in a list.
pub fn is_in(list: &[u32], number: u32) -> bool
    ensures { result ≡ is_in list.now number }
{
    match list {
        [] => false,
        [first, rest @ ..] => *first == number || is_in(rest, number),
    }
}

/// Adds that a task acts at a tick, where it is not one of those that have acted there.
fn note(
    acts: &mut Vec<Act>,
    acted: &mut Vec<u32>,
    tick: u64,
    task: TaskNo,
) -> Result<(), AllocError>
    ensures acts { OnOk result (acts.new.items ≡ acts.old.items ++ new_acts acted.old.items tick task) }
    ensures acted { OnOk result (acted.new.items ≡ also_acted acted.old.items task.0) }
{
    if is_in(acted, task.0) {
        return Ok(());
    }
    acts.push(Act { tick, task })?;
    acted.push(task.0)?;
    Ok(())
}

/// The tasks that act, tick by tick, each once a tick, in the order of their first acts there.
pub fn acts_of(alloc: Global, events: &[Event]) -> Result<Vec<Act>, AllocError>
    ensures { IfOk result (λ acts. acts.items ≡ acts_of events.now) }
{
    let mut acts = Vec::new(alloc);
    let mut acted: Vec<u32> = Vec::new(alloc);
    let mut now: u64 = 0;
    for event in events {
        match event {
            Event::Tick => {
                now += 1;
                acted.clear();
            }
            Event::Act(task) => note(&mut acts, &mut acted, now, *task)?,
        }
    }
    Ok(acts)
}
