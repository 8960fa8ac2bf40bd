//! Bars of the tasks of a graph.

ghost use Rattle.std.specs.Prelude.{◌≡◌, ◌++◌, ◌<◌, ◌≤◌, length, OnOk};
ghost use Rattle.prl_plan.specs.Jobs.{task_at};
ghost use Rattle.example_drawing.specs.Bars.{bar_text, bars_text, share_of};

use prl_drawing::{LEFT, WIDTH, push_coloured, row_of};
use prl_plan::{Task, TaskGraph};
use std::alloc::AllocError;

/// How high a bar is, in tenths of a pixel.
pub const HEIGHT: u64 = 240;

/// The most tasks of a drawing.
pub const MOST: usize = 1000;

/// How long the bar of a task is, in tenths of a pixel.
fn share_of(task: &Task) -> u64
    ensures { result ≡ share_of task.now }
{
    u64::from(task.wcet) * WIDTH / task.clock.period.max(1)
}

/// Appends the bar of a task.
fn push_bar(text: &mut Vec<u8>, graph: &TaskGraph, i: u32) -> Result<(), AllocError>
    requires { i < length graph.now.tasks }
    ensures { OnOk result (text.new.items ≡ text.old.items ++ bar_text graph.now i) }
{
    let width = share_of(&graph.tasks.as_slice()[i as usize]);
    push_coloured(text, i, LEFT, row_of(i), width, HEIGHT)
}

/// Appends the bars of all tasks.
pub fn push_bars(text: &mut Vec<u8>, graph: &TaskGraph) -> Result<(), AllocError>
    requires { length graph.now.tasks ≤ MOST }
    ensures { OnOk result (text.new.items ≡ text.old.items ++ bars_text graph.now) }
{
    for i in 0..graph.tasks.len() {
        push_bar(text, graph, i as u32)?;
    }
    Ok(())
}
