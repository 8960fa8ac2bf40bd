//! What of a plan is drawn: the ticks, and the tasks that have a row.

ghost use Rattle.std.specs.Prelude.{◌≡◌, ◌<◌, ◌≤◌, length, slice_index};
ghost use Rattle.prl_plan.specs.declared.limits.TheConstants.{MAX_TASKS};
ghost use Rattle.prl_shapes.specs.Views.{AreTasks, row_in};

use prl_base::{Seq, TaskNo};
use prl_drawing::Scale;

/// What of a plan is drawn.
pub struct View {
    pub scale: Scale,
    /// The tasks of the rows, from the top.
    pub rows: Seq<u32>,
}

/// The row of a task; behind the last where it has none.
pub fn row_in(rows: &[u32], task: TaskNo) -> u32
    requires { length rows.now ≤ MAX_TASKS }
    ensures exact { result ≡ row_in rows.now task.0 }
    ensures small { result ≤ length rows.now }
{
    for (i, other) in rows.iter().enumerate() {
        if *other == task.0 {
            return i as u32;
        }
    }
    rows.len() as u32
}

impl View {
    /// How many rows of tasks there are.
    pub fn count(&self) -> u32
        requires { length self.now.rows ≤ MAX_TASKS }
        ensures exact { result ≡ length self.now.rows }
        ensures few { result ≤ MAX_TASKS }
    {
        self.rows.as_slice().len() as u32
    }

    /// The task of a row.
    pub fn task(&self, row: u32) -> TaskNo
        requires { row < length self.now.rows }
        ensures { result.0 ≡ slice_index self.now.rows row }
    {
        TaskNo(self.rows.as_slice()[row as usize])
    }
}

impl Drop for View {
    fn drop(self) {
        let View { scale: _, rows } = self;
        drop(rows);
    }
}
