//! Encoded dates as they are kept: by task, the windows of its jobs, which repeat from job 0 on.

ghost use Rattle.std.specs.Prelude.{◌≡◌, ◌<◌, pos, length, slice_index_or, []};
ghost use Rattle.prl_plan.specs.Dates.{window_at};
ghost use Rattle.prl_plan.specs.DateLists.{AreDateLists};

use crate::Window;
use prl_base::{Seq, TaskNo};
use std::marker::Model;

/// By task, the shortest list of windows that repeats from job 0 on. Contracts see the lists.
pub struct Dates {
    windows: Seq<Seq<Window>>,
}

impl Model for Dates {
    ghost use Rattle.std.specs.Prelude.{List};
    ghost use Rattle.prl_plan.specs.declared.tables.Window.{Window};
    ghost use Rattle.prl_plan.specs.DateLists.{AreDateLists};

    ghost Value = { List (List Window) };

    ghost view = { λ d. d.windows };

    ghost invariant = { λ d. AreDateLists d.windows };
}

impl Dates {
    /// The dates of these lists, one a task. Takes no memory.
    pub fn new(windows: Seq<Seq<Window>>) -> Dates
        requires { AreDateLists windows }
        ensures { result ≡ windows }
    {
        Dates { windows }
    }

    /// The window of job `m` of task `i`. Takes no memory.
    pub fn window(&self, i: TaskNo, m: u64) -> Window
        requires { i.0 < length self.now }
        ensures { result ≡ window_at self.now i.0 (pos m) }
    {
        let list = self.list(i);
        if list.len() == 1 {
            return list[0];
        }
        list[(m % list.len() as u64) as usize]
    }

    /// The shortest list of windows of task `i` that repeats from job 0 on. Takes no memory.
    pub fn list(&self, i: TaskNo) -> &[Window]
        requires { i.0 < length self.now }
        ensures list { result.now ≡ slice_index_or self.now i.0 [] }
        ensures some { 0 < length result.now }
    {
        self.windows.as_slice()[i.0 as usize].as_slice()
    }
}

impl Drop for Dates {
    fn drop(self) {
        let Dates { windows } = self;
        drop(windows);
    }
}
