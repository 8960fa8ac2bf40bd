//! Chains of tasks, from the one that gives first to the one that uses last.

ghost use Rattle.std.specs.Prelude.{◌≡◌};
ghost use Rattle.prl_ages.specs.Chains.{begins_with, is_along, leads};

use prl_base::TaskNo;

/// Whether these tasks begin with task `t`.
fn begins_with(tasks: &[TaskNo], t: TaskNo) -> bool
    ensures { result ≡ begins_with tasks.now t.0 }
{
    match tasks {
        [] => false,
        [task, ..] => task.0 == t.0,
    }
}

/// Whether task `t` stands right after task `i` somewhere in the chain.
fn leads(chain: &[TaskNo], i: TaskNo, t: TaskNo) -> bool
    ensures { result ≡ leads chain.now i.0 t.0 }
{
    match chain {
        [] => false,
        [task, tasks @ ..] => (task.0 == i.0 && begins_with(tasks, t)) || leads(tasks, i, t),
    }
}

/// Whether a step from task `i` to task `t` counts: it is one of the chain, or there is none.
pub(crate) fn is_along(chain: &[TaskNo], i: TaskNo, t: TaskNo) -> bool
    ensures { result ≡ is_along chain.now i.0 t.0 }
{
    match chain {
        [] => true,
        [_, ..] => leads(chain, i, t),
    }
}
