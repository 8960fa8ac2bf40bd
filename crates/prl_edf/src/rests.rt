//! What is left of each task in a run by earliest deadline first, and the choice among the tasks.

ghost use Rattle.std.specs.Prelude.{◌≡◌, ◌+◌, ◌<◌, ◌≤◌, ◌^◌, None, length};
ghost use Rattle.prl_edf.specs.code.Going.{IsChoice};

use prl_base::TaskNo;

/// What is left of a task: its first job with units left, the dates of that job in ticks, and these
/// units.
#[derive(Clone, Copy)]
pub(crate) struct Rest {
    pub(crate) job: u64,
    pub(crate) release: u64,
    pub(crate) deadline: u64,
    pub(crate) units: u64,
}

/// A task with a job that is released.
#[derive(Clone, Copy)]
pub(crate) struct Ready {
    pub(crate) task: TaskNo,
    pub(crate) rest: Rest,
}

/// The ready task that goes first, if there is one, and when the next job is released.
#[derive(Clone, Copy)]
pub(crate) struct Choice {
    pub(crate) ready: Option<Ready>,
    pub(crate) next: u64,
}

/// The choice with one more task.
fn with_task(best: Choice, rests: &[Option<Rest>], task: TaskNo, now: u64, end: u64) -> Choice
    requires task { task.0 < length rests.now }
    requires best { IsChoice rests.now now end task.0 best }
    ensures { IsChoice rests.now now end (task.0 + 1) result }
{
    let _ = end;
    let rest = match rests[task.0 as usize] {
        None => return best,
        Some(rest) => rest,
    };
    if now < rest.release {
        return Choice {
            next: best.next.min(rest.release),
            ..best
        };
    }
    match best.ready {
        Some(ready) if ready.rest.deadline <= rest.deadline => best,
        _ => Choice {
            ready: Some(Ready { task, rest }),
            ..best
        },
    }
}

/// The choice among all tasks: the ready one whose job is due first, of several the lowest, and the
/// next release, or `end`.
pub(crate) fn choose(rests: &[Option<Rest>], now: u64, end: u64) -> Choice
    requires { length rests.now < 2 ^ 32 }
    ensures { IsChoice rests.now now end (length rests.now) result }
{
    let mut best = Choice {
        ready: None,
        next: end,
    };
    for i in 0..rests.len() {
        best = with_task(best, rests, TaskNo(i as u32), now, end);
    }
    best
}
