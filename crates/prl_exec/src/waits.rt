//! Which tasks of a worker are known to wait for the clock.

/// As many tasks as a plan may have.
const TASKS: usize = 64;

/// What a worker knows of the clock in its round of polls, and of the tasks that wait for it: a task whose
/// next job is released later than the clock's `now` need not be polled. A task that is not known here is polled.
#[derive(Drop)]
pub(crate) struct Waits {
    /// The clock's `now` as it was told in this round, in ticks.
    now: Option<u64>,
    /// By task, the release of its next job as it was told last, or 0.
    until: [u64; TASKS],
}

impl Waits {
    /// Nothing is known.
    pub(crate) fn new() -> Waits {
        Waits {
            now: None,
            until: [0; TASKS],
        }
    }

    /// A round of polls begins, with what is known of the clock.
    pub(crate) fn begin(&mut self, now: Option<u64>) {
        self.now = now;
    }

    /// The clock was at `now`, and the task's next job is released at the date `at`.
    pub(crate) fn note(&mut self, task: usize, now: u64, at: u64) {
        self.now = Some(now);
        if let Some(until) = self.until.get_mut(task) {
            *until = at;
        }
    }

    /// Whether the task's next job is known to be released later than the clock is.
    pub(crate) fn is_waiting(&self, task: usize) -> bool {
        match (self.now, self.until.get(task)) {
            (Some(now), Some(until)) => now < *until,
            _ => false,
        }
    }
}
