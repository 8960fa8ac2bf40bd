//! How workers wait: between rounds in which they did nothing, and for one another.

use crossbeam_utils::Backoff;
use std::sync::Wait;
use std::sync::atomic::{AtomicU64, Ordering};
use std::time::Duration;

/// How many rounds on end that did nothing a worker ends with a turn of its backoff. Then it naps after each.
const TURNS: u32 = 100;

/// After so many naps on end the next ones last twice as long.
const NAPS_OF_A_LENGTH: u32 = 4;

/// How often the length of naps doubles. They begin with a microsecond, so none is longer than 2 to this power of them.
const DOUBLINGS: u32 = 10;

/// How many naps a free clock waits for a job that is due. Then it goes on without it.
const PATIENCE: u32 = 200;

/// As many tasks as a plan may have.
const TASKS: usize = 64;

/// How a worker waits after rounds in which it did nothing.
#[derive(Drop)]
pub(crate) struct Rest {
    backoff: Backoff,
    /// How many rounds on end have done nothing.
    rounds: u32,
    /// What the worker naps on. Nobody wakes it there.
    bed: AtomicU64,
}

impl Rest {
    /// As after an event.
    pub(crate) fn new() -> Rest {
        Rest {
            backoff: Backoff::new(),
            rounds: 0,
            bed: AtomicU64::new(0),
        }
    }

    /// There was an event.
    pub(crate) fn reset(&mut self) {
        self.backoff.reset();
        self.rounds = 0;
    }

    /// Waits a little after a round that did nothing. Whether that was a nap.
    pub(crate) fn take<R: Wait>(&mut self, rt: &R) -> bool {
        let naps = self.rounds.checked_sub(TURNS);
        self.rounds = self.rounds.saturating_add(1);
        match naps {
            None => {
                self.backoff.snooze();
                false
            }
            Some(naps) => {
                let length = 1u64 << (naps / NAPS_OF_A_LENGTH).min(DOUBLINGS);
                self.bed.park_timeout(rt, 0, Duration::from_micros(length));
                true
            }
        }
    }
}

/// The workers beside the one that leads.
#[derive(Drop)]
pub(crate) struct Others {
    count: u32,
    /// How many of them have begun, or got no thread.
    begun: AtomicU64,
}

impl Others {
    /// So many, of whom none has begun.
    pub(crate) fn new(count: u32) -> Others {
        Others {
            count,
            begun: AtomicU64::new(0),
        }
    }

    /// One more begins.
    pub(crate) fn begin(&self) {
        self.begun.fetch_add(1, Ordering::SeqCst);
    }

    /// Whether all have begun.
    fn have_begun(&self) -> bool {
        self.begun.load(Ordering::SeqCst) >= self.count as u64
    }
}

/// For which jobs a free clock still waits.
#[derive(Drop)]
pub(crate) struct Patience {
    /// The task that it waits for, and how many of its jobs had ended.
    due: Option<(usize, u64)>,
    /// How many naps it has waited for that.
    naps: u32,
    /// By task, the number of the last job that it waits for no longer, plus 1; or 0.
    given_up: [u64; TASKS],
}

impl Patience {
    /// It waits for each job.
    pub(crate) fn new() -> Patience {
        Patience {
            due: None,
            naps: 0,
            given_up: [0; TASKS],
        }
    }

    /// The worker that leads has waited, by a nap or not.
    pub(crate) fn note(&mut self, napped: bool) {
        if napped {
            self.naps = self.naps.saturating_add(1);
        }
    }

    /// Whether the clock still waits for a job of the task that is due, where so many of its jobs have ended. It waits until
    /// all workers have begun, and from then on so many naps.
    pub(crate) fn is_left(&mut self, others: &Others, task: usize, ended: u64) -> bool {
        if let Some(last) = self.given_up.get(task) {
            if *last > ended {
                return false;
            }
        }
        if self.due != Some((task, ended)) || !others.have_begun() {
            self.due = Some((task, ended));
            self.naps = 0;
        }
        if self.naps < PATIENCE {
            return true;
        }
        if let Some(last) = self.given_up.get_mut(task) {
            *last = ended.saturating_add(1);
        }
        false
    }
}
