//! Probes that hold jobs until other ones have begun.

use prl_base::TaskNo;
use prl_io::Probe;
use std::sync::atomic::{AtomicBool, AtomicU64, Ordering};
use std::thread;

/// How many turns a job is held at most.
const TURNS: u32 = 10_000_000;

/// This job of the task is held until this job of another one has begun.
#[derive(Clone, Copy)]
pub struct Hold {
    pub task: u32,
    pub job: u64,
    pub other: u32,
    pub begun: u64,
}

/// A probe that holds jobs of up to four tasks.
#[derive(Drop)]
pub struct Holder {
    holds: [Hold; 2],
    /// By task, how many of its jobs have begun.
    begun: [AtomicU64; 4],
    calls: AtomicU64,
    in_vain: AtomicBool,
}

/// The second job of each of two tasks is held until that of the other one has begun.
pub const TWO_LANES: [Hold; 2] = [
    Hold {
        task: 0,
        job: 1,
        other: 1,
        begun: 1,
    },
    Hold {
        task: 1,
        job: 1,
        other: 0,
        begun: 1,
    },
];

/// The first job of task 1, which reads those of task 0, is held until the third of these has begun.
pub const A_READER: [Hold; 2] = [
    Hold {
        task: 1,
        job: 0,
        other: 0,
        begun: 2,
    },
    // no program of the tests has such a job
    Hold {
        task: 9,
        job: 0,
        other: 9,
        begun: 0,
    },
];

/// The second and the third job of task 1 are held until those of task 3 have begun.
pub const A_FAR_READER: [Hold; 2] = [
    Hold {
        task: 1,
        job: 1,
        other: 3,
        begun: 1,
    },
    Hold {
        task: 1,
        job: 2,
        other: 3,
        begun: 2,
    },
];

impl Holder {
    /// A probe with these holds.
    pub fn new(holds: [Hold; 2]) -> Holder {
        Holder {
            holds,
            begun: [
                AtomicU64::new(0),
                AtomicU64::new(0),
                AtomicU64::new(0),
                AtomicU64::new(0),
            ],
            calls: AtomicU64::new(0),
            in_vain: AtomicBool::new(false),
        }
    }

    /// How often it was called.
    pub fn calls(&self) -> u64 {
        self.calls.load(Ordering::SeqCst)
    }

    /// Whether a job was held for all its turns.
    pub fn in_vain(&self) -> bool {
        self.in_vain.load(Ordering::SeqCst)
    }

    /// Whether this job of the task has begun.
    fn has_begun(&self, task: u32, job: u64) -> bool {
        match self.begun.get(task as usize) {
            Some(begun) => begun.load(Ordering::SeqCst) > job,
            None => true,
        }
    }

    /// Waits until this job of the task has begun, for at most so many turns.
    fn wait(&self, task: u32, job: u64) {
        for _ in 0..TURNS {
            if self.has_begun(task, job) {
                return;
            }
            thread::yield_now();
        }
        self.in_vain.store(true, Ordering::SeqCst);
    }
}

impl Probe for Holder {
    fn before(&self, task: TaskNo, job: u64) {
        self.calls.fetch_add(1, Ordering::SeqCst);
        if let Some(begun) = self.begun.get(task.0 as usize) {
            begun.store(job.saturating_add(1), Ordering::SeqCst);
        }
        for hold in self.holds {
            if hold.task == task.0 && hold.job == job {
                self.wait(hold.other, hold.begun);
            }
        }
    }
}
