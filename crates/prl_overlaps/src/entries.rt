//! Entries of static cyclic tables.

use prl_base::TaskNo;

/// So many units of a job of the first hyperperiod from a tick on, and of the later jobs of its
/// class in the later ones.
#[derive(Clone, Copy)]
pub struct Entry {
    pub at: u64,
    pub task: TaskNo,
    pub job: u64,
    pub units: u64,
}
