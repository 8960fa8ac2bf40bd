//! Repeating tables: the windows of a task's jobs, and the instances of an edge that are used.

use prl_base::Seq;

/// The window of a job, in ticks after its release.
#[derive(Clone, Copy, PartialEq, Eq)]
pub struct Window {
    /// How much later the encoded release is.
    pub lead: u64,
    /// How much later the encoded deadline is.
    pub tail: u64,
}

/// The used instances of an edge in order: the first of them, and the differences between one and the next, which
/// repeat.
#[derive(Drop)]
pub struct Used {
    pub first: u64,
    pub gaps: Seq<u64>,
}
