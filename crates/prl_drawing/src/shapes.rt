//! A job as a picture shows it.

use crate::cuts::Cut;

/// A job, its dates in ticks, and where they stand.
#[derive(Clone, Copy)]
pub struct Shape {
    /// The row that it stands in.
    pub row: u32,
    pub task: u32,
    pub job: u64,
    /// The encoded release.
    pub release: u64,
    /// The encoded deadline.
    pub deadline: u64,
    /// Where the window begins: at the encoded release, or where the scale begins.
    pub left: u64,
    /// Where the window ends: at the encoded deadline, or where the scale ends.
    pub right: u64,
    /// Which ends of the window are not drawn.
    pub cut: Cut,
    /// Where the outline of the WCET ends that begins at the encoded release.
    pub bar: u64,
    /// Which ends of that outline are not drawn.
    pub bar_cut: Cut,
    /// Where the job's own release stands.
    pub own_left: u64,
    /// Where the job's own deadline stands.
    pub own_right: u64,
}
