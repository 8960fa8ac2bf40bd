//! The numbers by which the layers name tasks, edges, cells and flows. Each kind counts from 0.

/// A task of a task graph.
#[derive(Clone, Copy, PartialEq, Eq)]
pub struct TaskNo(pub u32);

/// An edge of a task graph.
#[derive(Clone, Copy, PartialEq, Eq)]
pub struct EdgeNo(pub u32);

/// A buffer cell of a plan.
#[derive(Clone, Copy, PartialEq, Eq)]
pub struct CellNo(pub u32);

/// A flow of a flat program.
#[derive(Clone, Copy, PartialEq, Eq)]
pub struct FlowNo(pub u32);
