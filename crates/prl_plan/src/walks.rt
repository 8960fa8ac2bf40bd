//! The operand of a job: what the walk over the operators of an edge comes to.

use prl_base::Value;

/// What a job reads on an edge.
#[derive(Clone, Copy, PartialEq, Eq)]
pub enum Operand {
    /// A constant.
    Const(Value),
    /// The value of the producer's job of this number.
    From(u64),
}
