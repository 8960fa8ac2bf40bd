//! Expressions whose names are resolved to inputs and registers.

use prl_base::{Operator, Prefix, Seq, Value};

/// What a name of an expression stands for.
#[derive(Clone, Copy)]
pub enum Variable {
    /// The input of this number, from 0.
    Input(usize),
    /// The register of this number, from 0.
    Register(usize),
}

/// An expression. A series and a run are one level, however long they are, so that only parentheses nest.
#[derive(Drop)]
#[cycle(tree)]
pub enum Code {
    Const(Value),
    Name(Variable),
    /// The operator so many times before the operand.
    Run {
        prefix: Prefix,
        times: usize,
        of: Box<Code>,
    },
    /// From left to right.
    Series {
        first: Box<Code>,
        rights: Vec<OperatorAndRight>,
    },
    If {
        test: Box<Code>,
        chosen: Box<Code>,
        other: Box<Code>,
    },
}

/// An operator and its right operand.
#[derive(Drop)]
#[cycle(tree)]
pub struct OperatorAndRight {
    pub operator: Operator,
    pub right: Code,
}
