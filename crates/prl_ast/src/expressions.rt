//! Expressions.

use prl_base::{Name, Op, Seq, Span, Value};

/// An operator where it stands in the text.
#[derive(Clone, Copy)]
pub struct PlacedOp {
    pub op: Op,
    /// The operator's own token: `fby`, `::`, `tail`, `*^`, `/^` or `~>`.
    pub at: Span,
}

/// An expression. All of its postfixes bind stronger than all of its prefixes.
#[derive(Drop)]
#[cycle(tree)]
pub struct Expr {
    /// `c fby`, `c ::` and `tail`, the outermost first.
    pub pre: Seq<PlacedOp>,
    pub base: Base,
    /// `*^ k`, `/^ k` and `~> q`, the innermost first.
    pub post: Seq<PlacedOp>,
    /// The first token.
    pub at: Span,
}

/// What the operators of an expression are applied to.
#[derive(Drop)]
#[cycle(tree)]
pub enum Base {
    Const(Value),
    /// A flow of the node.
    Var(Name),
    /// The flows that a node or an import gives; `at` is its name.
    Apply {
        name: Name,
        at: Span,
        args: Vec<Expr>,
    },
    /// The flows of the parts in order.
    Group(Vec<Expr>),
}
