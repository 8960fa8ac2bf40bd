//! The trees of bodies as the text has them.

use prl_base::{Name, Operator, Prefix, Seq, Span, Value};

/// The bodies of a text, in order.
pub struct BodyTexts {
    pub bodies: Seq<BodyText>,
}

/// One body.
pub struct BodyText {
    pub name: Name,
    /// The name.
    pub at: Span,
    pub registers: Seq<RegisterText>,
    pub statements: Seq<Statement>,
}

/// `reg NAME = const;`
pub struct RegisterText {
    pub name: Name,
    pub first: Value,
    /// The name.
    pub at: Span,
}

/// `NAME = e;`
pub struct Statement {
    pub left: Name,
    pub right: Expr,
    /// The left name.
    pub at: Span,
}

/// An expression. A series and a run are one level, however long they are, so that only parentheses nest.
#[derive(Drop)]
#[cycle(text)]
pub enum Expr {
    Const(Value),
    Name {
        name: Name,
        at: Span,
    },
    /// The same operator so many times before the operand, the outermost first; each where it stands.
    Run {
        prefix: Prefix,
        ats: Seq<Span>,
        of: Box<Expr>,
    },
    /// From left to right.
    Series {
        first: Box<Expr>,
        rights: Vec<ExprRight>,
    },
    /// `if(test, chosen, other)`; where the keyword `if` stands.
    If {
        at: Span,
        test: Box<Expr>,
        chosen: Box<Expr>,
        other: Box<Expr>,
    },
}

/// An operator, where it stands, and its right operand.
#[derive(Drop)]
#[cycle(text)]
pub struct ExprRight {
    pub operator: Operator,
    pub at: Span,
    pub right: Expr,
}

impl Drop for BodyTexts {
    fn drop(self) {
        let BodyTexts { bodies } = self;
        drop(bodies);
    }
}

impl Drop for BodyText {
    fn drop(self) {
        let BodyText {
            name,
            at: _,
            registers,
            statements,
        } = self;
        drop(name);
        drop(registers);
        drop(statements);
    }
}

impl Drop for RegisterText {
    fn drop(self) {
        let RegisterText {
            name,
            first: _,
            at: _,
        } = self;
        drop(name);
    }
}

impl Drop for Statement {
    fn drop(self) {
        let Statement { left, right, at: _ } = self;
        drop(left);
        drop(right);
    }
}
