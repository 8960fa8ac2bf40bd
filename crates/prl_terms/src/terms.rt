//! Types that are known or sought, and the rules between them.

use prl_base::Ty;

/// A type that is known, or that of a parameter. The parameters of all nodes are counted from 0 in the order of their
/// declaration: the nodes in order, and of each its inputs, outputs and locals.
#[derive(Clone, Copy, PartialEq, Eq)]
pub enum Term {
    Known(Ty),
    Parameter(usize),
}

/// Two types that are to be equal.
#[derive(Clone, Copy, PartialEq, Eq)]
pub struct Rule {
    /// The byte of the text.
    pub at: u32,
    pub wanted: Term,
    pub found: Term,
}
