//! The syntax tree of a program: what `parse` reads and the later layers work on. It stands on the names,
//! values, operators and places of `prl_base`.
//!
//! Only parentheses nest, at most 64 deep: the prefixes and postfixes of an expression are lists, so that the
//! tree of a long chain is flat and its memory is released without recursion over the chain.
#![tactic(auto)]

mod declarations;
mod expressions;

pub use declarations::{Device, Equation, Import, Node, Param, Placed, Port, Program, Rate};
pub use expressions::{Base, Expr, PlacedOp};
