//! Trees from their parts.

ghost use Rattle.std.specs.Prelude.{◌≡◌, map, IfOk, Some};
ghost use Rattle.prl_body.specs.Texts.{tree_of};
ghost use Rattle.prl_bodytext.specs.Trees.{pair_view, compared, in_series, prefixed};

use prl_base::{Seq, Span};
use prl_body::{Expr, ExprRight, Prefix};
use std::alloc::{AllocError, Global};

/// The series of these operators and right operands; without any it is its first operand.
pub fn in_series(alloc: Global, first: Expr, rights: Vec<ExprRight>) -> Result<Expr, AllocError>
    ensures { IfOk result (λ e. tree_of e ≡ in_series (tree_of first) (map pair_view rights.items)) }
{
    if rights.is_empty() {
        return Ok(first);
    }
    let first = Box::new(alloc, first)?;
    Ok(Expr::Series { first, rights })
}

/// The prefix at each of the places before the operand; without any it is the operand.
pub fn prefixed(
    alloc: Global,
    prefix: Prefix,
    ats: Vec<Span>,
    operand: Expr,
) -> Result<Expr, AllocError>
    ensures { IfOk result (λ e. tree_of e ≡ prefixed prefix ats.items (tree_of operand)) }
{
    if ats.is_empty() {
        return Ok(operand);
    }
    let ats = Seq::new(ats);
    let of = Box::new(alloc, operand)?;
    Ok(Expr::Run { prefix, ats, of })
}

/// Two operands with their operator.
pub fn compared(alloc: Global, first: Expr, pair: ExprRight) -> Result<Expr, AllocError>
    ensures { IfOk result (λ e. tree_of e ≡ compared (tree_of first) (Some (pair_view pair))) }
{
    let mut rights = Vec::new(alloc);
    rights.push(pair)?;
    in_series(alloc, first, rights)
}
