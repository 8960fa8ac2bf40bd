//! The types of expressions, and what their names stand for.

ghost use Rattle.std.specs.Prelude.{◌≡◌};
ghost use Rattle.prl_base.specs.Reading.{GivesBut};
ghost use Rattle.prl_body.specs.Codes.{expression_of, pair_expressions};
ghost use Rattle.prl_body.specs.Texts.{tree_of, pair_trees};
ghost use Rattle.prl_body.specs.TypeChecks.{last_at, typed, typed_choice, typed_rights, typed_run};

use crate::codes::{Code, OperatorAndRight};
use crate::faults::BodyFault;
use crate::scopes::Scope;
use crate::texts::{Expr, ExprRight};
use prl_base::{Prefix, Span, Ty, is_same_type};
use std::alloc::Global;

/// Where the operator next to the operand stands, in bytes.
fn last_at(ats: &[Span]) -> u32
    ensures { result ≡ last_at ats.now }
{
    match ats.last() {
        Some(span) => span.at,
        None => 0,
    }
}

/// The operators and right operands with their names resolved, after a left operand of this type, and the type of the series.
#[cycle(typing)]
fn typed_rights(
    alloc: Global,
    scope: &Scope<'_>,
    left: Ty,
    rights: &[ExprRight],
) -> Result<(Vec<OperatorAndRight>, Ty), BodyFault>
    ensures { GivesBut BodyFault.Memory (λ x. (pair_expressions x.0.items, x.1)) result (typed_rights scope.now.ins scope.now.registers left (pair_trees rights.now)) }
{
    let mut ty = left;
    let mut typed_ones = Vec::new(alloc);
    for pair in rights {
        let (right, right_ty) = typed(alloc, scope, &pair.right)?;
        if !pair.operator.allows(ty, right_ty) {
            return Err(BodyFault::BodyType(pair.at.at));
        }
        typed_ones.push(OperatorAndRight {
            operator: pair.operator,
            right,
        })?;
        ty = pair.operator.result_type();
    }
    Ok((typed_ones, ty))
}

/// The operand after the operators of a run.
fn run_of(prefix: Prefix, ats: &[Span], operand: (Box<Code>, Ty)) -> Result<(Code, Ty), BodyFault>
    ensures { GivesBut BodyFault.Memory (λ x. (expression_of x.0, x.1)) result
        (typed_run prefix ats.now (expression_of operand.0.value, operand.1)) }
{
    let (of, ty) = operand;
    if !is_same_type(ty, prefix.ty()) {
        return Err(BodyFault::BodyType(last_at(ats)));
    }
    let times = ats.len();
    Ok((Code::Run { prefix, times, of }, ty))
}

/// The choice of one of two; where the keyword `if` stands.
fn if_of(
    at: Span,
    test: (Box<Code>, Ty),
    chosen: (Box<Code>, Ty),
    other: (Box<Code>, Ty),
) -> Result<(Code, Ty), BodyFault>
    ensures { GivesBut BodyFault.Memory (λ x. (expression_of x.0, x.1)) result
        (typed_choice at (expression_of test.0.value, test.1) (expression_of chosen.0.value, chosen.1) (expression_of other.0.value, other.1)) }
{
    let ty = chosen.1;
    if !is_same_type(test.1, Ty::Bool) || !is_same_type(ty, other.1) {
        return Err(BodyFault::BodyType(at.at));
    }
    Ok((
        Code::If {
            test: test.0,
            chosen: chosen.0,
            other: other.0,
        },
        ty,
    ))
}

/// The expression with its names resolved, in a box, and its type.
#[cycle(typing)]
fn boxed(alloc: Global, scope: &Scope<'_>, expr: &Expr) -> Result<(Box<Code>, Ty), BodyFault>
    ensures { GivesBut BodyFault.Memory (λ x. (expression_of x.0.value, x.1)) result (typed scope.now.ins scope.now.registers (tree_of expr.now)) }
{
    let (code, ty) = typed(alloc, scope, expr)?;
    Ok((Box::new(alloc, code)?, ty))
}

/// The expression with its names resolved, and its type; or its first fault, parts before the whole.
#[cycle(typing)]
pub fn typed(alloc: Global, scope: &Scope<'_>, expr: &Expr) -> Result<(Code, Ty), BodyFault>
    ensures { GivesBut BodyFault.Memory (λ x. (expression_of x.0, x.1)) result (typed scope.now.ins scope.now.registers (tree_of expr.now)) }
{
    match expr {
        Expr::Const(value) => Ok((Code::Const(*value), value.ty())),
        Expr::Name { name, at } => match scope.named(name) {
            Some((variable, ty)) => Ok((Code::Name(variable), ty)),
            None => Err(BodyFault::BodyName(at.at)),
        },
        Expr::Run { prefix, ats, of } => {
            let operand = boxed(alloc, scope, of)?;
            run_of(*prefix, ats.as_slice(), operand)
        }
        Expr::Series { first, rights } => {
            let (first, left) = boxed(alloc, scope, first)?;
            let (rights, ty) = typed_rights(alloc, scope, left, rights)?;
            Ok((Code::Series { first, rights }, ty))
        }
        Expr::If {
            at,
            test,
            chosen,
            other,
        } => {
            let test = boxed(alloc, scope, test)?;
            let chosen = boxed(alloc, scope, chosen)?;
            let other = boxed(alloc, scope, other)?;
            if_of(*at, test, chosen, other)
        }
    }
}
