//! An expression as a list of steps, so that nodes in the parts of expressions are entered one after the other and not from within
//! each part.

ghost use Rattle.std.specs.Prelude.{◌≡◌, ◌++◌, OnOk, IfOk};
ghost use Rattle.prl_ast.specs.Trees.{tree_of, root_of};
ghost use Rattle.prl_names.specs.ExprLists.{all_trees};
ghost use Rattle.prl_expand.specs.code.Acts.{acts_of, all_steps, root_steps, steps_of};

use prl_ast::{Base, Expr};
use std::alloc::{AllocError, Global};

/// A step through an expression.
#[derive(Clone, Copy)]
pub(crate) enum Step<'a> {
    /// The parts of an expression begin.
    Open,
    /// All parts of the expression are past.
    Close(&'a Expr),
}

/// Appends the steps through an expression.
#[cycle(push_steps)]
fn push_steps<'a>(list: &mut Vec<Step<'a>>, expr: &'a Expr) -> Result<(), AllocError>
    ensures { OnOk result (acts_of list.new.items ≡ acts_of list.old.items ++ steps_of (tree_of expr.now)) }
{
    list.push(Step::Open)?;
    push_parts(list, &expr.base)?;
    list.push(Step::Close(expr))?;
    Ok(())
}

/// Appends the steps through the parts of what operators are applied to.
#[cycle(push_steps)]
fn push_parts<'a>(list: &mut Vec<Step<'a>>, base: &'a Base) -> Result<(), AllocError>
    ensures { OnOk result (acts_of list.new.items ≡ acts_of list.old.items ++ root_steps (root_of base.now)) }
{
    match base {
        Base::Const(_) => Ok(()),
        Base::Var(_) => Ok(()),
        Base::Apply {
            name: _,
            at: _,
            args,
        } => push_all(list, args),
        Base::Group(parts) => push_all(list, parts),
    }
}

/// Appends the steps through several expressions.
#[cycle(push_steps)]
fn push_all<'a>(list: &mut Vec<Step<'a>>, exprs: &'a [Expr]) -> Result<(), AllocError>
    ensures { OnOk result (acts_of list.new.items ≡ acts_of list.old.items ++ all_steps (all_trees exprs.now)) }
{
    for expr in exprs {
        push_steps(list, expr)?;
    }
    Ok(())
}

/// The steps through an expression.
pub(crate) fn steps(alloc: Global, expr: &Expr) -> Result<Vec<Step<'_>>, AllocError>
    ensures { IfOk result (λ list. acts_of list.items ≡ steps_of (tree_of expr.now)) }
{
    let mut list = Vec::new(alloc);
    push_steps(&mut list, expr)?;
    Ok(list)
}
