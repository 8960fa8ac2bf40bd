//! The first name that an equation uses and that stands for nothing.

ghost use Rattle.std.specs.Prelude.{◌≡◌, map};
ghost use Rattle.std.specs.Option.{option_copied};
ghost use Rattle.prl_ast.specs.Trees.{tree_of, equation_tree, program_tree};
ghost use Rattle.prl_names.specs.ExprLists.{all_trees};
ghost use Rattle.prl_names.specs.Unknowns.{unknown_in, unknown_trees, unknown_lefts, unknown_equations, unknown_of};

use crate::lookups::Names;
use prl_ast::{Base, Equation, Expr, Placed};
use prl_base::Name;

/// The first name of the expression that is no flow of the node, or is applied and is no node or import.
#[cycle(unknown)]
fn unknown_in<'t>(names: &Names<'_>, node: usize, expr: &'t Expr) -> Option<&'t Name>
    ensures { option_copied result ≡ unknown_in (program_tree names.now) node (tree_of expr.now) }
{
    match &expr.base {
        Base::Const(_) => None,
        Base::Var(name) => match names.param(node, name.bytes()) {
            Some(_) => None,
            None => Some(name),
        },
        Base::Apply { name, args, .. } => match names.callee(name.bytes()) {
            Some(_) => unknown_trees(names, node, args),
            None => Some(name),
        },
        Base::Group(parts) => unknown_trees(names, node, parts),
    }
}

/// The first such name of several expressions.
#[cycle(unknown)]
fn unknown_trees<'t>(names: &Names<'_>, node: usize, exprs: &'t [Expr]) -> Option<&'t Name>
    ensures { option_copied result ≡ unknown_trees (program_tree names.now) node (all_trees exprs.now) }
{
    for expr in exprs {
        if let Some(name) = unknown_in(names, node, expr) {
            return Some(name);
        }
    }
    None
}

/// The first of the left names that is no flow of the node.
fn unknown_left<'t>(names: &Names<'_>, node: usize, lefts: &'t [Placed]) -> Option<&'t Name>
    ensures { option_copied result ≡ unknown_lefts (program_tree names.now) node lefts.now }
{
    for left in lefts {
        if names.param(node, left.name.bytes()).is_none() {
            return Some(&left.name);
        }
    }
    None
}

/// The first unknown name of the equations of the node.
fn unknown_in_equations<'t>(
    names: &Names<'_>,
    node: usize,
    equations: &'t [Equation],
) -> Option<&'t Name>
    ensures { option_copied result ≡ unknown_equations (program_tree names.now) node (map equation_tree equations.now) }
{
    for equation in equations {
        if let Some(name) = unknown_left(names, node, equation.lefts.as_slice()) {
            return Some(name);
        }
        if let Some(name) = unknown_in(names, node, &equation.right) {
            return Some(name);
        }
    }
    None
}

/// The first name that an equation of the program uses and that stands for nothing there.
#[tactic(auto, unfolding(crate::specs::Unknowns::unknown_of))]
pub fn unknown<'n>(names: &'n Names<'_>) -> Option<&'n Name>
    ensures { option_copied result ≡ unknown_of (program_tree names.now) }
{
    for (k, node) in names.program().nodes.as_slice().iter().enumerate() {
        if let Some(name) = unknown_in_equations(names, k, node.eqs.as_slice()) {
            return Some(name);
        }
    }
    None
}
