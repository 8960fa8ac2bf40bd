//! How many flows expressions give, and where they are not as many as are needed.

ghost use Rattle.std.specs.Prelude.{◌≡◌, ◌+◌, ◌++◌, ℕ, List, map, length};
ghost use Rattle.prl_ast.specs.Trees.{tree_of, root_of, equation_tree, program_tree};
ghost use Rattle.prl_names.specs.ExprLists.{all_trees};
ghost use Rattle.prl_types.specs.Flows.{operated, flows_of, root_flows, all_flows};
ghost use Rattle.prl_terms.specs.declared.terms.Term.{Term};
ghost use Rattle.prl_types.specs.Arity.{counted, first_at, unless_equal, last_at, prefix_fault, postfix_fault, faults_in, root_faults, all_faults, equation_faults, equations_faults, arity_faults};

use crate::contexts::Context;
use prl_ast::{Base, Equation, Expr, PlacedOp};

/// What an expression gives.
#[derive(Clone, Copy)]
struct Arity {
    /// The number of flows, if it is one of 64 bits.
    flows: Option<usize>,
    /// Where inside, in bytes, there is first another number of flows than is needed.
    fault: Option<u32>,
}

fn sum(a: Option<usize>, b: Option<usize>) -> Option<usize>
    ensures { (m n : ℕ) → a ≡ counted m → b ≡ counted n → result ≡ counted (m + n) }
{
    match (a, b) {
        (Some(a), Some(b)) => a.checked_add(b),
        (Some(_), None) => None,
        (None, Some(_)) => None,
        (None, None) => None,
    }
}

/// The byte, if another number was found than is needed.
fn unequal(found: Option<usize>, needed: usize, at: u32) -> Option<u32>
    ensures { (n : ℕ) → found ≡ counted n → result ≡ first_at (unless_equal n needed at) }
{
    match found {
        Some(n) => { if n == needed { None } else { Some(at) } }
        None => Some(at),
    }
}

fn first(a: Option<u32>, b: Option<u32>) -> Option<u32>
    ensures { (xs ys : List ℕ) → a ≡ first_at xs → b ≡ first_at ys → result ≡ first_at (xs ++ ys) }
{
    match a {
        Some(at) => Some(at),
        None => b,
    }
}

/// Where the operator stands that is next to what prefixes are applied to.
fn last_at(at: u32, operators: &[PlacedOp]) -> u32
    ensures { result ≡ last_at at operators.now }
{
    let mut last = at;
    for operator in operators {
        last = operator.at.at;
    }
    last
}

fn prefix_fault(found: Option<usize>, prefixes: &[PlacedOp], postfixes: &[PlacedOp]) -> Option<u32>
    ensures { (n : ℕ) → found ≡ counted n → result ≡ first_at (prefix_fault n prefixes.now postfixes.now) }
{
    match prefixes {
        [] => None,
        [first, rest @ ..] => {
            if postfixes.is_empty() {
                unequal(found, 1, last_at(first.at.at, rest))
            } else {
                None
            }
        }
    }
}

fn postfix_fault(found: Option<usize>, postfixes: &[PlacedOp]) -> Option<u32>
    ensures { (n : ℕ) → found ≡ counted n → result ≡ first_at (postfix_fault n postfixes.now) }
{
    match postfixes {
        [] => None,
        [first, ..] => unequal(found, 1, first.at.at),
    }
}

/// How many flows there are after operators.
fn operated(found: Option<usize>, prefixes: &[PlacedOp], postfixes: &[PlacedOp]) -> Option<usize>
    ensures { (terms : List Term) → found ≡ counted (length terms) → result ≡ counted (length (operated prefixes.now postfixes.now terms)) }
{
    if prefixes.is_empty() && postfixes.is_empty() {
        found
    } else {
        Some(1)
    }
}

#[cycle(arity)]
fn expression(context: &Context<'_, '_>, node: usize, expr: &Expr) -> Arity
    ensures flows { result.flows ≡ counted (length (flows_of (program_tree context.now) node (tree_of expr.now))) }
    ensures fault { result.fault ≡ first_at (faults_in (program_tree context.now) node (tree_of expr.now)) }
{
    let inner = base(context, node, &expr.base);
    let prefix = prefix_fault(inner.flows, expr.pre.as_slice(), expr.post.as_slice());
    let postfix = postfix_fault(inner.flows, expr.post.as_slice());
    let front = first(prefix, inner.fault);
    Arity {
        flows: operated(inner.flows, expr.pre.as_slice(), expr.post.as_slice()),
        fault: first(front, postfix),
    }
}

#[cycle(arity)]
fn base(context: &Context<'_, '_>, node: usize, base: &Base) -> Arity
    ensures flows { result.flows ≡ counted (length (root_flows (program_tree context.now) node (root_of base.now))) }
    ensures fault { result.fault ≡ first_at (root_faults (program_tree context.now) node (root_of base.now)) }
{
    match base {
        Base::Const(_) | Base::Var(_) => Arity {
            flows: Some(1),
            fault: None,
        },
        Base::Apply { name, at, args } => {
            let inner = parts(context, node, args.as_slice());
            let callee = context.callee(name.bytes());
            let counts = context.counts(callee);
            let fault = unequal(inner.flows, counts.0, at.at);
            Arity {
                flows: Some(counts.1),
                fault: first(fault, inner.fault),
            }
        }
        Base::Group(exprs) => parts(context, node, exprs.as_slice()),
    }
}

#[cycle(arity)]
fn parts(context: &Context<'_, '_>, node: usize, exprs: &[Expr]) -> Arity
    ensures flows { result.flows ≡ counted (length (all_flows (program_tree context.now) node (all_trees exprs.now))) }
    ensures fault { result.fault ≡ first_at (all_faults (program_tree context.now) node (all_trees exprs.now)) }
{
    let mut flows = Some(0);
    let mut fault = None;
    for expr in exprs {
        let arity = expression(context, node, expr);
        flows = sum(flows, arity.flows);
        fault = first(fault, arity.fault);
    }
    Arity { flows, fault }
}

fn equation_fault(context: &Context<'_, '_>, node: usize, equation: &Equation) -> Option<u32>
    ensures { result ≡ first_at (equation_faults (program_tree context.now) node (equation_tree equation.now)) }
{
    let right = expression(context, node, &equation.right);
    let fault = unequal(right.flows, equation.lefts.len(), equation.at.at);
    first(fault, right.fault)
}

fn equations_fault(context: &Context<'_, '_>, node: usize, equations: &[Equation]) -> Option<u32>
    ensures { result ≡ first_at (equations_faults (program_tree context.now) node (map equation_tree equations.now)) }
{
    for equation in equations {
        if let Some(at) = equation_fault(context, node, equation) {
            return Some(at);
        }
    }
    None
}

/// Where in the program, in bytes, there is first another number of flows than is needed.
#[tactic(auto, unfolding(crate::specs::Arity::arity_faults))]
pub fn arity_fault(context: &Context<'_, '_>) -> Option<u32>
    ensures { result ≡ first_at (arity_faults (program_tree context.now)) }
{
    for (k, node) in context.program().nodes.as_slice().iter().enumerate() {
        if let Some(at) = equations_fault(context, k, node.eqs.as_slice()) {
            return Some(at);
        }
    }
    None
}
