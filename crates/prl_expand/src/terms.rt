//! The flows that an expression gives.

ghost use Rattle.std.specs.Prelude.{◌≡◌, ◌<◌, ◌≤◌, ◌+◌, ◌∷◌, [], ℕ, Some, length, map, reverse, slice_get, IfOk, IfSome, OnOk};
ghost use Rattle.prl_expand.specs.code.Steps.{first_list, given_around, given_of, other_lists};
ghost use Rattle.prl_expand.specs.code.Terms.{arg_of, number_of, output_terms, placed_at};

use prl_ast::{PlacedOp, Port};
use prl_base::{FlowNo, Span, Ty};
use prl_flow::Arg;
use std::alloc::{AllocError, Global};

/// A flow that an expression gives: its number and type, and where the expression begins.
#[derive(Clone, Copy)]
pub(crate) struct Term {
    pub flow: u32,
    pub ty: Ty,
    pub at: Span,
}

/// A list of the one flow.
pub(crate) fn one_term(alloc: Global, term: Term) -> Result<Vec<Term>, AllocError>
    ensures { IfOk result (λ terms. terms.items ≡ term ∷ []) }
{
    let mut terms = Vec::new(alloc);
    terms.push(term)?;
    Ok(terms)
}

/// The same flows, given by an expression that begins at the place.
pub(crate) fn placed(alloc: Global, terms: &[Term], at: Span) -> Result<Vec<Term>, AllocError>
    ensures { IfOk result (λ list. list.items ≡ map (placed_at at) terms.now) }
{
    terms
        .iter()
        .map(|term| Term {
            flow: term.flow,
            ty: term.ty,
            at,
        })
        .collect(alloc)
}

/// The flows as arguments.
pub(crate) fn arguments(alloc: Global, terms: &[Term]) -> Result<Vec<Arg>, AllocError>
    ensures { IfOk result (λ list. list.items ≡ map arg_of terms.now) }
{
    terms
        .iter()
        .map(|term| Arg {
            flow: FlowNo(term.flow),
            at: term.at,
        })
        .collect(alloc)
}

/// The numbers of the flows.
pub(crate) fn numbers(alloc: Global, terms: &[Term]) -> Result<Vec<FlowNo>, AllocError>
    ensures { IfOk result (λ list. list.items ≡ map number_of terms.now) }
{
    terms.iter().map(|term| FlowNo(term.flow)).collect(alloc)
}

/// The outputs of an import, numbered from the first.
pub(crate) fn outputs(
    alloc: Global,
    ports: &[Port],
    first: u32,
    at: Span,
) -> Result<Vec<Term>, AllocError>
    requires { first + length ports.now ≤ 4096 }
    ensures { IfOk result (λ terms. terms.items ≡ output_terms ports.now first at) }
{
    let mut terms = Vec::new(alloc);
    for (k, port) in ports.iter().enumerate() {
        terms.push(Term {
            flow: first + k as u32,
            ty: port.ty,
            at,
        })?;
    }
    Ok(terms)
}

/// The flow of the variable of this index.
pub(crate) fn variable(variables: &[Term], index: Option<usize>) -> Term
    requires { (k : ℕ) × (index ≡ Some k) × (k < length variables.now) }
    ensures { (k : ℕ) × (index ≡ Some k) × (slice_get variables.now k ≡ Some result) }
{
    match index {
        Some(k) => variables[k],
        None => unreachable!(),
    }
}

/// The operators from the last to the first.
pub(crate) fn reversed(alloc: Global, ops: &[PlacedOp]) -> Result<Vec<PlacedOp>, AllocError>
    ensures { IfOk result (λ list. list.items ≡ reverse ops.now) }
{
    ops.iter().rev().copied().collect(alloc)
}

/// Puts a list into the others, as the innermost of them.
pub(crate) fn enclose(lists: &mut Vec<Vec<Term>>, list: Vec<Term>) -> Result<(), AllocError>
    ensures { OnOk result (given_around lists.new.items ≡ given_of list.items ∷ given_around lists.old.items) }
{
    lists.push(list)?;
    Ok(())
}

/// Takes the innermost of the lists, the last one; an empty list where there is none.
pub(crate) fn innermost(alloc: Global, lists: &mut Vec<Vec<Term>>) -> Vec<Term>
    ensures list { given_of result.items ≡ first_list (given_around lists.old.items) }
    ensures others { given_around lists.new.items ≡ other_lists (given_around lists.old.items) }
{
    match lists.pop() {
        Some(list) => list,
        None => Vec::new(alloc),
    }
}
