//! Flows as they stand in a text: what an application gives is lent by its signature, and no flow of it is copied.

ghost use Rattle.std.specs.Prelude.{◌≡◌, ◌++◌, ◌∷◌, [], length, drop, slice_get, IfOk, OnOk};
ghost use Rattle.prl_types.specs.Flows.{operand, operated, placed};
ghost use Rattle.prl_types.specs.code.Segments.{listed, terms_in, flows_in};

use prl_ast::Expr;
use prl_base::Ty;
use prl_terms::Term;
use std::alloc::{AllocError, Global};

/// One flow, or all that something applied gives.
#[derive(Clone, Copy)]
pub(crate) enum Flows<'s> {
    One(Term),
    All(&'s [Term]),
}

/// Flows one after another, and the byte of the text at which an expression that gives them stands.
#[derive(Clone, Copy)]
pub(crate) struct Segment<'s> {
    pub at: u32,
    pub flows: Flows<'s>,
}

impl<'s> Flows<'s> {
    /// How many they are.
    pub fn len(&self) -> usize
        ensures { result ≡ length (listed self.now) }
    {
        match self {
            Flows::One(_) => 1,
            Flows::All(terms) => terms.len(),
        }
    }

    /// The first of them.
    pub fn first(&self) -> Option<Term>
        ensures { result ≡ slice_get (listed self.now) 0 }
    {
        match self {
            Flows::One(term) => Some(*term),
            Flows::All(terms) => {
                match terms.first() {
                    Some(term) => Some(*term),
                    None => None,
                }
            }
        }
    }
}

/// The flow that an operator is of.
pub(crate) fn operand(segments: &[Segment<'_>]) -> Term
    ensures { result ≡ operand (terms_in segments.now) }
{
    for segment in segments {
        if let Some(term) = segment.flows.first() {
            return term;
        }
    }
    Term::Known(Ty::Int)
}

/// These flows at this place, and no others.
pub(crate) fn only<'s>(
    alloc: Global,
    at: u32,
    flows: Flows<'s>,
) -> Result<Vec<Segment<'s>>, AllocError>
    ensures { IfOk result (λ list. terms_in list.items ≡ listed flows.entry) }
{
    Ok(vec![in alloc; Segment { at, flows }]?)
}

/// The flows after operators.
pub(crate) fn operated<'s>(
    alloc: Global,
    expr: &Expr,
    segments: Vec<Segment<'s>>,
) -> Result<Vec<Segment<'s>>, AllocError>
    ensures { IfOk result (λ list. terms_in list.items ≡ operated expr.now.pre expr.now.post (terms_in segments.entry.items)) }
{
    if expr.pre.is_empty() && expr.post.is_empty() {
        Ok(segments)
    } else {
        only(alloc, expr.at.at, Flows::One(operand(segments.as_slice())))
    }
}

/// Adds flows, all at this place.
pub(crate) fn add_flows<'s>(
    list: &mut Vec<Segment<'s>>,
    at: u32,
    segments: &[Segment<'s>],
) -> Result<(), AllocError>
    ensures { OnOk result (flows_in list.new.items ≡ flows_in list.old.items ++ placed at (terms_in segments.now)) }
{
    for segment in segments {
        list.push(Segment {
            at,
            flows: segment.flows,
        })?;
    }
    Ok(())
}

/// The flows by their types.
pub(crate) fn terms(alloc: Global, segments: &[Segment<'_>]) -> Result<Vec<Term>, AllocError>
    ensures { IfOk result (λ terms. terms.items ≡ terms_in segments.now) }
{
    let mut list = Vec::new(alloc);
    for segment in segments {
        match segment.flows {
            Flows::One(term) => list.push(term)?,
            Flows::All(terms) => list.extend_from_slice(terms)?,
        }
    }
    Ok(list)
}

/// What is left after so many of them.
pub(crate) fn after(terms: &[Term], count: usize) -> &[Term]
    ensures { result.now ≡ drop count terms.now }
{
    if count < terms.len() {
        &terms[count..]
    } else {
        &[]
    }
}
