//! The variables of a node that is entered.

ghost use Rattle.std.specs.Prelude.{◌≡◌, ◌≤◌, ◌+◌, ◌++◌, ◌∷◌, [], Some, drop, length, map, slice_get, take, IfOk, OnOk};
ghost use Rattle.std.specs.List.{range_with_len};
ghost use Rattle.prl_ast.specs.Trees.{node_tree, program_tree};
ghost use Rattle.prl_names.specs.Lookups.{params_of};
ghost use Rattle.prl_expand.specs.Flats.{copies, label_of_node, paired, source_of, variable_flow};
ghost use Rattle.prl_expand.specs.code.Made.{have_types, types_of};
ghost use Rattle.prl_expand.specs.code.Terms.{flow_of, flows_of};
ghost use Rattle.prl_expand.specs.code.Variables.{copied, def_of, pairs_of, param_of, variables_made};

use crate::terms::Term;
use prl_ast::{Node, Param, Placed};
use prl_base::{FlowNo, Label, Name, Ty, push_number};
use prl_flow::{Def, Flow};
use prl_types::Typed;
use std::alloc::{AllocError, Global};

/// A name, and the flow that it is given.
#[derive(Clone, Copy)]
pub(crate) struct Pair<'a> {
    pub name: &'a Name,
    pub flow: u32,
}

/// How a variable is defined.
#[derive(Clone, Copy)]
pub(crate) enum Source {
    /// The rows of main's input of this number.
    Sensor(u32),
    /// The values of the flow of this number.
    Copy(u32),
}

/// The definition.
fn definition(source: Source) -> Def
    ensures { result ≡ def_of source }
{
    match source {
        Source::Sensor(k) => Def::Sensor(k),
        Source::Copy(i) => Def::Copy(FlowNo(i)),
    }
}

/// Copies of the flows.
pub(crate) fn copies_of(alloc: Global, terms: &[Term]) -> Result<Vec<Source>, AllocError>
    ensures { IfOk result (λ list. list.items ≡ map copied terms.now) }
{
    terms
        .iter()
        .map(|term| Source::Copy(term.flow))
        .collect(alloc)
}

/// A variable of a node.
#[derive(Clone, Copy)]
pub(crate) struct Variable<'a> {
    pub param: &'a Param,
}

/// The flows of the variables of node `k`, numbered from the first.
pub(crate) fn variables(
    alloc: Global,
    typed: &Typed<'_>,
    k: u32,
    node: &Node,
    first: u32,
) -> Result<Vec<Term>, AllocError>
    requires node { slice_get (program_tree typed.now.program).nodes k ≡ Some (node_tree node.now) }
    requires room { first + length (params_of (node_tree node.now)) ≤ 4096 }
    ensures flows { IfOk result (λ terms. map flow_of terms.items ≡ range_with_len first (length (params_of (node_tree node.now)))) }
    ensures types { IfOk result (λ terms. types_of terms.items ≡ have_types (program_tree typed.now.program) typed.now.types k (length (params_of (node_tree node.now)))) }
{
    let mut terms = Vec::new(alloc);
    for j in 0..node.ins.len() + node.outs.len() + node.locals.len() {
        terms.push(Term {
            flow: first + j as u32,
            ty: typed.ty(k, j as u32),
            at: node.at,
        })?;
    }
    Ok(terms)
}

/// The flow that the name is given; 0 where it is given none.
fn source_of(pairs: &[Pair<'_>], name: &Name) -> u32
    ensures { result ≡ source_of (pairs_of pairs.now) name.now }
{
    for pair in pairs {
        if pair.name.bytes() == name.bytes() {
            return pair.flow;
        }
    }
    0
}

/// Appends copies of the flows that the variables are given.
fn push_copies(
    defs: &mut Vec<Source>,
    pairs: &[Pair<'_>],
    params: &[Param],
) -> Result<(), AllocError>
    ensures { OnOk result (map def_of defs.new.items ≡ map def_of defs.old.items ++ copies (pairs_of pairs.now) params.now) }
{
    for param in params {
        defs.push(Source::Copy(source_of(pairs, &param.name)))?;
    }
    Ok(())
}

/// The definitions of the node's variables, of which the inputs have these.
pub(crate) fn sources_of(
    inputs: Vec<Source>,
    pairs: &[Pair<'_>],
    node: &Node,
) -> Result<Vec<Source>, AllocError>
    ensures { IfOk result (λ list. map def_of list.items ≡ map def_of inputs.items ++ copies (pairs_of pairs.now) (node.now.outs ++ node.now.locals)) }
{
    let mut defs = inputs;
    push_copies(&mut defs, pairs, node.outs.as_slice())?;
    push_copies(&mut defs, pairs, node.locals.as_slice())?;
    Ok(defs)
}

/// The outputs among the node's variables.
pub(crate) fn outs_of(alloc: Global, terms: &[Term], node: &Node) -> Result<Vec<Term>, AllocError>
    requires { length node.now.ins + length node.now.outs ≤ length terms.now }
    ensures { IfOk result (λ outs. outs.items ≡ take (length node.now.outs) (drop (length node.now.ins) terms.now)) }
{
    let from = node.ins.len();
    let to = from + node.outs.len();
    Vec::from_slice(alloc, &terms[from..to])
}

/// Appends the left names with the flows that they are given.
pub(crate) fn push_pairs<'a>(
    pairs: &mut Vec<Pair<'a>>,
    lefts: &'a [Placed],
    terms: &[Term],
) -> Result<(), AllocError>
    ensures { OnOk result (pairs_of pairs.new.items ≡ pairs_of pairs.old.items ++ paired lefts.now (map flow_of terms.now)) }
{
    let mut k = 0;
    while k < lefts.len() && k < terms.len() {
        pairs.push(Pair {
            name: &lefts[k].name,
            flow: terms[k].flow,
        })?;
        k += 1;
    }
    Ok(())
}

/// The label of a node that is entered: its name, `#`, its number and `.`.
pub(crate) fn label_of_node(alloc: Global, name: &Name, number: u32) -> Result<Label, AllocError>
    ensures { IfOk result (λ label. label ≡ label_of_node name.now number) }
{
    let mut text = Vec::from_slice(alloc, name.bytes())?;
    text.push(b'#')?;
    push_number(&mut text, number as u64)?;
    text.push(b'.')?;
    Label::new(alloc, text.as_slice())
}

/// The label of a variable: that of its node, and its name.
fn label_of(alloc: Global, node: &Label, name: &Name) -> Result<Label, AllocError>
    ensures { IfOk result (λ label. label ≡ node.now ++ name.now) }
{
    let mut text = Vec::from_slice(alloc, node.bytes())?;
    text.extend_from_slice(name.bytes())?;
    Label::new(alloc, text.as_slice())
}

/// The flow of a variable.
fn variable_flow(
    alloc: Global,
    label: &Label,
    i: u32,
    param: &Param,
    ty: Ty,
    def: Def,
) -> Result<Flow, AllocError>
    ensures { IfOk result (λ flow. (i, flow) ≡ variable_flow label.now i param.now ty def) }
{
    Ok(Flow {
        label: label_of(alloc, label, &param.name)?,
        ty,
        def,
        rate: param.rate,
        due: param.due,
        at: param.at,
    })
}

/// Appends the variables.
fn push_params<'a>(list: &mut Vec<Variable<'a>>, params: &'a [Param]) -> Result<(), AllocError>
    ensures { OnOk result (map param_of list.new.items ≡ map param_of list.old.items ++ params.now) }
{
    for param in params {
        list.push(Variable { param })?;
    }
    Ok(())
}

/// The variables of the node.
fn params<'a>(alloc: Global, node: &'a Node) -> Result<Vec<Variable<'a>>, AllocError>
    ensures { IfOk result (λ list. map param_of list.items ≡ params_of (node_tree node.now)) }
{
    let mut list = Vec::new(alloc);
    push_params(&mut list, node.ins.as_slice())?;
    push_params(&mut list, node.outs.as_slice())?;
    push_params(&mut list, node.locals.as_slice())?;
    Ok(list)
}

/// Appends the flows of the variables, with these definitions.
fn push_flows(
    alloc: Global,
    flows: &mut Vec<Flow>,
    label: &Label,
    params: &[Variable<'_>],
    terms: &[Term],
    defs: &[Source],
) -> Result<(), AllocError>
    ensures { OnOk result (flows.new.items ≡ flows.old.items ++ flows_of (variables_made label.now (map param_of params.now) terms.now (map def_of defs.now))) }
{
    let mut k = 0;
    while k < params.len() && k < terms.len() && k < defs.len() {
        let term = terms[k];
        let def = definition(defs[k]);
        flows.push(variable_flow(alloc, label, term.flow, params[k].param, term.ty, def)?)?;
        k += 1;
    }
    Ok(())
}

/// Appends the flows of the node's variables, with these definitions.
pub(crate) fn push_variables(
    alloc: Global,
    flows: &mut Vec<Flow>,
    label: &Label,
    node: &Node,
    terms: &[Term],
    defs: &[Source],
) -> Result<(), AllocError>
    ensures { OnOk result (flows.new.items ≡ flows.old.items ++ flows_of (variables_made label.now (params_of (node_tree node.now)) terms.now (map def_of defs.now))) }
{
    let params = params(alloc, node)?;
    push_flows(alloc, flows, label, params.as_slice(), terms, defs)
}
