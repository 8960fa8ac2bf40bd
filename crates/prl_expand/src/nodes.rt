//! Nodes that are entered, and their expressions.

ghost use Rattle.std.specs.Prelude.{◌≡◌, ◌≤◌, ◌<◌, ◌+◌, ◌++◌, ◌∷◌, [], ℕ, List, Some, false, true, length, map, slice_get, IfOk, IfErr, OnOk};
ghost use Rattle.std.specs.List.{AllByRecursion, range_with_len};
ghost use Rattle.prl_base.specs.Values.{type_of};
ghost use Rattle.prl_ast.specs.Trees.{const, equation_tree, node_tree, program_tree, root_of, tree_of};
ghost use Rattle.prl_ast.specs.declared.declarations.Port.{Port};
ghost use Rattle.prl_names.specs.Vocabulary.{applies, callee_of, params_of};
ghost use Rattle.prl_types.specs.Flows as types;
ghost use Rattle.prl_types.specs.Vocabulary.{first_of};
ghost use Rattle.prl_causal.specs.Annotations.{flows_in, part_flows, core_flows, right_flows};
ghost use Rattle.prl_causal.specs.Asked.{given, last_of, outputs_of};
ghost use Rattle.prl_causal.specs.Texts.{node_at};
ghost use Rattle.prl_expand.specs.Flats as flats;
ghost use Rattle.prl_expand.specs.Flats.{constant_flows, copies, entered_flows, equated, flow_no, output_flows, placed};
ghost use Rattle.prl_expand.specs.code.Adding.{Adds};
ghost use Rattle.prl_expand.specs.code.Limits.{IsFew, IsFewBefore, IsPast};
ghost use Rattle.prl_expand.specs.code.Made.{IsInside, a_call, a_node, a_part, all_resolved, called_apps, called_flows, called_given, first_type, head_of, operated_flows, operated_given, operated_types, the_rights, types_of};
ghost use Rattle.prl_expand.specs.code.Numbering.{past_core, past_entered, past_part, past_rights};
ghost use Rattle.prl_expand.specs.code.Terms.{arg_of, flow_of, flows_of};
ghost use Rattle.prl_expand.specs.code.Variables.{def_of, pairs_of, variables_made};
ghost use Rattle.prl_expand.specs.code.Standings.{AreMade, IsAt};
ghost use Rattle.prl_expand.specs.code.Acts.{act_of, acts_of};
ghost use Rattle.prl_expand.specs.code.Steps.{after, end_apps, end_flows, end_given, end_next, end_types, ended_apps, ended_flows, ended_given, ended_next, given_around, given_of, nothing, site, start, stepped};
ghost use Rattle.prl_expand.specs.code.Within.{ActFits, CallFits, EquationsFit, IsSound, MayApply, RootFits, TreeFits};

use crate::counts::{ExpandFault, Next, take_app, take_flows, take_node};
use crate::flows::{push_app, push_constant, push_operators, push_outputs};
use crate::steps::{Step, steps};
use crate::terms::{Term, enclose, innermost, one_term, outputs, placed, reversed, variable};
use crate::variables::{
    Pair, Source, copies_of, label_of_node, outs_of, push_pairs, push_variables, sources_of,
    variables,
};
use prl_ast::{Base, Equation, Expr, Import, Node, Program};
use prl_base::{Label, Name, Span, Ty, Value};
use prl_flow::{App, Flow};
use prl_names::{Callee, Names};
use prl_types::Typed;
use std::alloc::{AllocError, Global};

/// What is made.
#[derive(Drop)]
pub(crate) struct Made {
    pub flows: Vec<Flow>,
    pub apps: Vec<App>,
    pub next: Next,
}

/// The number of the flow that operators stand on, the first of these.
fn first_flow(terms: &[Term]) -> Option<u32>
    ensures { result ≡ head_of (map flow_of terms.now) }
{
    match terms.first() {
        Some(term) => Some(term.flow),
        None => None,
    }
}

/// Its type.
fn first_type(terms: &[Term]) -> Ty
    ensures { result ≡ first_type (types_of terms.now) }
{
    match terms.first() {
        Some(term) => term.ty,
        None => Ty::Int,
    }
}

/// Whether the expression has an operator of its own.
fn has_operators(expr: &Expr) -> bool
    ensures some { result ≡ true → 0 < length expr.now.post + length expr.now.pre }
    ensures none { result ≡ false → (length expr.now.pre ≡ 0) × (length expr.now.post ≡ 0) }
{
    if expr.pre.as_slice().len() > 0 {
        return true;
    }
    expr.post.as_slice().len() > 0
}

/// The number of the flow that the prefixes stand on: the last of so many postfixes over the first flow.
fn inner_operand(first: Option<u32>, count: usize, before: u32) -> Option<u32>
    requires { count ≤ before }
    ensures { (of : List ℕ) (f : ℕ) → first ≡ head_of of → before ≡ f + count → result ≡ head_of (last_of of (range_with_len f count)) }
{
    if count == 0 { first } else { Some(before - 1) }
}

/// The flows after the operators, which stand on the flows of these terms.
#[inline(never)]
fn operated(
    alloc: Global,
    expr: &Expr,
    of: Vec<Term>,
    made: &mut Made,
) -> Result<Vec<Term>, ExpandFault>
    requires { IsFew made.old.next }
    ensures args { IfOk result (λ terms. map arg_of terms.items ≡ map (λ i. record { flow = flow_no i; at = expr.now.at }) (operated_given made.old.next.flow expr.now.pre expr.now.post (map flow_of of.items))) }
    ensures types { IfOk result (λ terms. types_of terms.items ≡ operated_types expr.now.pre expr.now.post (types_of of.items)) }
    ensures made { OnOk result (Adds made.old made.new (operated_flows made.old.next.flow expr.now.pre expr.now.post (first_type (types_of of.items)) (map flow_of of.items)) [] (record { flow = (made.old.next.flow + length expr.now.post) + length expr.now.pre; app = made.old.next.app; node = made.old.next.node })) }
    ensures limit { IfErr result (IsPast ((made.old.next.flow + length expr.now.post) + length expr.now.pre)) }
{
    if !has_operators(expr) {
        return Ok(placed(alloc, of.as_slice(), expr.at)?);
    }
    let post = expr.post.as_slice();
    let pre = expr.pre.as_slice();
    let ty = first_type(of.as_slice());
    let first = first_flow(of.as_slice());
    let after = take_flows(&mut made.next, post.len())?;
    let before = take_flows(&mut made.next, pre.len())?;
    let inner = reversed(alloc, pre)?;
    let middle = inner_operand(first, post.len(), before);
    push_operators(alloc, &mut made.flows, post, ty, after, first)?;
    push_operators(alloc, &mut made.flows, inner.as_slice(), ty, before, middle)?;
    let flow = made.next.flow - 1;
    let at = expr.at;
    Ok(one_term(alloc, Term { flow, ty, at })?)
}

/// The flow of a constant.
#[inline(never)]
fn constant(
    alloc: Global,
    value: Value,
    at: Span,
    made: &mut Made,
) -> Result<Vec<Term>, ExpandFault>
    requires { IsFew made.old.next }
    ensures given { IfOk result (λ terms. map flow_of terms.items ≡ made.old.next.flow ∷ []) }
    ensures types { IfOk result (λ terms. types_of terms.items ≡ type_of value ∷ []) }
    ensures made { OnOk result (Adds made.old made.new (constant_flows (const value) made.old.next.flow at) [] (record { flow = made.old.next.flow + 1; app = made.old.next.app; node = made.old.next.node })) }
    ensures limit { IfErr result (IsPast (made.old.next.flow + 1)) }
{
    let flow = take_flows(&mut made.next, 1)?;
    let ty = value.ty();
    push_constant(alloc, &mut made.flows, flow, value, at)?;
    Ok(one_term(alloc, Term { flow, ty, at })?)
}

/// The node of this index.
pub(crate) fn node_at(program: &Program, k: usize) -> &Node
    requires { k < length (program_tree program.now).nodes }
    ensures { slice_get (program_tree program.now).nodes k ≡ Some (node_tree result.now) }
{
    &program.nodes.as_slice()[k]
}

/// The import of this index.
fn import_at(program: &Program, k: usize) -> &Import
    requires { k < length program.now.imports }
    ensures { slice_get (program_tree program.now).imports k ≡ Some result.now }
{
    &program.imports.as_slice()[k]
}

/// The outputs of an application of an import, after its arguments.
fn import(
    alloc: Global,
    name: &Name,
    import: &Import,
    args: Vec<Term>,
    at: Span,
    made: &mut Made,
) -> Result<Vec<Term>, ExpandFault>
    requires few { IsFew made.old.next }
    requires some { 1 ≤ length import.now.outs }
    ensures given { IfOk result (λ terms. map flow_of terms.items ≡ range_with_len made.old.next.flow (length import.now.outs)) }
    ensures types { IfOk result (λ terms. types_of terms.items ≡ map (λ (q : Port). q.ty) import.now.outs) }
    ensures made { OnOk result (Adds made.old made.new (output_flows made.old.next.app 0 at import.now.outs (range_with_len made.old.next.flow (length import.now.outs))) (record { name = name.now; wcet = import.now.wcet; args = map arg_of args.items; outs = map flow_no (range_with_len made.old.next.flow (length import.now.outs)); at = at } ∷ []) (record { flow = made.old.next.flow + length import.now.outs; app = made.old.next.app + 1; node = made.old.next.node })) }
    ensures limit { IfErr result (IsPast (made.old.next.flow + length import.now.outs)) }
{
    let ports = import.outs.as_slice();
    let first = take_flows(&mut made.next, ports.len())?;
    let app = take_app(&mut made.next);
    push_outputs(alloc, &mut made.flows, ports, app, first, at)?;
    let outs = outputs(alloc, ports, first, at)?;
    push_app(
        alloc,
        &mut made.apps,
        name,
        import.wcet,
        args.as_slice(),
        outs.as_slice(),
        at,
    )?;
    Ok(outs)
}

/// The flows of what operators are applied to, of whose parts these are the flows.
#[cycle(expansion)]
fn base(
    alloc: Global,
    typed: &Typed<'_>,
    names: &Names<'_>,
    levels: u32,
    k: u32,
    env: &[Term],
    base: &Base,
    place: Span,
    parts: Vec<Term>,
    made: &mut Made,
) -> Result<Vec<Term>, ExpandFault>
    requires inside { IsInside names.now typed.now.program typed.now.types k env.now }
    requires fits { RootFits (program_tree names.now) levels k (root_of base.now) }
    requires few { IsFew made.old.next }
    ensures given { IfOk result (λ terms. map flow_of terms.items ≡ end_given (site names.now typed.now.types levels k env.now) (root_of base.now) (map flow_of parts.items) made.old.next) }
    ensures types { IfOk result (λ terms. types_of terms.items ≡ end_types (site names.now typed.now.types levels k env.now) (root_of base.now) (types_of parts.items)) }
    ensures made { OnOk result (Adds made.old made.new (end_flows (site names.now typed.now.types levels k env.now) (root_of base.now) place (map flow_of parts.items) made.old.next) (end_apps (site names.now typed.now.types levels k env.now) (root_of base.now) (map arg_of parts.items) made.old.next) (end_next (site names.now typed.now.types levels k env.now) (root_of base.now) made.old.next)) }
    ensures limit { IfErr result (IsPast (end_next (site names.now typed.now.types levels k env.now) (root_of base.now) made.old.next).flow) }
{
    match base {
        Base::Const(value) => constant(alloc, *value, place, made),
        Base::Var(name) => {
            let index = names.param(k as usize, name.bytes());
            Ok(one_term(alloc, variable(env, index))?)
        }
        Base::Apply { name, at, args: _ } => {
            apply(alloc, typed, names, levels, name, *at, parts, made)
        }
        Base::Group(_) => Ok(parts),
    }
}

/// The flows of an expression of node `k`, of whose parts these are the flows.
#[cycle(expansion)]
fn closed(
    alloc: Global,
    typed: &Typed<'_>,
    names: &Names<'_>,
    levels: u32,
    k: u32,
    env: &[Term],
    expr: &Expr,
    parts: Vec<Term>,
    made: &mut Made,
) -> Result<Vec<Term>, ExpandFault>
    requires inside { IsInside names.now typed.now.program typed.now.types k env.now }
    requires fits { TreeFits (program_tree names.now) levels k (tree_of expr.now) }
    requires few { IsFew made.old.next }
    ensures given { IfOk result (λ terms. given_of terms.items ≡ ended_given (site names.now typed.now.types levels k env.now) (tree_of expr.now) (given_of parts.items) made.old.next) }
    ensures made { OnOk result (Adds made.old made.new (ended_flows (site names.now typed.now.types levels k env.now) (tree_of expr.now) (given_of parts.items) made.old.next) (ended_apps (site names.now typed.now.types levels k env.now) (tree_of expr.now) (given_of parts.items) made.old.next) (ended_next (site names.now typed.now.types levels k env.now) (tree_of expr.now) made.old.next)) }
    ensures limit { IfErr result (IsPast (ended_next (site names.now typed.now.types levels k env.now) (tree_of expr.now) made.old.next).flow) }
{
    let of = base(
        alloc, typed, names, levels, k, env, &expr.base, expr.at, parts, made,
    )?;
    operated(alloc, expr, of, made)
}

/// Takes a step: the list that is under way after it. The lists around it stand in `around`, the outermost first.
#[cycle(expansion)]
fn advance(
    alloc: Global,
    typed: &Typed<'_>,
    names: &Names<'_>,
    levels: u32,
    k: u32,
    env: &[Term],
    step: &Step<'_>,
    list: Vec<Term>,
    around: &mut Vec<Vec<Term>>,
    made: &mut Made,
) -> Result<Vec<Term>, ExpandFault>
    requires inside { IsInside names.now typed.now.program typed.now.types k env.now }
    requires fits { ActFits (program_tree names.now) levels k (act_of step.now) }
    requires few { IsFew made.old.next }
    ensures at { IfOk result (λ terms. IsAt made.old (stepped (site names.now typed.now.types levels k env.now) (act_of step.now) (start (given_of list.items) (given_around around.old.items) made.old.next)) terms.items around.new.items made.new) }
    ensures limit { IfErr result (IsPast (stepped (site names.now typed.now.types levels k env.now) (act_of step.now) (start (given_of list.items) (given_around around.old.items) made.old.next)).next.flow) }
{
    match step {
        Step::Open => {
            enclose(around, list)?;
            Ok(Vec::new(alloc))
        }
        Step::Close(expr) => {
            let mut terms = closed(alloc, typed, names, levels, k, env, expr, list, made)?;
            let mut outer = innermost(alloc, around);
            outer.append(&mut terms)?;
            Ok(outer)
        }
    }
}

/// Takes all steps through an expression of node `k`: its flows.
#[cycle(expansion)]
fn run(
    alloc: Global,
    typed: &Typed<'_>,
    names: &Names<'_>,
    levels: u32,
    k: u32,
    env: &[Term],
    steps: &[Step<'_>],
    made: &mut Made,
) -> Result<Vec<Term>, ExpandFault>
    requires inside { IsInside names.now typed.now.program typed.now.types k env.now }
    requires fits { AllByRecursion (ActFits (program_tree names.now) levels k) (acts_of steps.now) }
    requires few { IsFew made.old.next }
    ensures at { IfOk result (λ terms. AreMade made.old (after (site names.now typed.now.types levels k env.now) (acts_of steps.now) (start nothing [] made.old.next)) terms.items made.new) }
    ensures limit { IfErr result (IsPast (after (site names.now typed.now.types levels k env.now) (acts_of steps.now) (start nothing [] made.old.next)).next.flow) }
{
    let mut around = Vec::new(alloc);
    let mut list = Vec::new(alloc);
    for step in steps {
        list = advance(
            alloc,
            typed,
            names,
            levels,
            k,
            env,
            step,
            list,
            &mut around,
            made,
        )?;
    }
    Ok(list)
}

/// The flows of an expression of node `k`. Its parts are made before itself.
#[cycle(expansion)]
fn expression(
    alloc: Global,
    typed: &Typed<'_>,
    names: &Names<'_>,
    levels: u32,
    k: u32,
    env: &[Term],
    expr: &Expr,
    made: &mut Made,
) -> Result<Vec<Term>, ExpandFault>
    requires inside { IsInside names.now typed.now.program typed.now.types k env.now }
    requires fits { TreeFits (program_tree names.now) levels k (tree_of expr.now) }
    requires few { IsFew made.old.next }
    ensures args { IfOk result (λ terms. map arg_of terms.items ≡ placed (tree_of expr.now) (given (node_at (program_tree names.now) k) (map flow_of env.now) (tree_of expr.now) (a_part (program_tree names.now) levels (tree_of expr.now) made.old.next))) }
    ensures made { OnOk result (Adds made.old made.new (flats.part_flows (program_tree names.now) typed.now.types k (node_at (program_tree names.now) k) (map flow_of env.now) (tree_of expr.now) (a_part (program_tree names.now) levels (tree_of expr.now) made.old.next)) (flats.part_apps (program_tree names.now) (node_at (program_tree names.now) k) (map flow_of env.now) (tree_of expr.now) (a_part (program_tree names.now) levels (tree_of expr.now) made.old.next)) (past_part made.old.next (a_part (program_tree names.now) levels (tree_of expr.now) made.old.next))) }
    ensures limit { IfErr result (IsPast (made.old.next.flow + length (part_flows (a_part (program_tree names.now) levels (tree_of expr.now) made.old.next)))) }
{
    let steps = steps(alloc, expr)?;
    run(alloc, typed, names, levels, k, env, steps.as_slice(), made)
}

/// The flows that an application gives, after its arguments.
#[cycle(expansion)]
#[inline(never)]
fn apply(
    alloc: Global,
    typed: &Typed<'_>,
    names: &Names<'_>,
    levels: u32,
    name: &Name,
    at: Span,
    args: Vec<Term>,
    made: &mut Made,
) -> Result<Vec<Term>, ExpandFault>
    requires names { names.now ≡ typed.now.program }
    requires sound { IsSound (program_tree names.now) }
    requires fits { CallFits (program_tree names.now) levels name.now }
    requires few { IsFew made.old.next }
    ensures given { IfOk result (λ terms. map flow_of terms.items ≡ called_given (callee_of (program_tree names.now) name.now) (a_call (program_tree names.now) levels (callee_of (program_tree names.now) name.now) made.old.next)) }
    ensures types { IfOk result (λ terms. types_of terms.items ≡ all_resolved typed.now.types (types.outputs_of (program_tree names.now) (callee_of (program_tree names.now) name.now))) }
    ensures made { OnOk result (Adds made.old made.new (called_flows (program_tree names.now) typed.now.types (callee_of (program_tree names.now) name.now) name.now at (map flow_of args.items) (a_call (program_tree names.now) levels (callee_of (program_tree names.now) name.now) made.old.next)) (called_apps (program_tree names.now) (callee_of (program_tree names.now) name.now) name.now at (map arg_of args.items) (a_call (program_tree names.now) levels (callee_of (program_tree names.now) name.now) made.old.next)) (past_core made.old.next (a_call (program_tree names.now) levels (callee_of (program_tree names.now) name.now) made.old.next))) }
    ensures limit { IfErr result (IsPast (made.old.next.flow + length (core_flows (a_call (program_tree names.now) levels (callee_of (program_tree names.now) name.now) made.old.next)))) }
{
    match names.callee(name.bytes()) {
        Some(Callee::Import(k)) => {
            import(alloc, name, import_at(names.program(), k), args, at, made)
        }
        Some(Callee::Node(k)) => {
            let number = take_node(&mut made.next);
            let label = label_of_node(alloc, name, number)?;
            let sources = copies_of(alloc, args.as_slice())?;
            enter(alloc, typed, names, levels - 1, k, &label, sources, made)
        }
        None => unreachable!(),
    }
}

/// The flows that the left names of the equations of node `k` are given.
#[cycle(expansion)]
fn equations<'a>(
    alloc: Global,
    typed: &Typed<'_>,
    names: &Names<'_>,
    levels: u32,
    k: u32,
    env: &[Term],
    eqs: &'a [Equation],
    made: &mut Made,
) -> Result<Vec<Pair<'a>>, ExpandFault>
    requires inside { IsInside names.now typed.now.program typed.now.types k env.now }
    requires fits { EquationsFit (program_tree names.now) levels k (map equation_tree eqs.now) }
    requires few { IsFew made.old.next }
    ensures pairs { IfOk result (λ pairs. pairs_of pairs.items ≡ equated (node_at (program_tree names.now) k) (map flow_of env.now) (map equation_tree eqs.now) (the_rights (program_tree names.now) levels (map equation_tree eqs.now) made.old.next)) }
    ensures made { OnOk result (Adds made.old made.new (flats.right_flows (program_tree names.now) typed.now.types k (node_at (program_tree names.now) k) (map flow_of env.now) (map equation_tree eqs.now) (the_rights (program_tree names.now) levels (map equation_tree eqs.now) made.old.next)) (flats.right_apps (program_tree names.now) (node_at (program_tree names.now) k) (map flow_of env.now) (map equation_tree eqs.now) (the_rights (program_tree names.now) levels (map equation_tree eqs.now) made.old.next)) (past_rights made.old.next (the_rights (program_tree names.now) levels (map equation_tree eqs.now) made.old.next))) }
    ensures limit { IfErr result (IsPast (made.old.next.flow + length (right_flows (the_rights (program_tree names.now) levels (map equation_tree eqs.now) made.old.next)))) }
{
    let mut pairs = Vec::new(alloc);
    for equation in eqs {
        let terms = expression(alloc, typed, names, levels, k, env, &equation.right, made)?;
        push_pairs(&mut pairs, equation.lefts.as_slice(), terms.as_slice())?;
    }
    Ok(pairs)
}

/// Enters node `k`, whose inputs are defined so: its outputs.
#[cycle(expansion)]
pub(crate) fn enter(
    alloc: Global,
    typed: &Typed<'_>,
    names: &Names<'_>,
    levels: u32,
    k: usize,
    label: &Label,
    sources: Vec<Source>,
    made: &mut Made,
) -> Result<Vec<Term>, ExpandFault>
    requires names { names.now ≡ typed.now.program }
    requires sound { IsSound (program_tree names.now) }
    requires there { k < length (program_tree names.now).nodes }
    requires small { k < 256 }
    requires levels { MayApply (program_tree names.now) levels (λ j. applies (program_tree names.now) k j) }
    requires few { IsFewBefore made.old.next }
    ensures given { IfOk result (λ terms. map flow_of terms.items ≡ outputs_of (a_node (program_tree names.now) levels k made.old.next)) }
    ensures types { IfOk result (λ terms. types_of terms.items ≡ all_resolved typed.now.types (types.node_outputs (first_of (program_tree names.now) k) (slice_get (program_tree names.now).nodes k))) }
    ensures made { OnOk result (Adds made.old made.new (entered_flows (program_tree names.now) typed.now.types label.now k (map def_of sources.items) (a_node (program_tree names.now) levels k made.old.next)) (flats.entered_apps (program_tree names.now) k (a_node (program_tree names.now) levels k made.old.next)) (past_entered made.old.next (a_node (program_tree names.now) levels k made.old.next))) }
    ensures limit { IfErr result (IsPast (made.old.next.flow + length (flows_in (a_node (program_tree names.now) levels k made.old.next)))) }
{
    let node = node_at(names.program(), k);
    let number = k as u32;
    let first = made.next.flow;
    take_variables(&mut made.next, node)?;
    let env = variables(alloc, typed, number, node, first)?;
    let terms = env.as_slice();
    let mut inner = Made {
        flows: Vec::new(alloc),
        apps: Vec::new(alloc),
        next: made.next,
    };
    let eqs = node.eqs.as_slice();
    let pairs = equations(alloc, typed, names, levels, number, terms, eqs, &mut inner)?;
    push_node(
        alloc,
        label,
        node,
        terms,
        sources,
        pairs.as_slice(),
        inner,
        made,
    )?;
    Ok(outs_of(alloc, terms, node)?)
}

/// Appends the flows of the node's variables, of which the inputs have these sources, and then what was made within it.
fn push_node(
    alloc: Global,
    label: &Label,
    node: &Node,
    terms: &[Term],
    sources: Vec<Source>,
    pairs: &[Pair<'_>],
    inner: Made,
    made: &mut Made,
) -> Result<(), AllocError>
    ensures flows { OnOk result (made.new.flows.items ≡ (made.old.flows.items ++ flows_of (variables_made label.now (params_of (node_tree node.now)) terms.now (map def_of sources.items ++ copies (pairs_of pairs.now) (node.now.outs ++ node.now.locals)))) ++ inner.flows.items) }
    ensures apps { OnOk result (made.new.apps.items ≡ made.old.apps.items ++ inner.apps.items) }
    ensures next { OnOk result (made.new.next ≡ inner.next) }
{
    let defs = sources_of(sources, pairs, node)?;
    push_variables(alloc, &mut made.flows, label, node, terms, defs.as_slice())?;
    finish(made, inner)?;
    Ok(())
}

/// Takes numbers for the node's variables.
fn take_variables(next: &mut Next, node: &Node) -> Result<(), ExpandFault>
    requires { next.old.flow ≤ 4096 }
    ensures next { OnOk result (next.new ≡ record { flow = ((next.old.flow + length node.now.ins) + length node.now.outs) + length node.now.locals; app = next.old.app; node = next.old.node }) }
    ensures few { OnOk result (((next.old.flow + length node.now.ins) + length node.now.outs) + length node.now.locals ≤ 4096) }
    ensures limit { IfErr result (IsPast (((next.old.flow + length node.now.ins) + length node.now.outs) + length node.now.locals)) }
{
    take_flows(next, node.ins.len())?;
    take_flows(next, node.outs.len())?;
    take_flows(next, node.locals.len())?;
    Ok(())
}

/// Appends what was made within a node.
fn finish(made: &mut Made, inner: Made) -> Result<(), AllocError>
    ensures flows { OnOk result (made.new.flows.items ≡ made.old.flows.items ++ inner.flows.items) }
    ensures apps { OnOk result (made.new.apps.items ≡ made.old.apps.items ++ inner.apps.items) }
    ensures next { OnOk result (made.new.next ≡ inner.next) }
{
    let Made {
        mut flows,
        mut apps,
        next,
    } = inner;
    made.flows.append(&mut flows)?;
    made.apps.append(&mut apps)?;
    made.next = next;
    Ok(())
}
