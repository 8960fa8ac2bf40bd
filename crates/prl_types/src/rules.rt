//! The rules of a program, made and met in their order.

ghost use Rattle.std.specs.Prelude.{◌≡◌, ◌++◌, ◌∷◌, [], map, IfOk, OnOk};
ghost use Rattle.prl_ast.specs.Trees.{tree_of, root_of, equation_tree, node_tree, program_tree};
ghost use Rattle.prl_names.specs.ExprLists.{all_trees};
ghost use Rattle.prl_types.specs.code.Contexts.{owned_of};
ghost use Rattle.prl_types.specs.Flows.{flows_of, root_flows, placed, placed_flows};
ghost use Rattle.prl_types.specs.code.Segments.{listed, terms_in, flows_in};
ghost use Rattle.prl_types.specs.Parameters.{count_of};
ghost use Rattle.prl_types.specs.Rules.{declared_rules, constant_rule, constant_rules, argument_rules, rules_in, root_rules, all_rules, left_rules, equations_rules, nodes_rules, rules_of};

use crate::contexts::{Context, Parameter};
use crate::segments::{Flows, Segment, add_flows, after, only, operand, operated, terms};
use crate::signatures::Signatures;
use prl_ast::{Base, Equation, Expr, Node, Placed, PlacedOp};
use prl_base::Op;
use prl_terms::{Met, Rule, Term};
use std::alloc::{AllocError, Global};

/// Adds the rules of the declared types.
fn add_declared(rules: &mut Met, parameters: &[Parameter<'_>]) -> Result<(), AllocError>
    ensures count { OnOk result (rules.new.count ≡ rules.old.count) }
    ensures rules { OnOk result (rules.new.rules ≡ rules.old.rules ++ declared_rules 0 (map owned_of parameters.now)) }
{
    for (k, parameter) in parameters.iter().enumerate() {
        if let Some(ty) = parameter.param.ty {
            rules.add(Rule {
                at: parameter.param.at.at,
                wanted: Term::Known(ty),
                found: Term::Parameter(k),
            })?;
        }
    }
    Ok(())
}

/// Adds the rule of an operator of a flow of this type.
fn add_constant(rules: &mut Met, of: Term, operator: PlacedOp) -> Result<(), AllocError>
    ensures count { OnOk result (rules.new.count ≡ rules.old.count) }
    ensures rules { OnOk result (rules.new.rules ≡ rules.old.rules ++ constant_rule of operator.at.at operator.op) }
{
    match operator.op {
        Op::Fby(value) | Op::Cons(value) => {
            rules.add(Rule {
                at: operator.at.at,
                wanted: of,
                found: Term::Known(value.ty()),
            })?;
            Ok(())
        }
        Op::Tail | Op::Up(_) | Op::Down(_) | Op::Shift(_) => Ok(()),
    }
}

/// Adds the rules of prefixes, the innermost first.
fn add_constants(rules: &mut Met, of: Term, prefixes: &[PlacedOp]) -> Result<(), AllocError>
    ensures count { OnOk result (rules.new.count ≡ rules.old.count) }
    ensures rules { OnOk result (rules.new.rules ≡ rules.old.rules ++ constant_rules of prefixes.now) }
{
    let mut k = prefixes.len();
    while k > 0 {
        k -= 1;
        add_constant(rules, of, prefixes[k])?;
    }
    Ok(())
}

/// Adds the rules of as many of these inputs as one part of the arguments gives.
fn add_given(rules: &mut Met, inputs: &[Term], at: u32, terms: &[Term]) -> Result<(), AllocError>
    ensures count { OnOk result (rules.new.count ≡ rules.old.count) }
    ensures rules { OnOk result (rules.new.rules ≡ rules.old.rules ++ argument_rules inputs.now (placed at terms.now)) }
{
    let mut k = 0;
    while k < inputs.len() && k < terms.len() {
        rules.add(Rule {
            at,
            wanted: inputs[k],
            found: terms[k],
        })?;
        k += 1;
    }
    Ok(())
}

fn add_segment(rules: &mut Met, inputs: &[Term], segment: &Segment<'_>) -> Result<(), AllocError>
    ensures count { OnOk result (rules.new.count ≡ rules.old.count) }
    ensures rules { OnOk result (rules.new.rules ≡ rules.old.rules ++ argument_rules inputs.now (placed segment.now.at (listed segment.now.flows))) }
{
    match segment.flows {
        Flows::One(term) => add_given(rules, inputs, segment.at, &[term]),
        Flows::All(terms) => add_given(rules, inputs, segment.at, terms),
    }
}

/// Adds the rules of the arguments.
fn add_arguments(
    rules: &mut Met,
    inputs: &[Term],
    segments: &[Segment<'_>],
) -> Result<(), AllocError>
    ensures count { OnOk result (rules.new.count ≡ rules.old.count) }
    ensures rules { OnOk result (rules.new.rules ≡ rules.old.rules ++ argument_rules inputs.now (flows_in segments.now)) }
{
    let mut rest = inputs;
    for segment in segments {
        add_segment(rules, rest, segment)?;
        rest = after(rest, segment.flows.len());
    }
    Ok(())
}

/// The flows of an expression of the node. Adds its rules, its parts before itself.
#[cycle(rules)]
fn expression<'s>(
    alloc: Global,
    context: &'s Signatures<'_, '_, '_>,
    node: usize,
    expr: &Expr,
    rules: &mut Met,
) -> Result<Vec<Segment<'s>>, AllocError>
    ensures flows { IfOk result (λ list. terms_in list.items ≡ flows_of (program_tree context.now) node (tree_of expr.now)) }
    ensures count { OnOk result (rules.new.count ≡ rules.old.count) }
    ensures rules { OnOk result (rules.new.rules ≡ rules.old.rules ++ rules_in (program_tree context.now) node (tree_of expr.now)) }
{
    let flows = base(alloc, context, node, expr.at.at, &expr.base, rules)?;
    add_constants(rules, operand(flows.as_slice()), expr.pre.as_slice())?;
    operated(alloc, expr, flows)
}

/// The flows of what operators are applied to, which stands at the byte.
#[cycle(rules)]
fn base<'s>(
    alloc: Global,
    context: &'s Signatures<'_, '_, '_>,
    node: usize,
    at: u32,
    base: &Base,
    rules: &mut Met,
) -> Result<Vec<Segment<'s>>, AllocError>
    ensures flows { IfOk result (λ list. terms_in list.items ≡ root_flows (program_tree context.now) node (root_of base.now)) }
    ensures count { OnOk result (rules.new.count ≡ rules.old.count) }
    ensures rules { OnOk result (rules.new.rules ≡ rules.old.rules ++ root_rules (program_tree context.now) node (root_of base.now)) }
{
    match base {
        Base::Const(value) => only(alloc, at, Flows::One(Term::Known(value.ty()))),
        Base::Var(name) => only(alloc, at, Flows::One(context.named(node, name.bytes()))),
        Base::Apply { name, args, .. } => {
            let flows = parts(alloc, context, node, args.as_slice(), rules)?;
            let callee = context.callee(name.bytes());
            add_arguments(rules, context.inputs(callee), flows.as_slice())?;
            let outputs = only(alloc, at, Flows::All(context.outputs(callee)))?;
            Ok(outputs)
        }
        Base::Group(exprs) => {
            let flows = parts(alloc, context, node, exprs.as_slice(), rules)?;
            Ok(flows)
        }
    }
}

/// The flows of expressions, each at the byte of its expression.
#[cycle(rules)]
fn parts<'s>(
    alloc: Global,
    context: &'s Signatures<'_, '_, '_>,
    node: usize,
    exprs: &[Expr],
    rules: &mut Met,
) -> Result<Vec<Segment<'s>>, AllocError>
    ensures flows { IfOk result (λ list. flows_in list.items ≡ placed_flows (program_tree context.now) node (all_trees exprs.now)) }
    ensures count { OnOk result (rules.new.count ≡ rules.old.count) }
    ensures rules { OnOk result (rules.new.rules ≡ rules.old.rules ++ all_rules (program_tree context.now) node (all_trees exprs.now)) }
{
    let mut list = Vec::new(alloc);
    for expr in exprs {
        let flows = expression(alloc, context, node, expr, rules)?;
        add_flows(&mut list, expr.at.at, flows.as_slice())?;
    }
    Ok(list)
}

/// Adds the rules of the left names.
fn add_lefts(
    rules: &mut Met,
    context: &Signatures<'_, '_, '_>,
    node: usize,
    lefts: &[Placed],
    flows: &[Term],
) -> Result<(), AllocError>
    ensures count { OnOk result (rules.new.count ≡ rules.old.count) }
    ensures rules { OnOk result (rules.new.rules ≡ rules.old.rules ++ left_rules (program_tree context.now) node lefts.now flows.now) }
{
    let mut k = 0;
    while k < lefts.len() && k < flows.len() {
        rules.add(Rule {
            at: lefts[k].at.at,
            wanted: context.named(node, lefts[k].name.bytes()),
            found: flows[k],
        })?;
        k += 1;
    }
    Ok(())
}

/// The types of the flows of a right side. Adds its rules.
fn right_terms(
    alloc: Global,
    rules: &mut Met,
    context: &Signatures<'_, '_, '_>,
    node: usize,
    right: &Expr,
) -> Result<Vec<Term>, AllocError>
    ensures flows { IfOk result (λ terms. terms.items ≡ flows_of (program_tree context.now) node (tree_of right.now)) }
    ensures count { OnOk result (rules.new.count ≡ rules.old.count) }
    ensures rules { OnOk result (rules.new.rules ≡ rules.old.rules ++ rules_in (program_tree context.now) node (tree_of right.now)) }
{
    let segments = expression(alloc, context, node, right, rules)?;
    terms(alloc, segments.as_slice())
}

fn add_equations(
    alloc: Global,
    rules: &mut Met,
    context: &Signatures<'_, '_, '_>,
    node: usize,
    equations: &[Equation],
) -> Result<(), AllocError>
    ensures count { OnOk result (rules.new.count ≡ rules.old.count) }
    ensures rules { OnOk result (rules.new.rules ≡ rules.old.rules ++ equations_rules (program_tree context.now) node (map equation_tree equations.now)) }
{
    for equation in equations {
        let flows = right_terms(alloc, rules, context, node, &equation.right)?;
        add_lefts(
            rules,
            context,
            node,
            equation.lefts.as_slice(),
            flows.as_slice(),
        )?;
    }
    Ok(())
}

fn add_nodes(
    alloc: Global,
    rules: &mut Met,
    context: &Signatures<'_, '_, '_>,
    nodes: &[Node],
) -> Result<(), AllocError>
    ensures count { OnOk result (rules.new.count ≡ rules.old.count) }
    ensures rules { OnOk result (rules.new.rules ≡ rules.old.rules ++ nodes_rules (program_tree context.now) 0 (map node_tree nodes.now)) }
{
    for (k, node) in nodes.iter().enumerate() {
        add_equations(alloc, rules, context, k, node.eqs.as_slice())?;
    }
    Ok(())
}

/// Adds the rules of all equations.
fn add_all(alloc: Global, rules: &mut Met, context: &Context<'_, '_>) -> Result<(), AllocError>
    ensures count { OnOk result (rules.new.count ≡ rules.old.count) }
    ensures rules { OnOk result (rules.new.rules ≡ rules.old.rules ++ nodes_rules (program_tree context.now) 0 (program_tree context.now).nodes) }
{
    let signatures = Signatures::new(alloc, context)?;
    add_nodes(
        alloc,
        rules,
        &signatures,
        context.program().nodes.as_slice(),
    )
}

/// The rules of the program, each met as it is made.
#[tactic(auto, unfolding(crate::specs::Rules::rules_of))]
pub fn rules(alloc: Global, context: &Context<'_, '_>) -> Result<Met, AllocError>
    ensures count { IfOk result (λ met. met.count ≡ count_of (program_tree context.now)) }
    ensures rules { IfOk result (λ met. met.rules ≡ rules_of (program_tree context.now)) }
{
    let mut list = Met::new(alloc, context.parameters().len())?;
    add_declared(&mut list, context.parameters())?;
    add_all(alloc, &mut list, context)?;
    Ok(list)
}
