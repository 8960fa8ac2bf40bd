//! Flows without names: constants, operators and outputs of imports.

ghost use Rattle.std.specs.Prelude.{◌≡◌, ◌≤◌, ◌+◌, ◌++◌, ◌∷◌, [], length, map, IfOk, OnOk};
ghost use Rattle.prl_ast.specs.Trees.{const};
ghost use Rattle.prl_expand.specs.Flats.{constant_flows, made_flow, made_label};
ghost use Rattle.prl_expand.specs.code.Terms.{arg_of, flows_of, number_of, operators_over, outputs_made};

use crate::terms::{Term, arguments, numbers};
use prl_ast::{PlacedOp, Port};
use prl_base::{FlowNo, Label, Name, Seq, Span, Ty, Value, push_number};
use prl_flow::{App, Def, Flow};
use std::alloc::{AllocError, Global};

/// The label of a flow without a name: `$` and its number.
fn made_label(alloc: Global, i: u32) -> Result<Label, AllocError>
    ensures { IfOk result (λ label. label ≡ made_label i) }
{
    let mut text = vec![in alloc; b'$']?;
    push_number(&mut text, i as u64)?;
    Label::new(alloc, text.as_slice())
}

/// A flow without a name.
fn made_flow(alloc: Global, i: u32, ty: Ty, def: Def, at: Span) -> Result<Flow, AllocError>
    ensures { IfOk result (λ flow. (i, flow) ≡ made_flow i ty def at) }
{
    Ok(Flow {
        label: made_label(alloc, i)?,
        ty,
        def,
        rate: None,
        due: None,
        at,
    })
}

/// Appends the flows of operators, the innermost first, numbered from the first.
pub(crate) fn push_operators(
    alloc: Global,
    flows: &mut Vec<Flow>,
    ops: &[PlacedOp],
    ty: Ty,
    first: u32,
    of: Option<u32>,
) -> Result<(), AllocError>
    requires { first + length ops.now ≤ 4096 }
    ensures { OnOk result (flows.new.items ≡ flows.old.items ++ flows_of (operators_over ty ops.now first of)) }
{
    let mut of = match of {
        Some(of) => of,
        None => return Ok(()),
    };
    for (k, op) in ops.iter().enumerate() {
        let i = first + k as u32;
        let def = Def::Op {
            op: op.op,
            of: FlowNo(of),
        };
        flows.push(made_flow(alloc, i, ty, def, op.at)?)?;
        of = i;
    }
    Ok(())
}

/// Appends the flows of an application's outputs, numbered from the first.
pub(crate) fn push_outputs(
    alloc: Global,
    flows: &mut Vec<Flow>,
    ports: &[Port],
    app: u32,
    first: u32,
    at: Span,
) -> Result<(), AllocError>
    requires { first + length ports.now ≤ 4096 }
    ensures { OnOk result (flows.new.items ≡ flows.old.items ++ flows_of (outputs_made app 0 at ports.now first)) }
{
    for (k, port) in ports.iter().enumerate() {
        let out = k as u32;
        let def = Def::Apply { app, out };
        flows.push(made_flow(alloc, first + out, port.ty, def, at)?)?;
    }
    Ok(())
}

/// Appends the flow of a constant.
pub(crate) fn push_constant(
    alloc: Global,
    flows: &mut Vec<Flow>,
    i: u32,
    value: Value,
    at: Span,
) -> Result<(), AllocError>
    ensures { OnOk result (flows.new.items ≡ flows.old.items ++ flows_of (constant_flows (const value) i at)) }
{
    flows.push(made_flow(alloc, i, value.ty(), Def::Const(value), at)?)?;
    Ok(())
}

/// Appends an application of an import.
pub(crate) fn push_app(
    alloc: Global,
    apps: &mut Vec<App>,
    name: &Name,
    wcet: u32,
    args: &[Term],
    outs: &[Term],
    at: Span,
) -> Result<(), AllocError>
    ensures { OnOk result (apps.new.items ≡ apps.old.items ++ record { name = name.now; wcet = wcet; args = map arg_of args.now; outs = map number_of outs.now; at = at } ∷ []) }
{
    apps.push(App {
        name: name.copy(alloc)?,
        wcet,
        args: Seq::new(arguments(alloc, args)?),
        outs: Seq::new(numbers(alloc, outs)?),
        at,
    })?;
    Ok(())
}
