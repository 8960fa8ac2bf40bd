//! Runs of applications: the steps of their bodies, one after another.

ghost use Rattle.std.specs.Prelude.{◌≡◌, ◌<◌, ◌^◌, length, slice_index_or, IfOk};
ghost use Rattle.prl_causal.specs.Tables.{argument_values, nothing, table_of};
ghost use Rattle.prl_evaluation.specs.code.Runs.{HasBodyNamed, HasStepped, HaveArguments, IsNew, MayStep};

use crate::operators::value_in;
use crate::tables::Values;
use prl_base::Value;
use prl_body::{Bodies, Body, Machine};
use prl_flow::{App, Arg};
use std::alloc::{AllocError, Global};

/// An application's machine, and the outputs of its last step.
#[derive(Drop)]
pub(crate) struct Run<'a> {
    pub(crate) body: &'a Body,
    pub(crate) machine: Machine,
    /// Where a step reads the arguments.
    pub(crate) inputs: Vec<Value>,
    pub(crate) outputs: Vec<Value>,
    /// How many steps the machine has made.
    pub(crate) steps: usize,
}

/// Writes the values of the arguments' instance `n`.
fn read_arguments(args: &[Arg], flows: &[Values<'_>], n: usize, inputs: &mut [Value])
    requires number { length inputs.old ≡ length args.now }
    requires there { HaveArguments flows.now args.now n }
    ensures { inputs.new ≡ argument_values (table_of flows.now) args.now n }
{
    for (k, arg) in args.iter().enumerate() {
        inputs[k] = value_in(flows, arg.flow, n);
    }
}

/// One step on the arguments' instance `n`.
fn step(run: &mut Run<'_>, args: &[Arg], flows: &[Values<'_>], n: usize)
    requires there { HaveArguments flows.now args.now n }
    requires ready { MayStep run.old args.now (argument_values (table_of flows.now) args.now n) }
    requires few { run.old.steps < 2 ^ 63 }
    ensures { HasStepped run.old run.new (argument_values (table_of flows.now) args.now n) }
{
    read_arguments(args, flows, n, &mut run.inputs);
    run.machine.step(run.body, &run.inputs, &mut run.outputs);
    run.steps += 1;
}

/// Makes the run's next step on the arguments' instance `n`, where it has made `n` steps.
fn catch_up(run: &mut Run<'_>, args: &[Arg], flows: &[Values<'_>], n: usize)
    requires there { run.old.steps ≡ n → HaveArguments flows.now args.now n }
    requires ready { run.old.steps ≡ n → MayStep run.old args.now (argument_values (table_of flows.now) args.now n) }
    requires few { n < 2 ^ 63 }
    ensures stepped { run.old.steps ≡ n → HasStepped run.old run.new (argument_values (table_of flows.now) args.now n) }
    ensures kept { (run.old.steps ≡ n → ⊥) → run.new ≡ run.old }
    ensures written { length run.new.outputs.items ≡ length run.old.outputs.items }
{
    if run.steps == n {
        step(run, args, flows, n);
    }
}

/// The value of an output's instance `n`: the run makes its next step where it has made `n`
/// steps.
pub(crate) fn output_value(
    run: &mut Run<'_>,
    args: &[Arg],
    flows: &[Values<'_>],
    n: usize,
    out: usize,
) -> Value
    requires output { out < length run.old.outputs.items }
    requires there { run.old.steps ≡ n → HaveArguments flows.now args.now n }
    requires ready { run.old.steps ≡ n → MayStep run.old args.now (argument_values (table_of flows.now) args.now n) }
    requires few { n < 2 ^ 63 }
    ensures stepped { run.old.steps ≡ n → HasStepped run.old run.new (argument_values (table_of flows.now) args.now n) }
    ensures kept { (run.old.steps ≡ n → ⊥) → run.new ≡ run.old }
    ensures value { result ≡ slice_index_or run.new.outputs.items out nothing }
{
    catch_up(run, args, flows, n);
    run.outputs.as_slice()[out]
}

/// The run of an application before its first step.
pub(crate) fn new_run<'a>(
    alloc: Global,
    app: &App,
    bodies: &'a Bodies,
) -> Result<Run<'a>, AllocError>
    requires { HasBodyNamed bodies.now app.now }
    ensures { IfOk result (IsNew bodies.now app.now) }
{
    let Some(body) = bodies.of(&app.name) else {
        unreachable!()
    };
    let parts = body.parts();
    Ok(Run {
        body,
        machine: Machine::new(alloc, body)?,
        inputs: vec![in alloc; Value::Int(0); app.args.len()]?,
        outputs: vec![in alloc; Value::Int(0); app.outs.len()]?,
        steps: 0,
    })
}
