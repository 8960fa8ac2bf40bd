//! The first parameter whose name is not among some names: an output without an equation, an input of main
//! without a sensor.

ghost use Rattle.std.specs.Prelude.{◌≡◌, ◌<◌, IfOk, length, slice_get};
ghost use Rattle.std.specs.Option.{option_copied, is_some};
ghost use Rattle.prl_ast.specs.Trees.{node_tree, program_tree};
ghost use Rattle.prl_names.specs.Checks.{device_names, without_device};
ghost use Rattle.prl_names.specs.Mentions.{all_placed};
ghost use Rattle.prl_names.specs.Repeats.{lefts_of};
ghost use Rattle.prl_names.specs.Tables.{found};
ghost use Rattle.prl_names.specs.Unknowns.{absent_by, absent_from, undefined_in, undefined_of};

use crate::mentions::{Mention, push_all};
use crate::tables::{Indices, found, indices, indices_of};
use prl_ast::{Device, Node, Param, Program};
use prl_base::Name;
use std::alloc::{AllocError, Global};

/// The first of the parameters whose name is not in the table.
fn absent<'n>(table: &Indices<'_>, params: &'n [Param]) -> Option<&'n Name>
    ensures { option_copied result ≡ absent_by (λ name. is_some (found table.now name)) params.now }
{
    for param in params {
        if found(table, param.name.bytes()).is_none() {
            return Some(&param.name);
        }
    }
    None
}

/// The left names of the equations of a node.
fn lefts(alloc: Global, node: &Node) -> Result<Vec<Mention<'_>>, AllocError>
    ensures { IfOk result (λ list. all_placed list.items ≡ lefts_of (node_tree node.now)) }
{
    let mut list = Vec::new(alloc);
    for equation in node.eqs.as_slice() {
        push_all(&mut list, equation.lefts.as_slice())?;
    }
    Ok(list)
}

/// The first output or local of the node without an equation.
fn undefined_in(alloc: Global, node: &Node) -> Result<Option<&Name>, AllocError>
    ensures { IfOk result (λ name. option_copied name ≡ undefined_in (node_tree node.now)) }
{
    let lefts = lefts(alloc, node)?;
    let table = indices(alloc, lefts.as_slice())?;
    match absent(&table, node.outs.as_slice()) {
        Some(name) => Ok(Some(name)),
        None => Ok(absent(&table, node.locals.as_slice())),
    }
}

/// The first output or local of a node without an equation.
#[tactic(auto, unfolding(crate::specs::Unknowns::undefined_of))]
pub fn undefined(alloc: Global, program: &Program) -> Result<Option<&Name>, AllocError>
    ensures { IfOk result (λ name. option_copied name ≡ undefined_of (program_tree program.now)) }
{
    for node in program.nodes.as_slice() {
        if let Some(name) = undefined_in(alloc, node)? {
            return Ok(Some(name));
        }
    }
    Ok(None)
}

/// The first of the parameters without a device of its name.
fn unlinked<'n>(
    alloc: Global,
    list: &[Device],
    params: &'n [Param],
) -> Result<Option<&'n Name>, AllocError>
    ensures { IfOk result (λ name. option_copied name ≡ absent_from (device_names list.now) params.now) }
{
    let table = indices_of(alloc, list)?;
    Ok(absent(&table, params))
}

/// The first input of the node without a sensor, or output without an actuator.
pub fn without_device<'n>(
    alloc: Global,
    program: &'n Program,
    node: usize,
) -> Result<Option<&'n Name>, AllocError>
    requires { node < length program.now.nodes }
    ensures { IfOk result (λ name. option_copied name ≡
        without_device (program_tree program.now) (slice_get (program_tree program.now).nodes node)) }
{
    let node = &program.nodes.as_slice()[node];
    match unlinked(alloc, program.sensors.as_slice(), node.ins.as_slice())? {
        Some(name) => Ok(Some(name)),
        None => unlinked(alloc, program.actuators.as_slice(), node.outs.as_slice()),
    }
}
