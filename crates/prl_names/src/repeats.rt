//! The first name of a program that is declared or defined a second time.

ghost use Rattle.std.specs.Prelude.{◌≡◌, ◌≤◌, ◌++◌, length, drop, take, IfOk, OnOk, map, filter, None};
ghost use Rattle.std.specs.Option.{option_map, is_some};
ghost use Rattle.prl_ast.specs.Trees.{node_tree, program_tree};
ghost use Rattle.prl_ast.specs.declared.declarations.Placed.{Placed};
ghost use Rattle.prl_names.specs.Lookups.{param_at};
ghost use Rattle.prl_names.specs.Mentions.{placed_of, placed_device, placed_param, all_placed};
ghost use Rattle.prl_names.specs.Repeats.{repeat_in, front_before, rest_from, merged, first_of, callee_space, earliest_repeat, lefts_of, definition_space, global_spaces, repeat_of};

use crate::lookups::Names;
use crate::mentions::{Mention, Spaced, mentions};
use prl_ast::{Device, Node, Placed, Program};
use std::alloc::{AllocError, Global};
use std::collections::BTreeMap;

/// The first of the names that stands before in the list.
fn repeat_in<'a>(alloc: Global, space: &[Mention<'a>]) -> Result<Option<Mention<'a>>, AllocError>
    ensures { IfOk result (λ repeat. option_map placed_of repeat ≡ repeat_in (all_placed space.now)) }
{
    let mut seen = BTreeMap::new(alloc);
    for (k, mention) in space.iter().enumerate() {
        let bytes = mention.name.bytes();
        if seen.contains_key(bytes) {
            return Ok(Some(*mention));
        }
        seen.insert(bytes, k)?;
    }
    Ok(None)
}

/// Which of the two stands before the other in the text.
fn first_of<'a>(a: Option<Mention<'a>>, b: Option<Mention<'a>>) -> Option<Mention<'a>>
    ensures { option_map placed_of result ≡ first_of (option_map placed_of a.entry) (option_map placed_of b.entry) }
{
    match (a, b) {
        (None, _) => b,
        (Some(_), None) => a,
        (Some(x), Some(y)) => if y.at.at < x.at.at { b } else { a },
    }
}

/// How many of the others stand before the byte `at`, one after the other.
fn front_len(at: u32, others: &[Mention<'_>]) -> usize
    ensures front { all_placed (take result others.now) ≡ front_before at (all_placed others.now) }
    ensures rest { all_placed (drop result others.now) ≡ rest_from at (all_placed others.now) }
    ensures within { result ≤ length others.now }
{
    for (k, other) in others.iter().enumerate() {
        if other.at.at >= at {
            return k;
        }
    }
    others.len()
}

/// Two lists in the order of the text as one.
fn merged<'a>(
    alloc: Global,
    mentions: &[Mention<'a>],
    others: &[Mention<'a>],
) -> Result<Vec<Mention<'a>>, AllocError>
    ensures { IfOk result (λ list. all_placed list.items ≡ merged (all_placed mentions.now) (all_placed others.now)) }
{
    let mut list = Vec::new(alloc);
    let (_, mut rest) = others.split_at(0);
    for mention in mentions {
        let end = front_len(mention.at.at, rest);
        let (front, later) = rest.split_at(end);
        list.extend_from_slice(front)?;
        list.push(*mention)?;
        rest = later;
    }
    list.extend_from_slice(rest)?;
    Ok(list)
}

/// The first repeat within the space of one of these, and of another that was found before.
fn repeat_in_each<'a, T: Spaced>(
    alloc: Global,
    before: Option<Mention<'a>>,
    all: &'a [T],
) -> Result<Option<Mention<'a>>, AllocError>
    ensures { IfOk result (λ repeat. option_map placed_of repeat ≡ earliest_repeat (option_map placed_of before.entry) (map T.space all.now)) }
{
    let mut first = before;
    for one in all {
        let space = one.space(alloc)?;
        first = first_of(first, repeat_in(alloc, space.as_slice())?);
    }
    Ok(first)
}

/// Appends the left names that are flows of the node.
fn push_defined<'a>(
    list: &mut Vec<Mention<'a>>,
    names: &Names<'_>,
    node: usize,
    lefts: &'a [Placed],
) -> Result<(), AllocError>
    ensures { OnOk result (all_placed list.new.items ≡
        all_placed list.old.items ++ filter (λ (l : Placed). is_some (param_at (program_tree names.now) node l.name)) lefts.now) }
{
    for left in lefts {
        if names.param(node, left.name.bytes()).is_some() {
            list.push(Mention {
                name: &left.name,
                at: left.at,
            })?;
        }
    }
    Ok(())
}

/// What defines a flow of the node at this index: the inputs, and the left names that are flows.
fn definitions<'a>(
    alloc: Global,
    names: &Names<'_>,
    k: usize,
    node: &'a Node,
) -> Result<Vec<Mention<'a>>, AllocError>
    ensures { IfOk result (λ list. all_placed list.items ≡ map placed_param node.now.ins
        ++ filter (λ (l : Placed). is_some (param_at (program_tree names.now) k l.name)) (lefts_of (node_tree node.now))) }
{
    let mut list = mentions(alloc, node.ins.as_slice())?;
    for equation in node.eqs.as_slice() {
        push_defined(&mut list, names, k, equation.lefts.as_slice())?;
    }
    Ok(list)
}

/// The first repeat among what defines flows, and of another that was found before.
fn repeat_in_definitions<'a>(
    alloc: Global,
    before: Option<Mention<'a>>,
    names: &Names<'a>,
) -> Result<Option<Mention<'a>>, AllocError>
    ensures { IfOk result (λ repeat. option_map placed_of repeat ≡
        earliest_repeat (option_map placed_of before.entry) (map definition_space (program_tree names.now).nodes)) }
{
    let mut first = before;
    for (k, node) in names.program().nodes.as_slice().iter().enumerate() {
        let space = definitions(alloc, names, k, node)?;
        first = first_of(first, repeat_in(alloc, space.as_slice())?);
    }
    Ok(first)
}

/// The nodes and imports, which share one space, in the order of the text.
fn callees<'a>(alloc: Global, program: &'a Program) -> Result<Vec<Mention<'a>>, AllocError>
    ensures { IfOk result (λ list. all_placed list.items ≡ callee_space (program_tree program.now)) }
{
    let import_list = mentions(alloc, program.imports.as_slice())?;
    let node_list = mentions(alloc, program.nodes.as_slice())?;
    merged(alloc, import_list.as_slice(), node_list.as_slice())
}

/// The first repeat of the names of nodes and imports.
fn repeat_of_callees<'a>(
    alloc: Global,
    program: &'a Program,
) -> Result<Option<Mention<'a>>, AllocError>
    ensures { IfOk result (λ repeat. option_map placed_of repeat ≡ repeat_in (callee_space (program_tree program.now))) }
{
    let space = callees(alloc, program)?;
    repeat_in(alloc, space.as_slice())
}

/// The first repeat of the names of sensors, or of actuators.
fn repeat_of_devices<'a>(
    alloc: Global,
    list: &'a [Device],
) -> Result<Option<Mention<'a>>, AllocError>
    ensures { IfOk result (λ repeat. option_map placed_of repeat ≡ repeat_in (map placed_device list.now)) }
{
    let space = mentions(alloc, list)?;
    repeat_in(alloc, space.as_slice())
}

/// The first repeat of the names of nodes and imports, of sensors and of actuators.
fn repeat_of_globals<'a>(
    alloc: Global,
    names: &Names<'a>,
) -> Result<Option<Mention<'a>>, AllocError>
    ensures { IfOk result (λ repeat. option_map placed_of repeat ≡ earliest_repeat None (global_spaces (program_tree names.now))) }
{
    let program = names.program();
    let callee = repeat_of_callees(alloc, program)?;
    let sensor = repeat_of_devices(alloc, program.sensors.as_slice())?;
    let actuator = repeat_of_devices(alloc, program.actuators.as_slice())?;
    Ok(first_of(first_of(callee, sensor), actuator))
}

/// The first name, in the order of the text, that is declared or defined a second time.
#[tactic(auto, unfolding(crate::specs::Repeats::repeat_of))]
pub fn repeat<'a>(alloc: Global, names: &Names<'a>) -> Result<Option<Mention<'a>>, AllocError>
    ensures { IfOk result (λ repeat. option_map placed_of repeat ≡ repeat_of (program_tree names.now)) }
{
    let program = names.program();
    let first = repeat_of_globals(alloc, names)?;
    let first = repeat_in_each(alloc, first, program.imports.as_slice())?;
    let first = repeat_in_each(alloc, first, program.nodes.as_slice())?;
    repeat_in_definitions(alloc, first, names)
}
