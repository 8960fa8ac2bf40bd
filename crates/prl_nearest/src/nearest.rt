//! The first of the names that a program declares that is so few edits away from a word.

ghost use Rattle.std.specs.Prelude.{◌≡◌, IfSome};
ghost use Rattle.std.specs.Bool.{OnTrue};
ghost use Rattle.prl_nearest.specs.Nearest.{HasDevice, HasImport, HasNode, HasParam, HasVariable, IsDeclared, IsNear, IsVariable};

use crate::edits::{within_one, within_two};
use prl_ast::{Device, Import, Node, Param, Program};

/// Whether a name is another word that is so few edits away, fewer than half of the word's bytes; of more than two edits it does not
/// tell.
pub(crate) fn is_near(most: u64, word: &[u8], name: &[u8]) -> bool
    ensures { OnTrue result (IsNear most word.now name.now) }
{
    if most > 2 || most as usize * 2 >= word.len() || name == word {
        return false;
    }
    match most {
        1 => within_one(word, name),
        2 => within_two(word, name),
        _ => false,
    }
}

/// The first of the inputs, outputs or variables.
fn near_param<'a>(most: u64, word: &[u8], params: &'a [Param]) -> Option<&'a [u8]>
    ensures near { IfSome result (λ name. IsNear most word.now name.now) }
    ensures has { IfSome result (λ name. HasParam params.now name.now) }
{
    for param in params {
        if is_near(most, word, param.name.bytes()) {
            return Some(param.name.bytes());
        }
    }
    None
}

/// The first of the sensors or actuators.
fn near_device<'a>(most: u64, word: &[u8], devices: &'a [Device]) -> Option<&'a [u8]>
    ensures near { IfSome result (λ name. IsNear most word.now name.now) }
    ensures has { IfSome result (λ name. HasDevice devices.now name.now) }
{
    for device in devices {
        if is_near(most, word, device.name.bytes()) {
            return Some(device.name.bytes());
        }
    }
    None
}

/// The first of the imports.
fn near_import<'a>(most: u64, word: &[u8], imports: &'a [Import]) -> Option<&'a [u8]>
    ensures near { IfSome result (λ name. IsNear most word.now name.now) }
    ensures has { IfSome result (λ name. HasImport imports.now name.now) }
{
    for import in imports {
        if is_near(most, word, import.name.bytes()) {
            return Some(import.name.bytes());
        }
    }
    None
}

/// The first of the nodes.
fn near_node<'a>(most: u64, word: &[u8], nodes: &'a [Node]) -> Option<&'a [u8]>
    ensures near { IfSome result (λ name. IsNear most word.now name.now) }
    ensures has { IfSome result (λ name. HasNode nodes.now name.now) }
{
    for node in nodes {
        if is_near(most, word, node.name.bytes()) {
            return Some(node.name.bytes());
        }
    }
    None
}

/// The first of a node's inputs, outputs and variables.
fn near_in<'a>(most: u64, word: &[u8], node: &'a Node) -> Option<&'a [u8]>
    ensures near { IfSome result (λ name. IsNear most word.now name.now) }
    ensures has { IfSome result (λ name. HasVariable node.now name.now) }
{
    if let Some(name) = near_param(most, word, node.ins.as_slice()) {
        return Some(name);
    }
    match near_param(most, word, node.outs.as_slice()) {
        Some(name) => Some(name),
        None => near_param(most, word, node.locals.as_slice()),
    }
}

/// The first of the nodes' inputs, outputs and variables.
fn near_variable<'a>(most: u64, word: &[u8], nodes: &'a [Node]) -> Option<&'a [u8]>
    ensures near { IfSome result (λ name. IsNear most word.now name.now) }
    ensures has { IfSome result (λ name. IsVariable nodes.now name.now) }
{
    for node in nodes {
        if let Some(name) = near_in(most, word, node) {
            return Some(name);
        }
    }
    None
}

/// The first of the sensors and actuators.
fn near_outside<'a>(most: u64, word: &[u8], program: &'a Program) -> Option<&'a [u8]>
    ensures near { IfSome result (λ name. IsNear most word.now name.now) }
    ensures has { IfSome result (λ name. IsDeclared program.now name.now) }
{
    match near_device(most, word, program.sensors.as_slice()) {
        Some(name) => Some(name),
        None => near_device(most, word, program.actuators.as_slice()),
    }
}

/// The first of the imports and nodes.
fn near_applied<'a>(most: u64, word: &[u8], program: &'a Program) -> Option<&'a [u8]>
    ensures near { IfSome result (λ name. IsNear most word.now name.now) }
    ensures has { IfSome result (λ name. IsDeclared program.now name.now) }
{
    match near_import(most, word, program.imports.as_slice()) {
        Some(name) => Some(name),
        None => near_node(most, word, program.nodes.as_slice()),
    }
}

/// The first of all names that a program declares that is so few edits away.
pub(crate) fn near_in_program<'a>(most: u64, word: &[u8], program: &'a Program) -> Option<&'a [u8]>
    ensures near { IfSome result (λ name. IsNear most word.now name.now) }
    ensures has { IfSome result (λ name. IsDeclared program.now name.now) }
{
    if let Some(name) = near_variable(most, word, program.nodes.as_slice()) {
        return Some(name);
    }
    match near_outside(most, word, program) {
        Some(name) => Some(name),
        None => near_applied(most, word, program),
    }
}
