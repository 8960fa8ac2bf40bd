//! The text of a generated program. Each function appends to the text.

ghost use Rattle.std.specs.Prelude.{◌≡◌, ◌++◌, OnOk, length};
ghost use Rattle.prl_gen.specs.Lanes.{ArePositive};
ghost use Rattle.prl_gen.specs.Texts.{declarations, input, inputs, node, node_head, outputs, program, semicolon_before};

use crate::equations::push_equations;
use crate::numbered::{push_lines, push_numbered};
use prl_base::push_number;
use std::alloc::AllocError;

/// The lines of the imported nodes, the sensors and the actuators.
fn push_declarations(text: &mut Vec<u8>, size: u64) -> Result<(), AllocError>
    ensures { OnOk result (text.new.items ≡ text.old.items ++ declarations size) }
{
    let ports = b"(x: int; y: int) returns (z: int) wcet 1;\n";
    push_lines(text, b"imported node f", ports, size)?;
    push_lines(text, b"sensor s", b" wcet 1;\n", size)?;
    push_lines(text, b"actuator a", b" wcet 1;\n", size)
}

fn push_semicolon(text: &mut Vec<u8>, lane: usize) -> Result<(), AllocError>
    ensures { OnOk result (text.new.items ≡ text.old.items ++ semicolon_before lane) }
{
    if lane == 0 {
        return Ok(());
    }
    text.extend_from_slice(b"; ")
}

fn push_input(text: &mut Vec<u8>, lane: usize, period: u64) -> Result<(), AllocError>
    ensures { OnOk result (text.new.items ≡ text.old.items ++ input lane period) }
{
    push_numbered(text, b"s", lane as u64, b": rate (")?;
    push_number(text, period)?;
    text.extend_from_slice(b", 0)")
}

#[tactic(auto, using(crate::proofs::Steps::each_more))]
fn push_inputs(text: &mut Vec<u8>, periods: &[u64]) -> Result<(), AllocError>
    ensures { OnOk result (text.new.items ≡ text.old.items ++ inputs periods.now) }
{
    for (lane, period) in periods.iter().enumerate() {
        push_semicolon(text, lane)?;
        push_input(text, lane, *period)?;
    }
    Ok(())
}

#[tactic(auto, using(crate::proofs::Steps::each_more))]
fn push_outputs(text: &mut Vec<u8>, size: usize) -> Result<(), AllocError>
    ensures { OnOk result (text.new.items ≡ text.old.items ++ outputs size) }
{
    for lane in 0..size {
        push_semicolon(text, lane)?;
        text.extend_from_slice(b"a")?;
        push_number(text, lane as u64)?;
    }
    Ok(())
}

fn push_node_head(text: &mut Vec<u8>, periods: &[u64]) -> Result<(), AllocError>
    ensures { OnOk result (text.new.items ≡ text.old.items ++ node_head periods.now) }
{
    text.extend_from_slice(b"node main(")?;
    push_inputs(text, periods)?;
    text.extend_from_slice(b") returns (")?;
    push_outputs(text, periods.len())?;
    text.extend_from_slice(b")\nlet\n")
}

fn push_node(text: &mut Vec<u8>, periods: &[u64]) -> Result<(), AllocError>
    requires { ArePositive periods.now }
    ensures { OnOk result (text.new.items ≡ text.old.items ++ node periods.now) }
{
    push_node_head(text, periods)?;
    push_equations(text, periods)?;
    text.extend_from_slice(b"tel\n")
}

/// The program of lanes with these periods.
pub fn push_program(text: &mut Vec<u8>, periods: &[u64]) -> Result<(), AllocError>
    requires { ArePositive periods.now }
    ensures { OnOk result (text.new.items ≡ text.old.items ++ program periods.now) }
{
    push_declarations(text, periods.len() as u64)?;
    push_node(text, periods)
}
