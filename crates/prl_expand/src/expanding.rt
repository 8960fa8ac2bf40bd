//! The expansion of a program.

ghost use Rattle.std.specs.Prelude.{◌≡◌, ◌≤◌, ◌<◌, ℕ, List, map, IfErr, IfOk};
ghost use Rattle.std.specs.List.{range_with_len};
ghost use Rattle.prl_ast.specs.Trees.{program_tree};
ghost use Rattle.prl_body.specs.declared.bodies.CheckedBody.{CheckedBody};
ghost use Rattle.prl_flow.specs.Vocabulary.{Rows, IsSolution};
ghost use Rattle.prl_causal.specs.Behaviours.{Satisfies, state_in};
ghost use Rattle.prl_expand.specs.Correspondence.{IsOneToOne};
ghost use Rattle.prl_expand.specs.Flats.{devices_of, flow_no, sensors_from, wcet_named};
ghost use Rattle.prl_expand.specs.Expanding.{IsExpanded, IsExpandFault};
ghost use Rattle.prl_expand.specs.code.Adding.{IsMadeWithin};
ghost use Rattle.prl_expand.specs.code.Terms.{flow_of, number_of};
ghost use Rattle.prl_expand.specs.code.Variables.{def_of};

use crate::counts::{ExpandFault, FIRST, take_flows};
use crate::laws::{behaviours_are_solutions, flats_are_well_formed};
use crate::nodes::{Made, enter, node_at};
use crate::terms::{Term, numbers};
use crate::variables::Source;
use prl_ast::{Device, Node, Param, Program};
use prl_base::{FlowNo, Label, Name, Seq};
use prl_flow::Flat;
use prl_names::Names;
use prl_types::Typed;
use std::alloc::{AllocError, Global};

/// The definitions of main's inputs.
fn sensors(alloc: Global, count: usize) -> Result<Vec<Source>, AllocError>
    requires { count ≤ 4096 }
    ensures { IfOk result (λ defs. map def_of defs.items ≡ sensors_from 0 (range_with_len 0 count)) }
{
    let mut defs = Vec::new(alloc);
    for k in 0..count {
        defs.push(Source::Sensor(k as u32))?;
    }
    Ok(defs)
}

/// The WCET of the device of this name; 0 where there is none.
fn wcet_named(devices: &[Device], name: &Name) -> u32
    ensures { result ≡ wcet_named devices.now name.now }
{
    for device in devices {
        if device.name.bytes() == name.bytes() {
            return device.wcet;
        }
    }
    0
}

/// A device for each variable.
fn devices_of(
    alloc: Global,
    devices: &[Device],
    params: &[Param],
) -> Result<Vec<(Name, u32)>, AllocError>
    ensures { IfOk result (λ list. list.items ≡ devices_of devices.now params.now) }
{
    let mut list = Vec::new(alloc);
    for param in params {
        list.push((param.name.copy(alloc)?, wcet_named(devices, &param.name)))?;
    }
    Ok(list)
}

/// So many numbers, from 0 on.
fn flow_numbers(alloc: Global, count: usize) -> Result<Vec<FlowNo>, AllocError>
    requires { count ≤ 4096 }
    ensures { IfOk result (λ list. list.items ≡ map flow_no (range_with_len 0 count)) }
{
    let mut list = Vec::new(alloc);
    for k in 0..count {
        list.push(FlowNo(k as u32))?;
    }
    Ok(list)
}

/// What is made within main, and its outputs.
fn made_within(
    alloc: Global,
    typed: &Typed<'_>,
    names: &Names<'_>,
) -> Result<(Made, Vec<Term>), ExpandFault>
    requires { names.now ≡ typed.now.program }
    ensures made { IfOk result (λ made. IsMadeWithin (program_tree typed.now.program) typed.now.types typed.now.main made.0 (map flow_of made.1.items)) }
    ensures fault { IfErr result (IsExpandFault (program_tree typed.now.program) typed.now.main) }
{
    let program = typed.program();
    let main = typed.main() as usize;
    let node = node_at(program, main);
    let inputs = node.ins.len();
    let mut counted = FIRST;
    take_flows(&mut counted, inputs)?;
    let label = Label::new(alloc, b"")?;
    let sources = sensors(alloc, inputs)?;
    let levels = program.nodes.len() as u32;
    let mut made = Made {
        flows: Vec::new(alloc),
        apps: Vec::new(alloc),
        next: FIRST,
    };
    let outs = enter(
        alloc, typed, names, levels, main, &label, sources, &mut made,
    )?;
    Ok((made, outs))
}

/// The same, by the names of the program.
fn made_of(alloc: Global, typed: &Typed<'_>) -> Result<(Made, Vec<Term>), ExpandFault>
    ensures made { IfOk result (λ made. IsMadeWithin (program_tree typed.now.program) typed.now.types typed.now.main made.0 (map flow_of made.1.items)) }
    ensures fault { IfErr result (IsExpandFault (program_tree typed.now.program) typed.now.main) }
{
    let names = Names::new(alloc, typed.program())?;
    made_within(alloc, typed, &names)
}

/// The devices of main's inputs, and of its outputs.
fn both_devices(
    alloc: Global,
    program: &Program,
    node: &Node,
) -> Result<(Vec<(Name, u32)>, Vec<(Name, u32)>), AllocError>
    ensures ins { IfOk result (λ devices. devices.0.items ≡ devices_of program.now.sensors node.now.ins) }
    ensures outs { IfOk result (λ devices. devices.1.items ≡ devices_of program.now.actuators node.now.outs) }
{
    let ins = devices_of(alloc, program.sensors.as_slice(), node.ins.as_slice())?;
    let outs = devices_of(alloc, program.actuators.as_slice(), node.outs.as_slice())?;
    Ok((ins, outs))
}

/// The flows of so many inputs, and of these outputs.
fn both_ends(
    alloc: Global,
    inputs: usize,
    outs: &[Term],
) -> Result<(Vec<FlowNo>, Vec<FlowNo>), AllocError>
    requires { inputs ≤ 4096 }
    ensures ins { IfOk result (λ ends. ends.0.items ≡ map flow_no (range_with_len 0 inputs)) }
    ensures outs { IfOk result (λ ends. ends.1.items ≡ map number_of outs.now) }
{
    let ins = flow_numbers(alloc, inputs)?;
    Ok((ins, numbers(alloc, outs)?))
}

/// The flat program of the program's expansion: flows, applications and labels in the order in which they are made.
///
/// - `Limit`: the expansion has more than 4,096 flows; 4,097 is told, and no further flow is looked at.
/// - `Memory`: memory ran out; this may come in place of the other.
pub fn expand(alloc: Global, typed: &Typed<'_>) -> Result<Flat, ExpandFault>
    ensures exact { IfOk result (IsExpanded (program_tree typed.now.program) typed.now.main typed.now.types) }
    // To each behaviour there is exactly one solution, and to each solution exactly one behaviour.
    ensures kept { IfOk result (λ flat. (bodies : List CheckedBody) (rows : Rows) (until : ℕ)
        → IsOneToOne (Satisfies (program_tree typed.now.program) typed.now.main bodies rows until) (IsSolution flat bodies rows until) state_in) }
    ensures fault { IfErr result (IsExpandFault (program_tree typed.now.program) typed.now.main) }
{
    flats_are_well_formed();
    behaviours_are_solutions();
    let program = typed.program();
    let node = node_at(program, typed.main() as usize);
    let made = made_of(alloc, typed)?;
    let devices = both_devices(alloc, program, node)?;
    let ends = both_ends(alloc, node.ins.len(), made.1.as_slice())?;
    let Made { flows, apps, .. } = made.0;
    Ok(Flat::new(
        Seq::new(flows),
        Seq::new(apps),
        Seq::new(ends.0),
        Seq::new(ends.1),
        devices.0,
        devices.1,
    ))
}
