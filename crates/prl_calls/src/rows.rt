//! The rows of main's inputs, and what is evaluated with them.

ghost use Rattle.std.specs.Prelude.{◌≡◌, ◌<◌, ◌≤◌, IfOk, length, slice_get};
ghost use Rattle.prl_base.specs.Reading.{GivesBut};
ghost use Rattle.prl_flow.specs.Solutions.{AreClocks};
ghost use Rattle.prl_sensors.specs.SensorRows.{sensors_of};
ghost use Rattle.prl_stages.specs.Vocabulary.{HasClocks, inputs_of, needs_of, type_of_flow};
ghost use Rattle.prl_stages.specs.Vocabulary.{HasRows, stop_of, told_sensors};
ghost use Rattle.prl_calls.specs.Stops.{given_of, PassesAt};

use crate::reading::Request;
use prl_base::{FlowNo, Name, Ty};
use prl_body::Bodies;
use prl_flow::{Clocks, Flat, Order, Sensors, dates_before};
use prl_sensors::{SensorFault, read_sensors};
use prl_stages::{Fault, SensorsRefusal, Stage, Stop};
use std::alloc::{AllocError, Global};

/// The stop that a fault of rows is.
fn rows_stop(fault: SensorFault) -> Stop
    ensures { result ≡ stop_of Stage.Rows (told_sensors fault) }
{
    let refusal = match fault {
        SensorFault::Row(number) => SensorsRefusal::Row(number),
        SensorFault::NoSensor(number) => SensorsRefusal::NoSensor(number),
        SensorFault::Order(number) => SensorsRefusal::Order(number),
        SensorFault::Value(number) => SensorsRefusal::Value(number),
        SensorFault::Short { name, have, need } => SensorsRefusal::Short { name, have, need },
        SensorFault::Memory => return Stop::Memory,
    };
    Stop::Refused(Stage::Rows, Fault::Sensors(refusal))
}

/// What is evaluated: a flat program with the clocks and an order of its flows, bodies, and the rows of its sensors.
#[derive(Drop)]
pub struct Run {
    pub flat: Flat,
    pub clocks: Clocks,
    pub order: Order,
    pub bodies: Bodies,
    pub sensors: Sensors,
}

/// The names of main's inputs.
fn input_names(alloc: Global, flat: &Flat) -> Result<Vec<Name>, AllocError>
    requires { length flat.now.ins ≤ 4096 }
    ensures { IfOk result (λ names. names.items ≡ (inputs_of flat.now).names) }
{
    let _flows = flat.flows();
    let count = flat.ins().len();
    let mut names = Vec::with_capacity(alloc, count)?;
    for k in 0..count {
        names.push(flat.in_name(k as u32).copy(alloc)?)?;
    }
    Ok(names)
}

/// The type of a flow.
fn type_of(flat: &Flat, flow: FlowNo) -> Ty
    ensures { result ≡ type_of_flow (slice_get flat.now.flows flow.0) }
{
    match flat.flows().get(flow.0 as usize) {
        Some(flow) => flow.ty,
        None => Ty::Int,
    }
}

/// The types of main's inputs.
fn input_types(alloc: Global, flat: &Flat) -> Result<Vec<Ty>, AllocError>
    ensures { IfOk result (λ types. types.items ≡ (inputs_of flat.now).types) }
{
    let mut types = Vec::with_capacity(alloc, flat.ins().len())?;
    for flow in flat.ins() {
        types.push(type_of(flat, *flow))?;
    }
    Ok(types)
}

/// How many rows each of main's inputs needs.
fn input_needs(
    alloc: Global,
    flat: &Flat,
    clocks: &Clocks,
    until: u32,
) -> Result<Vec<u64>, AllocError>
    requires { AreClocks flat.now clocks.now.of }
    ensures { IfOk result (λ needs. needs.items ≡ needs_of flat.now clocks.now.of until) }
{
    let _flows = flat.flows();
    let of = clocks.of.as_slice();
    let mut needs = Vec::with_capacity(alloc, flat.ins().len())?;
    for flow in flat.ins() {
        needs.push(dates_before(until as u64, of[flow.0 as usize]))?;
    }
    Ok(needs)
}

/// What the text of the sensors has for main's inputs.
fn rows_of_text(
    alloc: Global,
    text: &[u8],
    flat: &Flat,
    clocks: &Clocks,
    until: u32,
) -> Result<Sensors, SensorFault>
    requires few { length flat.now.ins ≤ 4096 }
    requires clocks { AreClocks flat.now clocks.now.of }
    ensures { GivesBut SensorFault.Memory (λ sensors. sensors) result
        (sensors_of (inputs_of flat.now) (needs_of flat.now clocks.now.of until) text.now) }
{
    let _flows = flat.flows();
    let names = input_names(alloc, flat)?;
    let types = input_types(alloc, flat)?;
    let needs = input_needs(alloc, flat, clocks, until)?;
    read_sensors(
        alloc,
        text,
        names.as_slice(),
        types.as_slice(),
        needs.as_slice(),
    )
}

/// What is evaluated: the rows of main's inputs are read, of each a row for each date of its flow below the date of the command, or
/// more; and they stand with the rest.
pub fn run_with(
    alloc: Global,
    request: &Request,
    front: (Flat, Order, Clocks),
    bodies: Bodies,
) -> Result<Run, Stop>
    requires { HasClocks (given_of request.now) front.0 front.2.of }
    ensures { PassesAt (given_of request.now) Stage.Rows
        (λ run. (run.flat ≡ front.0) × (run.order ≡ front.1) × (run.clocks ≡ front.2) × (run.bodies ≡ bodies)
        × HasRows (given_of request.now) run.flat run.clocks.of run.sensors) result }
{
    match rows_of_text(
        alloc,
        &request.texts.sensors,
        &front.0,
        &front.2,
        request.until,
    ) {
        Ok(sensors) => {
            let (flat, order, clocks) = front;
            Ok(Run {
                flat,
                clocks,
                order,
                bodies,
                sensors,
            })
        }
        Err(fault) => {
            drop((front, bodies));
            Err(rows_stop(fault))
        }
    }
}
