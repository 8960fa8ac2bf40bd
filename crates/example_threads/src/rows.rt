//! The rows of actuators: name, number, date and value.

ghost use Rattle.std.specs.Prelude.{◌≡◌, Some};
ghost use Rattle.kebrunza.specs.Vocabulary.{Constants};

use kebrunza::boards::{Closed, shown_flows};
use kebrunza::plans::Plan;
use kebrunza::values::{OutFlow, Value, push_number, push_value};
use std::alloc::{AllocError, Global};

/// The date of a value, by its number.
fn date_of(flow: &OutFlow, number: u64) -> u64 {
    let later = number.saturating_mul(flow.clock.period);
    flow.clock.start.saturating_add(later)
}

/// Appends the number and the date of a row.
fn push_place(text: &mut Vec<u8>, number: u64, date: u64) -> Result<(), AllocError> {
    text.extend_from_slice(b",")?;
    push_number(text, number)?;
    text.extend_from_slice(b",")?;
    push_number(text, date)?;
    text.extend_from_slice(b",")
}

/// Appends a row.
fn push_row(
    text: &mut Vec<u8>,
    flow: &OutFlow,
    number: u64,
    value: Value,
) -> Result<(), AllocError> {
    text.extend_from_slice(flow.name.bytes())?;
    push_place(text, number, date_of(flow, number))?;
    push_value(text, value)?;
    text.extend_from_slice(b"\n")
}

/// Appends all rows of an actuator.
fn push_flow(text: &mut Vec<u8>, flow: &OutFlow) -> Result<(), AllocError> {
    let values = flow.values.as_slice();
    for n in 0..values.len() {
        push_row(text, flow, n as u64, values[n])?;
    }
    Ok(())
}

/// The rows of all actuators, one actuator after another.
pub(crate) fn text_of(alloc: Global, plan: &Plan, closed: &Closed) -> Result<Vec<u8>, AllocError>
    requires { (k : Constants) × (closed.now.constants ≡ Some k) × (k.plan ≡ plan.now) }
{
    let flows = shown_flows(alloc, plan, closed)?;
    let mut text = Vec::new(alloc);
    for i in 0..flows.len() {
        push_flow(&mut text, &flows[i])?;
    }
    Ok(text)
}
