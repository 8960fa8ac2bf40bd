//! The text of the actuators' rows, by date.

ghost use Rattle.std.specs.Prelude.{◌≡◌, ◌^◌, ◌<◌, ◌≤◌, ◌++◌, ℕ, All, IfOk, OnOk, map};
ghost use Rattle.std.specs.List.{flat_map};
ghost use Rattle.prl_base.specs.Clocks.{IsClock, IsDate};
ghost use Rattle.prl_calendar.specs.Calendars.{AreDue};
ghost use Rattle.prl_flow.specs.Actuators.{AreUpTo, actuator_text, row_at, row_text};

use crate::ends::end_of;
use crate::lines::push_rest;
use crate::outputs::{OutRows, lend};
use crate::room::room_of;
use crate::singles::text_of_one;
use prl_base::{Clock, Value};
use prl_calendar::Calendar;
use prl_flow::OutFlow;
use std::alloc::{AllocError, Global};

/// Appends the row of an actuator.
pub(crate) fn push_row(
    text: &mut Vec<u8>,
    out: &OutRows<'_>,
    instance: u64,
    date: u64,
    value: Value,
) -> Result<(), AllocError>
    ensures { OnOk result (text.new.items ≡ text.old.items ++ row_text (record { name = out.now.name; instance = instance; date = date; value = value })) }
{
    text.extend_from_slice(out.name.bytes())?;
    push_rest(text, instance, date, value)
}

/// Appends the row of the actuator at one of its dates, if it has a value there.
fn push_row_at(text: &mut Vec<u8>, out: &OutRows<'_>, date: u64) -> Result<(), AllocError>
    requires clock { IsClock out.now.clock }
    requires date { IsDate out.now.clock date }
    ensures { OnOk result (text.new.items ≡ text.old.items ++ flat_map row_text (row_at date out.now)) }
{
    let instance = (date - out.clock.start) / out.clock.period;
    match out.values.get(instance as usize) {
        Some(value) => push_row(text, out, instance, date, *value),
        None => Ok(()),
    }
}

/// Appends the rows of the actuators that are due at the date, in their order.
fn push_rows_at(
    text: &mut Vec<u8>,
    outs: &[OutRows<'_>],
    due: &[u32],
    date: u64,
) -> Result<(), AllocError>
    requires clocks { All (λ out. IsClock out.clock) outs.now }
    requires due { AreDue (map (λ out. out.clock) outs.now) date due.now }
    ensures { OnOk result (text.new.items ≡ text.old.items ++ flat_map row_text (flat_map (row_at date) outs.now)) }
{
    for place in due {
        push_row_at(text, &outs[*place as usize], date)?;
    }
    Ok(())
}

/// The clocks of the actuators.
fn clocks_of(alloc: Global, outs: &[OutRows<'_>]) -> Result<Vec<Clock>, AllocError>
    ensures { IfOk result (λ v. v.items ≡ map (λ out. out.clock) outs.now) }
{
    let mut clocks = Vec::with_capacity(alloc, outs.len())?;
    for out in outs {
        clocks.push(out.clock)?;
    }
    Ok(clocks)
}

/// How many bytes the rows take at most.
fn room_of_all(outs: &[OutRows<'_>]) -> usize {
    let mut bytes: usize = 0;
    for out in outs {
        bytes = bytes.saturating_add(room_of(out));
    }
    bytes
}

/// Appends the rows at the dates that the calendar has left.
fn push_dates(
    alloc: Global,
    calendar: &mut Calendar<'_>,
    text: &mut Vec<u8>,
    outs: &[OutRows<'_>],
) -> Result<(), AllocError>
    requires clocks { All (λ out. IsClock out.clock) outs.now }
    requires same { calendar.old.clocks ≡ map (λ out. out.clock) outs.now }
    requires text { text.old.items ≡ actuator_text calendar.old.from outs.now }
    requires order { calendar.old.from ≤ calendar.old.until }
    ensures { OnOk result (text.new.items ≡ actuator_text calendar.old.until outs.now) }
{
    let mut due = Vec::new(alloc);
    'dates: while let Some(date) = calendar.next(&mut due)? {
        push_rows_at(text, outs, due.as_slice(), date)?;
    }
    Ok(())
}

/// The text of the actuators' rows, date by date.
fn text_by_date(alloc: Global, outs: &[OutRows<'_>]) -> Result<Vec<u8>, AllocError>
    requires { (until : ℕ) × (until < 2 ^ 64) × AreUpTo until outs.now }
    ensures { (until : ℕ) → AreUpTo until outs.now → IfOk result (λ text. text.items ≡ actuator_text until outs.now) }
{
    // A calendar numbers its clocks by 32 bits; for more actuators no memory is there.
    u32::try_from(outs.len()).map_err(|_| AllocError)?;
    let end = end_of(outs);
    let clocks = clocks_of(alloc, outs)?;
    let mut calendar = Calendar::new(alloc, clocks.as_slice(), end)?;
    let mut text = Vec::with_capacity(alloc, room_of_all(outs))?;
    push_dates(alloc, &mut calendar, &mut text, outs)?;
    Ok(text)
}

/// The text of the actuators' rows: one line for each value, by date, and at one date in the order of the
/// actuators. A line is the name, the instance, the date in ticks and the value, with commas between. The
/// flows are up to one date, and are lent.
pub fn lent_text(alloc: Global, outs: &[OutRows<'_>]) -> Result<Vec<u8>, AllocError>
    requires { (until : ℕ) × (until < 2 ^ 64) × AreUpTo until outs.now }
    ensures { (until : ℕ) → AreUpTo until outs.now → IfOk result (λ text. text.items ≡ actuator_text until outs.now) }
{
    match outs {
        [out] => text_of_one(alloc, out),
        _ => text_by_date(alloc, outs),
    }
}

/// The same of flows that own their values.
pub fn actuator_text(alloc: Global, outs: &[OutFlow]) -> Result<Vec<u8>, AllocError>
    requires { (until : ℕ) × (until < 2 ^ 64) × AreUpTo until outs.now }
    ensures { (until : ℕ) → AreUpTo until outs.now → IfOk result (λ text. text.items ≡ actuator_text until outs.now) }
{
    let lent = lend(alloc, outs)?;
    lent_text(alloc, lent.as_slice())
}
