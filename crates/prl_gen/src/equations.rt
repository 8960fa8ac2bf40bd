//! The equations of a generated program, one a lane. Each function appends to the text.

ghost use Rattle.std.specs.Prelude.{◌≡◌, ◌++◌, ◌<◌, OnOk, length};
ghost use Rattle.prl_gen.specs.Lanes.{ArePositive};
ghost use Rattle.prl_gen.specs.Texts.{converted, delayed, equation, equations, feed};

use crate::numbered::push_numbered;
use prl_base::push_number;
use std::alloc::AllocError;

fn push_delayed(text: &mut Vec<u8>, lane: u64) -> Result<(), AllocError>
    ensures { OnOk result (text.new.items ≡ text.old.items ++ delayed lane) }
{
    text.extend_from_slice(b"0 fby a")?;
    push_number(text, lane)
}

/// The output of a lane of the period `from`, as a lane of the period `to` reads it.
fn push_converted(text: &mut Vec<u8>, lane: u64, from: u64, to: u64) -> Result<(), AllocError>
    requires from_is_positive { 0 < from }
    requires to_is_positive { 0 < to }
    ensures { OnOk result (text.new.items ≡ text.old.items ++ converted lane from to) }
{
    if from == to {
        return push_delayed(text, lane);
    }
    text.push(b'(')?;
    push_delayed(text, lane)?;
    if to < from {
        text.extend_from_slice(b") *^ ")?;
        push_number(text, from / to)
    } else {
        text.extend_from_slice(b") /^ ")?;
        push_number(text, to / from)
    }
}

/// What the lane reads beside its sensor.
fn push_feed(text: &mut Vec<u8>, periods: &[u64], lane: usize) -> Result<(), AllocError>
    requires in_range { lane < length periods.now }
    requires positive { ArePositive periods.now }
    ensures { OnOk result (text.new.items ≡ text.old.items ++ feed periods.now lane) }
{
    if lane == 0 {
        return push_delayed(text, 0);
    }
    let before = lane - 1;
    push_converted(text, before as u64, periods[before], periods[lane])
}

fn push_equation(text: &mut Vec<u8>, periods: &[u64], lane: usize) -> Result<(), AllocError>
    requires in_range { lane < length periods.now }
    requires positive { ArePositive periods.now }
    ensures { OnOk result (text.new.items ≡ text.old.items ++ equation periods.now lane) }
{
    let number = lane as u64;
    push_numbered(text, b"  a", number, b" = ")?;
    push_numbered(text, b"f", number, b"(")?;
    push_numbered(text, b"s", number, b", ")?;
    push_feed(text, periods, lane)?;
    text.extend_from_slice(b");\n")
}

/// The equations of lanes with these periods.
pub fn push_equations(text: &mut Vec<u8>, periods: &[u64]) -> Result<(), AllocError>
    requires { ArePositive periods.now }
    ensures { OnOk result (text.new.items ≡ text.old.items ++ equations periods.now) }
{
    for lane in 0..periods.len() {
        push_equation(text, periods, lane)?;
    }
    Ok(())
}
