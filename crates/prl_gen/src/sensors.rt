//! The sensor rows of a generated program, whose values are drawn as they are written.
//! Each function appends to the text.

ghost use Rattle.std.specs.Prelude.{◌≡◌, ◌++◌, ◌<◌, OnOk, length};
ghost use Rattle.prl_gen.specs.Draws.{state_after};
ghost use Rattle.prl_gen.specs.Lanes.{ArePositive, instances, state_of_lane};
ghost use Rattle.prl_gen.specs.Texts.{row, rows_of_lane, sensors};

use crate::draws::Draws;
use crate::lanes::{draw_value, instances};
use crate::numbered::push_numbered;
use prl_base::{push_integer, push_number};
use std::alloc::AllocError;

/// The row of an instance.
fn push_row(text: &mut Vec<u8>, lane: usize, instance: u64, value: i64) -> Result<(), AllocError>
    ensures { OnOk result (text.new.items ≡ text.old.items ++ row lane instance value) }
{
    push_numbered(text, b"s", lane as u64, b",")?;
    push_number(text, instance)?;
    text.extend_from_slice(b",")?;
    push_integer(text, value)?;
    text.extend_from_slice(b"\n")
}

/// The rows of a lane, whose values are drawn.
#[tactic(auto, using(crate::proofs::Steps::each_more, crate::proofs::Steps::state_more))]
fn push_rows_of_lane(
    text: &mut Vec<u8>,
    draws: &mut Draws,
    lane: usize,
    period: u64,
) -> Result<(), AllocError>
    requires { 0 < period }
    ensures text { OnOk result (text.new.items ≡ text.old.items ++ rows_of_lane lane period draws.old.state) }
    ensures state { OnOk result (draws.new.state ≡ state_after draws.old.state (instances period)) }
{
    for instance in 0..instances(period) {
        let value = draw_value(draws);
        push_row(text, lane, instance, value)?;
    }
    Ok(())
}

/// The rows of lanes with these periods.
#[tactic(auto, using(crate::proofs::Steps::each_more, crate::proofs::Steps::lane_more))]
pub fn push_sensors(
    text: &mut Vec<u8>,
    draws: &mut Draws,
    periods: &[u64],
) -> Result<(), AllocError>
    requires { ArePositive periods.now }
    ensures text { OnOk result (text.new.items ≡ text.old.items ++ sensors periods.now draws.old.state) }
{
    for (lane, period) in periods.iter().enumerate() {
        push_rows_of_lane(text, draws, lane, *period)?;
    }
    Ok(())
}
