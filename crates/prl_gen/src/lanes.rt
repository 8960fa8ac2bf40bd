//! What is drawn for a lane, and the periods and factors of all lanes.

ghost use Rattle.std.specs.Prelude.{◌≡◌, ◌<◌, ◌≤◌, IfOk, OnOk};
ghost use Rattle.prl_gen.specs.Draws.{next, state_after};
ghost use Rattle.prl_gen.specs.Lanes.{ArePositive, factor_at, factors_from, instances, period_at, periods_from, value_at};

use crate::draws::Draws;
use std::alloc::{AllocError, Global};

/// The end of a generated run, in ticks: the dates of the sensor rows are before it.
pub const UNTIL: u64 = 16_000;

/// The shortest period of a lane, in ticks.
pub const SHORTEST_PERIOD: u64 = 40;

/// Draws a period: the shortest one, or twice or four times that.
fn draw_period(draws: &mut Draws) -> u64
    ensures period { result ≡ period_at draws.old.state }
    ensures positive { 0 < result }
    ensures state { draws.new.state ≡ next draws.old.state }
{
    SHORTEST_PERIOD << draws.draw(3)
}

/// Draws a factor of 1 to 3.
fn draw_factor(draws: &mut Draws) -> u64
    ensures factor { result ≡ factor_at draws.old.state }
    ensures state { draws.new.state ≡ next draws.old.state }
{
    1 + draws.draw(3)
}

/// Draws a value of -1000 to 1000.
pub fn draw_value(draws: &mut Draws) -> i64
    ensures value { result ≡ value_at draws.old.state }
    ensures state { draws.new.state ≡ next draws.old.state }
{
    draws.draw(2001) as i64 - 1000
}

/// The number of a sensor's instances before the end.
pub fn instances(period: u64) -> u64
    requires { 0 < period }
    ensures { result ≡ instances period }
{
    UNTIL.div_ceil(period)
}

/// Draws the periods of the lanes.
pub fn draw_periods(alloc: Global, draws: &mut Draws, size: u64) -> Result<Vec<u64>, AllocError>
    ensures periods { IfOk result (λ periods. periods.items ≡ periods_from draws.old.state size) }
    ensures positive { IfOk result (λ periods. ArePositive periods.items) }
    ensures state { OnOk result (draws.new.state ≡ state_after draws.old.state size) }
{
    let mut periods = Vec::new(alloc);
    for _lane in 0..size {
        periods.push(draw_period(draws))?;
    }
    Ok(periods)
}

/// Draws the factors of the lanes.
pub fn draw_factors(alloc: Global, draws: &mut Draws, size: u64) -> Result<Vec<u64>, AllocError>
    ensures factors { IfOk result (λ factors. factors.items ≡ factors_from draws.old.state size) }
    ensures state { OnOk result (draws.new.state ≡ state_after draws.old.state size) }
{
    let mut factors = Vec::new(alloc);
    for _lane in 0..size {
        factors.push(draw_factor(draws))?;
    }
    Ok(factors)
}
