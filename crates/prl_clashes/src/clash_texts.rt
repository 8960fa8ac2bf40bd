//! Two ways to a flow in words, with the clocks that they give it.

ghost use Rattle.std.specs.Prelude.{◌≡◌, ◌++◌, OnOk};
ghost use Rattle.prl_clashes.specs.ClashTexts.{clash_text, clock_text, ended_text, from_text, led_text, period_text, rate_in, rate_text, rate_told, route_text, start_text, way_text};

use crate::clashes::Clash;
use crate::hop_texts::{label_of, push_factor, push_hops, push_quoted};
use crate::ways::Way;
use prl_ast::Rate;
use prl_base::push_ratio;
use prl_clock::Timing;
use prl_flow::Flat;
use std::alloc::AllocError;

/// Appends a declared rate.
#[tactic(auto, unfolding(crate::specs::ClashTexts::factor_text, crate::specs::ClashTexts::rate_text))]
fn push_rate(text: &mut Vec<u8>, rate: Rate) -> Result<(), AllocError>
    ensures { OnOk result (text.new.items ≡ text.old.items ++ rate_text rate) }
{
    push_factor(text, b" of rate (", rate.period)?;
    text.extend_from_slice(b", ")?;
    push_ratio(text, rate.phase)?;
    text.extend_from_slice(b")")
}

/// The declared rate of a flow, where there is one.
fn rate_in(flat: &Flat, flow: u32) -> Option<Rate>
    ensures { result ≡ rate_in flat.now flow }
{
    match flat.flows().get(flow as usize) {
        None => None,
        Some(flow) => flow.rate,
    }
}

/// Appends a declared rate, where there is one.
fn push_rate_told(text: &mut Vec<u8>, rate: Option<Rate>) -> Result<(), AllocError>
    ensures { OnOk result (text.new.items ≡ text.old.items ++ rate_told rate) }
{
    match rate {
        None => Ok(()),
        Some(rate) => push_rate(text, rate),
    }
}

/// Appends a period.
#[tactic(auto, unfolding(crate::specs::ClashTexts::period_text))]
fn push_period(text: &mut Vec<u8>, clock: &Timing) -> Result<(), AllocError>
    ensures { OnOk result (text.new.items ≡ text.old.items ++ period_text clock.now) }
{
    text.extend_from_slice(b"period ")?;
    push_ratio(text, clock.period)
}

/// Appends a start.
#[tactic(auto, unfolding(crate::specs::ClashTexts::start_text))]
fn push_start(text: &mut Vec<u8>, clock: &Timing) -> Result<(), AllocError>
    ensures { OnOk result (text.new.items ≡ text.old.items ++ start_text clock.now) }
{
    text.extend_from_slice(b" and start ")?;
    push_ratio(text, clock.start)
}

/// Appends a clock.
#[tactic(auto, using(crate::proofs::Joins::joined), unfolding(crate::specs::ClashTexts::clock_text))]
fn push_clock(text: &mut Vec<u8>, clock: &Timing) -> Result<(), AllocError>
    ensures { OnOk result (text.new.items ≡ text.old.items ++ clock_text clock.now) }
{
    push_period(text, clock)?;
    push_start(text, clock)
}

/// Appends from where a way goes.
#[tactic(auto, using(crate::proofs::Joins::joined), unfolding(crate::specs::ClashTexts::from_text))]
fn push_from(text: &mut Vec<u8>, flat: &Flat, first: u32) -> Result<(), AllocError>
    ensures { OnOk result (text.new.items ≡ text.old.items ++ from_text flat.now first) }
{
    push_quoted(text, b", from `", label_of(flat, first))?;
    push_rate_told(text, rate_in(flat, first))
}

/// Appends where a way goes.
#[tactic(auto, using(crate::proofs::Joins::joined), unfolding(crate::specs::ClashTexts::route_text))]
fn push_route(text: &mut Vec<u8>, flat: &Flat, way: &Way) -> Result<(), AllocError>
    ensures { OnOk result (text.new.items ≡ text.old.items ++ route_text flat.now way.now) }
{
    push_from(text, flat, way.first)?;
    push_hops(text, flat, way.first, way.rest.as_slice())
}

/// Appends the clock that a way gives, and the way.
#[tactic(auto, using(crate::proofs::Joins::joined), unfolding(crate::specs::ClashTexts::way_text))]
fn push_way(text: &mut Vec<u8>, flat: &Flat, way: &Way) -> Result<(), AllocError>
    ensures { OnOk result (text.new.items ≡ text.old.items ++ way_text flat.now way.now) }
{
    push_clock(text, &way.clock)?;
    push_route(text, flat, way)
}

/// Appends the clock that a way gives, and the way, as a line.
#[tactic(auto, unfolding(crate::specs::ClashTexts::ended_text))]
fn push_ended(text: &mut Vec<u8>, flat: &Flat, way: &Way) -> Result<(), AllocError>
    ensures { OnOk result (text.new.items ≡ text.old.items ++ ended_text flat.now way.now) }
{
    push_way(text, flat, way)?;
    text.extend_from_slice(b".\n")
}

/// Appends words, the clock that a way gives, and the way, as a line.
#[tactic(auto, using(crate::proofs::Joins::joined), unfolding(crate::specs::ClashTexts::led_text))]
fn push_led(text: &mut Vec<u8>, front: &[u8], flat: &Flat, way: &Way) -> Result<(), AllocError>
    ensures { OnOk result (text.new.items ≡ text.old.items ++ led_text front.now flat.now way.now) }
{
    text.extend_from_slice(front)?;
    push_ended(text, flat, way)
}

/// Appends the two clocks of a flow, each with the way that gives it.
pub fn push_clash(text: &mut Vec<u8>, flat: &Flat, clash: &Clash) -> Result<(), AllocError>
    ensures { OnOk result (text.new.items ≡ text.old.items ++ clash_text flat.now clash.now) }
{
    push_led(text, b"One clock there: ", flat, &clash.one)?;
    push_led(text, b"The other one: ", flat, &clash.other)
}
