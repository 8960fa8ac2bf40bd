//! Where each flow stands after the constraints that were taken so far.

ghost use Rattle.std.specs.Prelude.{◌≡◌, ◌≢◌, ◌<◌, ◌^◌, ℕ, Contains, IfErr, IfOk, OnErr, OnOk, if◌then◌else◌, is_ok, length, map, slice_set, []};
ghost use Rattle.std.specs.Vec.{vec_items};
ghost use Rattle.prl_flow.specs.Standings.{alone, same_clock, standing_at};
ghost use Rattle.prl_clock.specs.code.Composition.{IsComposedPast};
ghost use Rattle.prl_clock.specs.code.Listed.{joint_list, listed_at};
ghost use Rattle.prl_clock.specs.code.Standings.{AreChanged, AreMoved, AreTimed, HaveChanged, IsMoved, IsOnePast, IsSolved, IsStuck, IsTimed};

use crate::rates::same_clock;
use crate::steps::Refusal;
use crate::timings::composed;
use prl_base::Past;
use prl_flow::{Standing, Timing};
use std::alloc::{AllocError, Global};
use std::marker::Model;

/// Where the flows stand. Contracts see the list of the standings.
#[derive(Drop)]
pub struct Standings {
    of: Vec<Standing>,
    /// At each flow that others stand over, those that do and itself.
    lists: Vec<Vec<u32>>,
}

impl Model for Standings {
    ghost use Rattle.std.specs.Prelude.{List, map};
    ghost use Rattle.std.specs.Vec.{vec_items};
    ghost use Rattle.prl_flow.specs.declared.standings.Standing.{Standing};
    ghost use Rattle.prl_clock.specs.code.Listed.{AreListed};

    ghost Value = { List Standing };

    ghost view = { λ s. s.of.items };

    ghost invariant = { λ s. AreListed s.of.items (map vec_items s.lists.items) };
}

/// A flow over `low`, where it stood over `high` and that is `shift` over `low`.
fn moved(standing: Standing, high: u32, low: u32, shift: &Timing) -> Result<Standing, Past>
    ensures moved { IfOk result (IsMoved high low shift.now standing) }
    ensures past { OnErr result ((standing.root ≡ high) × IsComposedPast standing.over shift.now) }
{
    if standing.root != high {
        return Ok(standing);
    }
    Ok(Standing {
        root: low,
        over: composed(standing.over, *shift)?,
        clock: standing.clock,
    })
}

/// A flow with its clock, where it has none yet, stands over `root` and that has this clock.
fn timed(standing: Standing, root: u32, clock: &Timing) -> Result<Standing, Past>
    ensures timed { IfOk result (IsTimed root clock.now standing) }
    ensures past { OnErr result ((standing.root ≡ root) × IsComposedPast standing.over clock.now) }
{
    if standing.root != root || standing.clock.is_some() {
        return Ok(standing);
    }
    Ok(Standing {
        root: standing.root,
        over: standing.over,
        clock: Some(composed(standing.over, *clock)?),
    })
}

/// Brings each of these flows that stands over `high` over `low`, where `high` is `shift` over `low`.
fn move_these(
    standings: &mut [Standing],
    flows: &[u32],
    high: u32,
    low: u32,
    shift: &Timing,
) -> Result<(), Past>
    requires flows { (x : ℕ) → Contains flows.now x → x < length standings.old }
    requires apart { high ≢ low }
    ensures changed { AreChanged (IsMoved high low shift.now) standings.old standings.new }
    ensures moved { OnOk result (HaveChanged (IsMoved high low shift.now) flows.now standings.old standings.new) }
    ensures past { OnErr result (IsOnePast high shift.now standings.old) }
{
    for flow in flows {
        let x = *flow as usize;
        standings[x] = moved(standings[x], high, low, shift)?;
    }
    Ok(())
}

/// Gives each of these flows that stands over `root` and has no clock yet its clock, from that of `root`.
fn time_these(
    standings: &mut [Standing],
    flows: &[u32],
    root: u32,
    clock: &Timing,
) -> Result<(), Past>
    requires flows { (x : ℕ) → Contains flows.now x → x < length standings.old }
    ensures changed { AreChanged (IsTimed root clock.now) standings.old standings.new }
    ensures timed { OnOk result (HaveChanged (IsTimed root clock.now) flows.now standings.old standings.new) }
    ensures past { OnErr result (IsOnePast root clock.now standings.old) }
{
    for flow in flows {
        let x = *flow as usize;
        standings[x] = timed(standings[x], root, clock)?;
    }
    Ok(())
}

/// Lists what is listed at `high` at `low` as well.
fn list_too(
    alloc: Global,
    lists: &mut Vec<Vec<u32>>,
    high: usize,
    low: usize,
) -> Result<(), AllocError>
    requires high { high < length lists.old.items }
    requires low { low < length lists.old.items }
    ensures { map vec_items lists.new.items ≡ (if is_ok result then joint_list high low (map vec_items lists.old.items) else map vec_items lists.old.items) }
{
    let more = Vec::from_slice(alloc, lists[high].as_slice())?;
    lists[low].extend_from_slice(more.as_slice())?;
    Ok(())
}

impl Standings {
    /// Each flow by itself.
    pub(crate) fn alone(alloc: Global, count: usize) -> Result<Standings, AllocError>
        requires { count < 2 ^ 32 }
        ensures count { IfOk result (λ standings. length standings ≡ count) }
        ensures solved { IfOk result (λ standings. IsSolved [] standings) }
    {
        let mut of = Vec::new(alloc);
        let mut lists = Vec::new(alloc);
        for x in 0..count {
            of.push(Standing {
                root: x as u32,
                over: same_clock(),
                clock: None,
            })?;
            lists.push(Vec::from_slice(alloc, &[x as u32])?)?;
        }
        Ok(Standings { of, lists })
    }

    /// Where all flows stand.
    pub(crate) fn as_slice(&self) -> &[Standing]
        ensures value { result.now ≡ self.now }
    {
        self.of.as_slice()
    }

    /// Where the flow stands.
    pub(crate) fn at(&self, x: usize) -> Standing
        requires { x < length self.now }
        ensures { result ≡ standing_at self.now x }
    {
        self.of[x]
    }

    /// Gives each flow over `root` that has no clock yet its clock, from that of `root`.
    pub(crate) fn time(&mut self, root: u32, clock: &Timing) -> Result<(), Past>
        requires { root < length self.old }
        ensures count { length self.new ≡ length self.old }
        ensures timed { OnOk result (AreTimed root clock.now self.old self.new) }
        ensures past { OnErr result (IsOnePast root clock.now self.old) }
    {
        time_these(
            &mut self.of,
            self.lists[root as usize].as_slice(),
            root,
            clock,
        )
    }

    /// Brings each flow over `high` over `low`, where `high` is `shift` over `low`.
    pub(crate) fn bring(
        &mut self,
        alloc: Global,
        high: u32,
        low: u32,
        shift: &Timing,
    ) -> Result<(), Refusal>
        requires high { high < length self.old }
        requires low { low < high }
        ensures moved { OnOk result ((length self.new ≡ length self.old) × AreMoved high low shift.now self.old self.new) }
        ensures refused { IfErr result (IsStuck (IsOnePast high shift.now self.old)) }
    {
        list_too(alloc, &mut self.lists, high as usize, low as usize)?;
        move_these(
            &mut self.of,
            self.lists[high as usize].as_slice(),
            high,
            low,
            shift,
        )?;
        self.lists[high as usize] = Vec::new(alloc);
        Ok(())
    }
}
