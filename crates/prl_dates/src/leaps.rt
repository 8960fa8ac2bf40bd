//! Rounds that repeat: where the rounds since some table raised the bests by so much, and no link stands in the way, the same
//! rounds follow again, and each raises by as much.

ghost use Rattle.std.specs.Prelude.{◌≡◌, ◌+◌, ◌-◌, ◌*◌, ◌<◌, ◌≤◌, ◌^◌, ℕ, List, length, slice_index, true, OnOk, IfOk};
ghost use Rattle.prl_plan.specs.Graphs.{IsWellFormed, jobs_in_hyperperiod};
ghost use Rattle.prl_plan.specs.Jobs.{task_at};
ghost use Rattle.prl_plan.specs.declared.limits.TheConstants.{MAX_PERIOD_JOBS};
ghost use Rattle.prl_dates.specs.declared.lanes.Lane.{Lane};
ghost use Rattle.prl_dates.specs.code.Families.{AreBests};
ghost use Rattle.prl_dates.specs.code.Indices.{dates_of};
ghost use Rattle.prl_dates.specs.code.Lanes.{link_at, IsLane, AreLanes, AreEachLane};
ghost use Rattle.prl_dates.specs.code.Exits.{AreExits};
ghost use Rattle.prl_dates.specs.code.Leaps.{RepeatsAlong, MayRepeat};
ghost use Rattle.prl_dates.specs.code.Tables.{AreRound, AreRounds, AreSettled, AreWithin};

use crate::exits::{Exits, exits_of};
use crate::lanes::Lane;
use crate::numbers::wcet_of;
use crate::rounds::{Changed, MANY, advance, all_changed};
use prl_plan::TaskGraph;
use std::alloc::{AllocError, Global};

/// A table that the rounds went through.
#[derive(Drop)]
struct Past {
    table: Vec<u64>,
    /// How many rounds lead to it.
    rounds: u64,
    /// After how many rounds more another one takes its place.
    span: u64,
}

/// How often the rounds between the tables may come again over link `k` of the lane; at most so often.
fn repeats_along(lane: &Lane, k: usize, wcet: u32, past: &[u64], now: &[u64], most: u64) -> u64
    requires place { k < length lane.now.links }
    requires from { (link_at lane.now k).from < length now.now }
    requires to { lane.now.first + k < length now.now }
    requires gap { (link_at lane.now k).gap < 2 ^ 63 + 2 ^ 62 }
    requires same { length past.now ≡ length now.now }
    requires up { (q : ℕ) → slice_index past.now q ≤ slice_index now.now q }
    requires small { AreWithin now.now (2 ^ 62) }
    ensures most { result ≤ most }
    ensures repeats { 1 ≤ result → RepeatsAlong lane.now wcet past.now now.now result k }
{
    let link = lane.links.as_slice()[k];
    let from = link.from as usize;
    let to = lane.first as usize + k;
    let gain = now[from] - past[from];
    let kept = now[to] - past[to];
    let asked = now[from] + u64::from(wcet);
    let limit = past[to] + link.gap;
    if gain == kept {
        return most;
    }
    if asked > limit {
        return 0;
    }
    if gain < kept {
        return most;
    }
    most.min((limit - asked) / (gain - kept))
}

/// How often they may come again over the lane; at most so often.
fn repeats_over(lane: &Lane, wcet: u32, past: &[u64], now: &[u64], most: u64) -> u64
    requires from { (k : ℕ) → k < length lane.now.links → (link_at lane.now k).from < length now.now }
    requires to { lane.now.first + length lane.now.links ≤ length now.now }
    requires gap { (k : ℕ) → (link_at lane.now k).gap < 2 ^ 63 + 2 ^ 62 }
    requires same { length past.now ≡ length now.now }
    requires up { (q : ℕ) → slice_index past.now q ≤ slice_index now.now q }
    requires small { AreWithin now.now (2 ^ 62) }
    ensures most { result ≤ most }
    ensures repeats { 1 ≤ result → (k : ℕ) → k < length lane.now.links → RepeatsAlong lane.now wcet past.now now.now result k }
{
    let mut times = most;
    for k in 0..lane.links.len() {
        times = repeats_along(lane, k, wcet, past, now, times);
        if times == 0 {
            return 0;
        }
    }
    times
}

/// How often they may come again; at most so often.
fn repeats(graph: &TaskGraph, lanes: &[Lane], past: &[u64], now: &[u64], most: u64) -> u64
    requires well { IsWellFormed graph.now }
    requires lanes { AreEachLane graph.now lanes.now }
    requires long { length now.now ≡ jobs_in_hyperperiod graph.now }
    requires same { length past.now ≡ length now.now }
    requires up { (q : ℕ) → slice_index past.now q ≤ slice_index now.now q }
    requires small { AreWithin now.now (2 ^ 62) }
    ensures most { result ≤ most }
    ensures repeats { 1 ≤ result → MayRepeat graph.now lanes.now (length lanes.now) past.now now.now result }
{
    let mut times = most;
    for l in 0..lanes.len() {
        let lane = &lanes[l];
        times = repeats_over(lane, wcet_of(graph, lane.to), past, now, times);
        if times == 0 {
            return 0;
        }
    }
    times
}

/// Raises each best so often by as much as it rose since.
fn raise_times(past: &[u64], now: &mut [u64], times: u64)
    requires same { length past.now ≡ length now.old }
    requires up { (q : ℕ) → slice_index past.now q ≤ slice_index now.old q }
    requires small { AreWithin now.old (2 ^ 46) }
    requires few { times ≤ MAX_PERIOD_JOBS }
    ensures long { length now.new ≡ length now.old }
    ensures each { (q : ℕ) → slice_index now.new q ≡ slice_index now.old q + times * (slice_index now.old q - slice_index past.now q) }
{
    for q in 0..now.len() {
        now[q] += times * (now[q] - past[q]);
    }
}

/// Goes on by the rounds since the past table, as often as they may come again within so many rounds; how many rounds that
/// were.
fn leap(
    graph: &TaskGraph,
    lanes: &[Lane],
    past: &[u64],
    rounds: u64,
    now: &mut [u64],
    next: &mut [u64],
    most: u64,
) -> u64
    requires well { IsWellFormed graph.now }
    requires lanes { AreEachLane graph.now lanes.now }
    requires long { length now.old ≡ jobs_in_hyperperiod graph.now }
    requires some { 1 ≤ rounds }
    requires rounds { AreRounds graph.now lanes.now rounds past.now now.old }
    requires small { AreWithin now.old (2 ^ 46) }
    requires few { most ≤ MAX_PERIOD_JOBS }
    requires copy { next.old ≡ now.old }
    ensures most { result ≤ most }
    ensures rounds { AreRounds graph.now lanes.now result now.old now.new }
    ensures copy { next.new ≡ now.new }
    ensures settled { (risen : List ℕ) → AreSettled graph.now lanes.now risen now.old → AreSettled graph.now lanes.now risen now.new }
{
    let times = repeats(graph, lanes, past, now, most / rounds);
    if times == 0 {
        return 0;
    }
    raise_times(past, now, times);
    next.copy_from_slice(now);
    times * rounds
}

/// Goes on by rounds that repeat, where many bests rose; how many rounds there are then.
fn look_back(
    graph: &TaskGraph,
    lanes: &[Lane],
    past: &mut Past,
    now: &mut [u64],
    next: &mut [u64],
    count: u64,
    most: u64,
) -> u64
    requires well { IsWellFormed graph.now }
    requires lanes { AreEachLane graph.now lanes.now }
    requires long { length now.old ≡ jobs_in_hyperperiod graph.now }
    requires later { past.old.rounds < count }
    requires rounds { AreRounds graph.now lanes.now (count - past.old.rounds) past.old.table.items now.old }
    requires small { AreWithin now.old (2 ^ 46) }
    requires within { count ≤ most }
    requires few { most ≤ MAX_PERIOD_JOBS }
    requires copy { next.old ≡ now.old }
    ensures within { (count ≤ result) × (result ≤ most) }
    ensures rounds { AreRounds graph.now lanes.now (result - count) now.old now.new }
    ensures copy { next.new ≡ now.new }
    ensures settled { (risen : List ℕ) → AreSettled graph.now lanes.now risen now.old → AreSettled graph.now lanes.now risen now.new }
    ensures past { (past.new.rounds ≤ result) × AreRounds graph.now lanes.now (result - past.new.rounds) past.new.table.items now.new }
{
    let since = count - past.rounds;
    let more = leap(
        graph,
        lanes,
        past.table.as_slice(),
        since,
        now,
        next,
        most - count,
    );
    if more > 0 {
        past.span = 1;
    } else if since >= past.span {
        past.span = past.span.saturating_mul(2);
    } else {
        return count;
    }
    past.table.as_mut_slice().copy_from_slice(now);
    past.rounds = count + more;
    count + more
}

/// Rounds until one changes nothing, at most so many; whether one changed nothing.
fn rounds_over(
    graph: &TaskGraph,
    lanes: &[Lane],
    exits: &Exits,
    rises: &mut Changed,
    past: &mut Past,
    now: &mut [u64],
    next: &mut [u64],
    most: u64,
) -> Result<bool, AllocError>
    requires well { IsWellFormed graph.now }
    requires lanes { AreLanes graph.now lanes.now }
    requires exits { AreExits graph.now lanes.now exits.now }
    requires long { length now.old ≡ jobs_in_hyperperiod graph.now }
    requires few { most ≤ MAX_PERIOD_JOBS }
    requires within { AreWithin now.old (2 ^ 31) }
    requires settled { AreSettled graph.now lanes.now rises.old.last.items now.old }
    requires copy { next.old ≡ now.old }
    requires past { (past.old.rounds ≡ 0) × (past.old.table.items ≡ now.old) }
    requires bests { AreBests graph.now 0 (dates_of graph.now now.old) }
    ensures bests { OnOk result (AreBests graph.now most (dates_of graph.now now.new)) }
    ensures still { IfOk result (λ still. still ≡ true → AreRound graph.now lanes.now (length lanes.now) now.new now.new) }
    ensures long { OnOk result (length now.new ≡ length now.old) }
    ensures within { OnOk result (AreWithin now.new ((most + 1) * 2 ^ 31)) }
    ensures copy { OnOk result (next.new ≡ now.new) }
{
    let mut count = 0;
    while count < most {
        if advance(graph, lanes, exits, rises, now, next)? {
            return Ok(true);
        }
        count += 1;
        if rises.last.len() >= now.len() / MANY {
            count = look_back(graph, lanes, past, now, next, count, most);
        }
    }
    Ok(false)
}

/// The same, with room for what it keeps.
pub(crate) fn rounds(
    alloc: Global,
    graph: &TaskGraph,
    lanes: &[Lane],
    now: &mut [u64],
    next: &mut [u64],
    most: u64,
) -> Result<bool, AllocError>
    requires well { IsWellFormed graph.now }
    requires lanes { AreLanes graph.now lanes.now }
    requires long { length now.old ≡ jobs_in_hyperperiod graph.now }
    requires few { most ≤ MAX_PERIOD_JOBS }
    requires within { AreWithin now.old (2 ^ 31) }
    requires copy { next.old ≡ now.old }
    requires bests { AreBests graph.now 0 (dates_of graph.now now.old) }
    ensures bests { OnOk result (AreBests graph.now most (dates_of graph.now now.new)) }
    ensures still { IfOk result (λ still. still ≡ true → AreRound graph.now lanes.now (length lanes.now) now.new now.new) }
    ensures long { OnOk result (length now.new ≡ length now.old) }
    ensures within { OnOk result (AreWithin now.new ((most + 1) * 2 ^ 31)) }
    ensures copy { OnOk result (next.new ≡ now.new) }
{
    let exits = exits_of(alloc, graph, lanes)?;
    let mut rises = all_changed(alloc, now.len())?;
    let mut past = Past {
        table: now.to_vec(alloc)?,
        rounds: 0,
        span: 1,
    };
    rounds_over(graph, lanes, &exits, &mut rises, &mut past, now, next, most)
}
