//! Whether entries of a table clash, told by one sort of their places in the hyperperiod.

ghost use Rattle.std.specs.Prelude.{◌+◌, ◌<◌, ◌^◌, ◌≤◌, ◌≡◌, ℕ, length, slice_index_or, IfOk, IfSome, MatchOption};
ghost use Rattle.std.specs.Bool.{OnTrue, OnFalse};
ghost use Rattle.prl_overlaps.specs.FirstClashes.{IsFirstClash};
ghost use Rattle.prl_overlaps.specs.Overlaps.{AreApart, AreShort, IsShort};
ghost use Rattle.prl_overlaps.specs.code.Spots.{lower, no_spot, spot_of, with_meeting, AreSorted, AreSpots, IsFirstMet, IsHighest, IsLeastMeeting, Meet, Meets, MeetsSome};

use crate::entries::Entry;
use std::alloc::{AllocError, Global};

/// Where an entry begins and ends, its beginning taken within the first hyperperiod.
#[derive(Clone, Copy)]
pub(crate) struct Spot {
    pub(crate) from: u64,
    pub(crate) to: u64,
    /// The number of the entry.
    pub(crate) entry: u64,
}

/// The spot of an entry.
fn spot_of(hyper: u64, k: u64, entry: Entry) -> Spot
    requires { IsShort hyper entry }
    ensures { result ≡ spot_of hyper k entry }
{
    let from = entry.at % hyper;
    Spot {
        from,
        to: from + entry.units,
        entry: k,
    }
}

/// The spots of the entries, in their order.
fn spots_of(alloc: Global, hyper: u64, entries: &[Entry]) -> Result<Vec<Spot>, AllocError>
    requires { AreShort hyper entries.now }
    ensures { IfOk result (λ spots. AreSpots hyper entries.now spots.items) }
{
    let mut spots = Vec::new(alloc);
    for (k, entry) in entries.iter().enumerate() {
        spots.push(spot_of(hyper, k as u64, *entry))?;
    }
    Ok(spots)
}

/// Puts the spots in the order of their beginnings.
fn sort(spots: &mut Vec<Spot>, hyper: u64, entries: &[Entry])
    requires { AreSpots hyper entries.now spots.old.items }
    ensures spots { AreSpots hyper entries.now spots.new.items }
    ensures sorted { AreSorted spots.new.items }
{
    let _ = hyper;
    let _ = entries;
    spots.sort_unstable_by_key(|spot| spot.from);
}

/// The highest end of the spots.
fn highest(spots: &[Spot]) -> u64
    ensures { IsHighest spots.now (length spots.now) result }
{
    let mut high = 0;
    for spot in spots {
        high = high.max(spot.to);
    }
    high
}

/// Whether the next spot begins before the one at this place ends.
fn meets_next(spots: &[Spot], p: usize) -> bool
    requires { p < length spots.now }
    ensures yes { OnTrue result ((p + 1 < length spots.now) × ((slice_index_or spots.now (p + 1) no_spot).from < (slice_index_or spots.now p no_spot).to)) }
    ensures no { OnFalse result (p + 1 < length spots.now → (slice_index_or spots.now p no_spot).to ≤ (slice_index_or spots.now (p + 1) no_spot).from) }
{
    if p + 1 == spots.len() {
        return false;
    }
    spots[p + 1].from < spots[p].to
}

/// Whether the spot at this place meets another one, where `before` is the highest end of those
/// before it and `high` that of all.
fn meets_some(
    spots: &[Spot],
    hyper: u64,
    entries: &[Entry],
    p: usize,
    before: u64,
    high: u64,
) -> bool
    requires short { AreShort hyper entries.now }
    requires spots { AreSpots hyper entries.now spots.now }
    requires sorted { AreSorted spots.now }
    requires place { p < length spots.now }
    requires before { IsHighest spots.now p before }
    requires high { IsHighest spots.now (length spots.now) high }
    ensures yes { OnTrue result (MeetsSome hyper spots.now p) }
    ensures no { OnFalse result (MeetsSome hyper spots.now p → ⊥) }
{
    let _ = entries;
    let spot = spots[p];
    if before > spot.from {
        return true;
    }
    if meets_next(spots, p) {
        return true;
    }
    if spots[0].from + hyper < spot.to {
        return true;
    }
    spot.from + hyper < high
}

/// The lower of two numbers, of which one may be missing.
fn lower(least: Option<u64>, number: u64) -> u64
    ensures { result ≡ lower least number }
{
    match least {
        None => number,
        Some(least) => least.min(number),
    }
}

/// The first entry so far that meets another one, with an entry that does or does not.
fn with_entry(least: Option<u64>, meets: bool, entry: u64) -> Option<u64>
    ensures { result ≡ with_meeting least meets entry }
{
    if meets {
        Some(lower(least, entry))
    } else {
        least
    }
}

/// The first entry whose spot meets another one.
fn first_meeting(spots: &[Spot], hyper: u64, entries: &[Entry]) -> Option<u64>
    requires short { AreShort hyper entries.now }
    requires spots { AreSpots hyper entries.now spots.now }
    requires sorted { AreSorted spots.now }
    ensures first { IsLeastMeeting hyper spots.now (length spots.now) result }
    ensures within { IfSome result (λ k. k < length entries.now) }
{
    let high = highest(spots);
    let mut before = 0;
    let mut least = None;
    for p in 0..spots.len() {
        let meets = meets_some(spots, hyper, entries, p, before, high);
        least = with_entry(least, meets, spots[p].entry);
        before = before.max(spots[p].to);
    }
    least
}

/// Whether two spots meet.
fn meets(hyper: u64, one: Spot, other: Spot) -> bool
    requires one { one.from + hyper < 2 ^ 64 }
    requires other { other.from + hyper < 2 ^ 64 }
    ensures yes { OnTrue result (Meets hyper one other) }
    ensures no { OnFalse result (Meets hyper one other → ⊥) }
{
    if one.from < other.to && other.from < one.to {
        return true;
    }
    one.from + hyper < other.to || other.from + hyper < one.to
}

/// Whether an entry meets another one.
fn meets_entry(hyper: u64, entries: &[Entry], k: u64, l: u64) -> bool
    requires short { AreShort hyper entries.now }
    requires one { k < length entries.now }
    requires other { l < length entries.now }
    ensures yes { OnTrue result (Meet hyper entries.now k l) }
    ensures no { OnFalse result (Meet hyper entries.now k l → ⊥) }
{
    if k == l {
        return false;
    }
    let one = spot_of(hyper, k, entries[k as usize]);
    let other = spot_of(hyper, l, entries[l as usize]);
    meets(hyper, one, other)
}

/// The first entry that an entry meets.
fn second_meeting(hyper: u64, entries: &[Entry], first: u64) -> u64
    requires short { AreShort hyper entries.now }
    requires some { (l : ℕ) × Meet hyper entries.now first l }
    ensures first { IsFirstMet hyper entries.now first result }
    ensures within { result < length entries.now }
{
    for k in 0..entries.len() {
        if meets_entry(hyper, entries, first, k as u64) {
            return k as u64;
        }
    }
    unreachable!()
}

/// The lines of the first of the entries, whose spots these are, that clashes with another one, and
/// of the first of those.
fn first_of_spots(hyper: u64, entries: &[Entry], spots: &[Spot]) -> Option<(u64, u64)>
    requires short { AreShort hyper entries.now }
    requires spots { AreSpots hyper entries.now spots.now }
    requires sorted { AreSorted spots.now }
    ensures { MatchOption result (AreApart hyper entries.now) (λ lines. IsFirstClash hyper entries.now lines.0 lines.1) }
{
    match first_meeting(spots, hyper, entries) {
        None => None,
        Some(first) => Some((first + 3, second_meeting(hyper, entries, first) + 3)),
    }
}

/// The lines of the first entry that clashes with another one, and of the first of those, where no
/// entry is longer than the hyperperiod.
pub fn first_clash(
    alloc: Global,
    hyper: u64,
    entries: &[Entry],
) -> Result<Option<(u64, u64)>, AllocError>
    requires { AreShort hyper entries.now }
    ensures { IfOk result (λ clash. MatchOption clash (AreApart hyper entries.now) (λ lines. IsFirstClash hyper entries.now lines.0 lines.1)) }
{
    let mut spots = spots_of(alloc, hyper, entries)?;
    sort(&mut spots, hyper, entries);
    Ok(first_of_spots(hyper, entries, &spots))
}
