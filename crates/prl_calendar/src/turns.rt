//! The next date of each kind of clocks, the earliest first.

ghost use Rattle.std.specs.Prelude.{◌≡◌, ◌<◌, ◌≤◌, ◌^◌, ◌-◌, ℕ, [], ◌∷◌, true, get_or, length, OnOk, IfOk, IfSome, IfNone};
ghost use Rattle.std.specs.BinaryHeap.{heap_items, IsHeap};
ghost use Rattle.std.specs.List.{All, Contains};
ghost use Rattle.std.specs.List.Sorted.{IsNonDecreasingBy, IsPermutation};
ghost use Rattle.prl_calendar.specs.Calendars.{AreAllClocks};
ghost use Rattle.prl_calendar.specs.Kinds.{AreFirsts, AreFollowing};
ghost use Rattle.prl_calendar.specs.Turns.{AreTurning, AreTurns, HasTurned, Turn as AnyTurn, date_after, date_of, last, place_of, turn_order};

use crate::kinds::add_kind;
use prl_base::Clock;
use std::alloc::{AllocError, Global};
use std::cmp::Reverse;
use std::collections::{BinaryHeap, VecDeque};
use std::marker::Model;

/// A date of a kind of clocks, and the place of the kind's first clock. The earlier date is the
/// greater.
type Turn = Reverse<(u64, u32)>;

/// The next date of each kind of clocks. Contracts see the list of the turns, in any order.
#[derive(Drop)]
pub(crate) struct Turns {
    /// The period of the clocks whose turns may wait in the queue.
    period: u64,
    /// Turns in the order of their dates.
    queue: VecDeque<Turn>,
    /// The other turns.
    heap: BinaryHeap<Turn>,
}

impl Model for Turns {
    ghost use Rattle.std.specs.Prelude.{List, ◌++◌};
    ghost use Rattle.std.specs.BinaryHeap.{heap_items, IsHeap};
    ghost use Rattle.std.specs.List.Sorted.{IsNonDecreasingBy};
    ghost use Rattle.prl_calendar.specs.Turns.{Turn, date_of, turn_order};

    ghost Value = { List Turn };

    ghost view = { λ t. t.queue.items ++ heap_items t.heap };

    ghost invariant = { λ t. IsNonDecreasingBy date_of t.queue.items × IsHeap turn_order (heap_items t.heap) };
}

impl Turns {
    /// No turns, with room for so many; those of clocks of this period may wait in the queue.
    fn new(alloc: Global, count: usize, period: u64) -> Result<Turns, AllocError>
        ensures { IfOk result (λ turns. turns ≡ []) }
    {
        let queue = VecDeque::with_capacity(alloc, count)?;
        let heap = BinaryHeap::with_capacity(alloc, count)?;
        Ok(Turns {
            period,
            queue,
            heap,
        })
    }

    /// Adds a turn of a clock of this period.
    fn push(&mut self, date: u64, first: u32, period: u64) -> Result<(), AllocError>
        ensures { OnOk result (IsPermutation (record { 0 = (date, first) } ∷ self.old) self.new) }
    {
        if period == self.period && are_by(&self.queue, date) {
            self.queue.push_back(Reverse((date, first)))?;
        } else {
            self.heap.push(Reverse((date, first)))?;
        }
        Ok(())
    }

    /// Takes a turn out whose date is this one, where none is earlier.
    fn take(&mut self, date: u64) -> Option<u32>
        requires { All (λ e. date ≤ date_of e) self.old }
        ensures some { IfSome result (λ first. IsPermutation self.old (record { 0 = (date, first) } ∷ self.new)) }
        ensures none { IfNone result (All (λ e. date < date_of e) self.old) }
        ensures same { IfNone result (self.new ≡ self.old) }
    {
        if let Some(first) = take_first(&mut self.queue, date) {
            return Some(first);
        }
        take_top(&mut self.heap, date)
    }

    /// The next date of all.
    fn next_date(&self) -> Option<u64>
        ensures all { IfSome result (λ t. All (λ e. t ≤ date_of e) self.now) }
        ensures there { IfSome result (λ t. (h : ℕ) × Contains self.now (record { 0 = (t, h) })) }
        ensures none { IfNone result (self.now ≡ []) }
    {
        let Some(first) = first_date(&self.queue) else {
            return top_date(&self.heap);
        };
        let Some(top) = top_date(&self.heap) else {
            return Some(first);
        };
        if top < first { Some(top) } else { Some(first) }
    }
}

/// Whether all turns of the queue are at the date or earlier.
fn are_by(queue: &VecDeque<Turn>, date: u64) -> bool
    ensures { result ≡ true → (d : AnyTurn) → 0 < length queue.now.items → date_of (get_or queue.now.items (length queue.now.items - 1) d) ≤ date }
{
    match queue.back() {
        Some(Reverse((last, _))) => *last <= date,
        None => true,
    }
}

/// The date of the queue's first turn.
fn first_date(queue: &VecDeque<Turn>) -> Option<u64>
    requires { IsNonDecreasingBy date_of queue.now.items }
    ensures all { IfSome result (λ t. All (λ e. t ≤ date_of e) queue.now.items) }
    ensures there { IfSome result (λ t. (h : ℕ) × Contains queue.now.items (record { 0 = (t, h) })) }
    ensures none { IfNone result (queue.now.items ≡ []) }
{
    match queue.front() {
        Some(Reverse((date, _))) => Some(*date),
        None => None,
    }
}

/// The date of the heap's greatest turn.
fn top_date(heap: &BinaryHeap<Turn>) -> Option<u64>
    requires { IsHeap turn_order (heap_items heap.now) }
    ensures all { IfSome result (λ t. All (λ e. t ≤ date_of e) (heap_items heap.now)) }
    ensures there { IfSome result (λ t. (h : ℕ) × Contains (heap_items heap.now) (record { 0 = (t, h) })) }
    ensures none { IfNone result (heap_items heap.now ≡ []) }
{
    match heap.peek() {
        Some(Reverse((date, _))) => Some(*date),
        None => None,
    }
}

/// Takes the queue's first turn out if its date is this one, where none is earlier.
fn take_first(queue: &mut VecDeque<Turn>, date: u64) -> Option<u32>
    requires order { IsNonDecreasingBy date_of queue.old.items }
    requires late { All (λ e. date ≤ date_of e) queue.old.items }
    ensures order { IsNonDecreasingBy date_of queue.new.items }
    ensures some { IfSome result (λ first. queue.old.items ≡ record { 0 = (date, first) } ∷ queue.new.items) }
    ensures none { IfNone result (All (λ e. date < date_of e) queue.old.items) }
    ensures same { IfNone result (queue.new.items ≡ queue.old.items) }
{
    match first_date(queue) {
        Some(first) if first == date => {}
        _ => return None,
    }
    let Reverse((_, first)) = queue.pop_front()?;
    Some(first)
}

/// Takes the heap's greatest turn out if its date is this one, where none is earlier.
fn take_top(heap: &mut BinaryHeap<Turn>, date: u64) -> Option<u32>
    requires heap { IsHeap turn_order (heap_items heap.old) }
    requires late { All (λ e. date ≤ date_of e) (heap_items heap.old) }
    ensures heap { IsHeap turn_order (heap_items heap.new) }
    ensures some { IfSome result (λ first. IsPermutation (heap_items heap.old) (record { 0 = (date, first) } ∷ heap_items heap.new)) }
    ensures none { IfNone result (All (λ e. date < date_of e) (heap_items heap.old)) }
    ensures same { IfNone result (heap_items heap.new ≡ heap_items heap.old) }
{
    match top_date(heap) {
        Some(top) if top == date => {}
        _ => return None,
    }
    let Reverse((_, first)) = heap.pop()?;
    Some(first)
}

/// The shortest period of the clocks.
fn shortest_period(clocks: &[Clock]) -> u64 {
    let mut shortest = u64::MAX;
    for clock in clocks {
        shortest = shortest.min(clock.period);
    }
    shortest
}

/// The first dates of the kinds whose first clocks are at these places.
pub(crate) fn first_turns(
    alloc: Global,
    clocks: &[Clock],
    firsts: &[u32],
) -> Result<Turns, AllocError>
    requires { AreFirsts clocks.now (length clocks.now) firsts.now }
    ensures { IfOk result (λ turns. AreTurns clocks.now last 0 turns) }
{
    let mut turns = Turns::new(alloc, firsts.len(), shortest_period(clocks))?;
    for first in firsts {
        let clock = clocks[*first as usize];
        turns.push(clock.start, *first, clock.period)?;
    }
    Ok(turns)
}

/// The date of the clock at this place that comes after this one, or the greatest number.
fn date_after(clocks: &[Clock], first: u32, date: u64) -> u64
    requires { first < length clocks.now }
    ensures { result ≡ date_after clocks.now first date }
{
    date.saturating_add(clocks[first as usize].period)
}

/// Where the next date is this one, moves that turn to the next date of its kind, and gives the
/// place of the kind's first clock.
fn turn(clocks: &[Clock], turns: &mut Turns, date: u64) -> Result<Option<u32>, AllocError>
    requires places { All (λ e. place_of e < length clocks.now) turns.old }
    requires late { All (λ e. date ≤ date_of e) turns.old }
    ensures some { IfOk result (λ r. IfSome r (λ first. HasTurned clocks.now date first turns.old turns.new)) }
    ensures none { IfOk result (λ r. IfNone r (All (λ e. date < date_of e) turns.old)) }
    ensures same { IfOk result (λ r. IfNone r (turns.new ≡ turns.old)) }
{
    let Some(first) = turns.take(date) else {
        return Ok(None);
    };
    let later = date_after(clocks, first, date);
    turns.push(later, first, clocks[first as usize].period)?;
    Ok(Some(first))
}

/// The next date of all, where it is before this one.
pub(crate) fn next_before(turns: &Turns, until: u64) -> Option<u64>
    ensures all { IfSome result (λ t. All (λ e. t ≤ date_of e) turns.now) }
    ensures there { IfSome result (λ t. (h : ℕ) × Contains turns.now (record { 0 = (t, h) })) }
    ensures before { IfSome result (λ t. t < until) }
    ensures none { IfNone result (All (λ e. until ≤ date_of e) turns.now) }
{
    match turns.next_date() {
        Some(date) if date < until => Some(date),
        _ => None,
    }
}

/// Moves all turns of the date on, and adds the places of their clocks.
pub(crate) fn take_due(
    clocks: &[Clock],
    following: &[u32],
    turns: &mut Turns,
    date: u64,
    due: &mut Vec<u32>,
) -> Result<(), AllocError>
    requires few { length clocks.now < 2 ^ 32 }
    requires periods { AreAllClocks clocks.now }
    requires chains { AreFollowing clocks.now following.now }
    requires turning { AreTurning clocks.now last date turns.old due.old.items }
    requires before { date < last }
    ensures turning { OnOk result (AreTurning clocks.now last date turns.new due.new.items) }
    ensures over { OnOk result (All (λ e. date < date_of e) turns.new) }
{
    while let Some(first) = turn(clocks, turns, date)? {
        add_kind(clocks, following, first, due)?;
    }
    Ok(())
}
