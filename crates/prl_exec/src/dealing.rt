//! Seats dealt to workers and put back.

ghost use Rattle.std.specs.Prelude.{◌≡◌, ◌≢◌, ◌+◌, ◌%◌, ◌<◌, ◌≤◌, ℕ, [], IfOk, length, vec_capacity};
ghost use Rattle.prl_rule.specs.Known.{run_of};
ghost use Rattle.prl_board.specs.Lones.{AreSeatsOf};
ghost use Rattle.std.specs.Vec.{vec_items};
ghost use Rattle.prl_seats.specs.Boards.{BoardView};
ghost use Rattle.prl_exec.specs.code.Hands.{AreDealt, AreHeld, Has, HasOwn, KeepSeats};
ghost use Rattle.prl_exec.specs.code.Polls.{IsPut, IsTaken};

use prl_board::TaskSeat;
use std::alloc::{AllocError, Global};

/// Takes the seat out of a slot, if it is one's own.
fn take(slot: &mut Option<TaskSeat>, own: bool) -> Option<TaskSeat>
    ensures { IsTaken own slot.old slot.new result }
{
    if own { slot.take() } else { None }
}

/// Takes the seats of a worker's tasks.
fn deal(
    alloc: Global,
    all: &mut Vec<Option<TaskSeat>>,
    workers: u32,
    worker: u32,
) -> Result<Vec<Option<TaskSeat>>, AllocError>
    requires { 0 < workers }
    ensures held { IfOk result (λ own. (b : BoardView) → AreHeld b (vec_items all.old) → AreHeld b (vec_items all.new) × AreHeld b (vec_items own)) }
    ensures dealt { IfOk result (λ own. (i : ℕ) → i % workers ≡ worker → Has (vec_items all.old) i → Has (vec_items own) i) }
    ensures left { IfOk result (λ own. (i : ℕ) → i % workers ≢ worker → Has (vec_items all.old) i → Has (vec_items all.new) i) }
{
    let mut own = Vec::with_capacity(alloc, all.len())?;
    for i in 0..all.len() {
        let is_own = i % workers as usize == worker as usize;
        own.push(take(&mut all[i], is_own))?;
    }
    Ok(own)
}

/// Puts a seat into a slot, if there is one.
fn put(slot: &mut Option<TaskSeat>, seat: Option<TaskSeat>)
    ensures { IsPut slot.old seat slot.new }
{
    if seat.is_some() {
        *slot = seat;
    }
}

/// Puts seats back to others, by the numbers of their tasks.
pub(crate) fn put_back(all: &mut Vec<Option<TaskSeat>>, mut seats: Vec<Option<TaskSeat>>)
    requires { length (vec_items seats) ≡ length (vec_items all.old) }
    ensures held { (b : BoardView) → AreHeld b (vec_items all.old) → AreHeld b (vec_items seats) → AreHeld b (vec_items all.new) }
    ensures kept { KeepSeats (vec_items all.old) (vec_items all.new) }
    ensures put { KeepSeats (vec_items seats) (vec_items all.new) }
{
    for i in 0..all.len() {
        put(&mut all[i], seats[i].take());
    }
}

/// So many slots without a seat.
fn nones(alloc: Global, count: usize) -> Result<Vec<Option<TaskSeat>>, AllocError>
    ensures count { IfOk result (λ all. length (vec_items all) ≡ count) }
    ensures none { IfOk result (λ all. (i : ℕ) → Has (vec_items all) i → ⊥) }
{
    let mut all = Vec::with_capacity(alloc, count)?;
    for _ in 0..count {
        all.push(None)?;
    }
    Ok(all)
}

/// The seats by the numbers of their tasks.
fn slots(alloc: Global, mut seats: Vec<TaskSeat>) -> Result<Vec<Option<TaskSeat>>, AllocError>
    ensures held { IfOk result (λ all. (b : BoardView) → AreSeatsOf b (vec_items seats) → AreHeld b (vec_items all)) }
    ensures all { IfOk result (λ all. (i : ℕ) → i < length (vec_items seats) → Has (vec_items all) i) }
{
    let mut all = nones(alloc, seats.len())?;
    while let Some(seat) = seats.pop() {
        let i = seats.len();
        put(&mut all[i], Some(seat));
    }
    Ok(all)
}

/// The seats of all tasks, in their order, put where there is room for them.
pub(crate) fn collected(mut all: Vec<Option<TaskSeat>>, mut room: Vec<TaskSeat>) -> Vec<TaskSeat>
    requires room { (vec_items room ≡ []) × (length (vec_items all) ≤ vec_capacity room) }
    requires all { (i : ℕ) → i < length (vec_items all) → Has (vec_items all) i }
    ensures { (b : BoardView) → AreHeld b (vec_items all) → AreSeatsOf b (vec_items result) }
{
    for i in 0..all.len() {
        match all[i].take() {
            Some(seat) => room.push_reserved(seat),
            None => unreachable!(),
        }
    }
    room
}

/// Takes the seats of all workers' tasks from worker 1 on.
fn deal_all(
    alloc: Global,
    all: &mut Vec<Option<TaskSeat>>,
    workers: u32,
) -> Result<Vec<Vec<Option<TaskSeat>>>, AllocError>
    requires { 0 < workers }
    ensures count { IfOk result (λ hands. length (vec_items hands) + 1 ≡ workers) }
    ensures held { IfOk result (λ hands. (b : BoardView) → AreHeld b (vec_items all.old) → AreHeld b (vec_items all.new)) }
    ensures left { IfOk result (λ hands. (i : ℕ) → i % workers ≡ 0 → Has (vec_items all.old) i → Has (vec_items all.new) i) }
    ensures dealt { IfOk result (λ hands. (b : BoardView) → AreHeld b (vec_items all.old) → ((i : ℕ) → i < (run_of b.known).tasks → Has (vec_items all.old) i) →
        AreDealt (AreHeld b) (run_of b.known).tasks workers (vec_items hands)) }
{
    let mut hands = Vec::with_capacity(alloc, workers as usize)?;
    for worker in 1..workers {
        hands.push(deal(alloc, all, workers, worker)?)?;
    }
    Ok(hands)
}

/// Deals the seats: those of worker 0, those of each worker from worker 1 on, and room for all to
/// come back to.
pub(crate) fn dealt(
    alloc: Global,
    seats: Vec<TaskSeat>,
    workers: u32,
) -> Result<
    (
        Vec<Option<TaskSeat>>,
        Vec<Vec<Option<TaskSeat>>>,
        Vec<TaskSeat>,
    ),
    AllocError,
>
    requires { 0 < workers }
    ensures count { IfOk result (λ r. length (vec_items r.1) + 1 ≡ workers) }
    ensures own { IfOk result (λ r. (b : BoardView) → AreSeatsOf b (vec_items seats) → AreHeld b (vec_items r.0) × HasOwn (run_of b.known).tasks workers 0 (vec_items r.0)) }
    ensures hands { IfOk result (λ r. (b : BoardView) → AreSeatsOf b (vec_items seats) → AreDealt (AreHeld b) (run_of b.known).tasks workers (vec_items r.1)) }
    ensures room { IfOk result (λ r. (vec_items r.2 ≡ []) × (length (vec_items seats) ≤ vec_capacity r.2)) }
{
    let room = Vec::with_capacity(alloc, seats.len())?;
    let mut own = slots(alloc, seats)?;
    let hands = deal_all(alloc, &mut own, workers)?;
    Ok((own, hands, room))
}
