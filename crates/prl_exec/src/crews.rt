//! Workers on threads of their own.

ghost use Rattle.std.specs.Prelude.{◌≡◌, ◌+◌, ◌-◌, ◌^◌, ◌<◌, ◌≤◌, ℕ, MatchResult, length};
ghost use Rattle.std.specs.Vec.{vec_items};
ghost use Rattle.prl_exec.specs.code.Hands.{AreDealt, HasOwn, KeepSeats};

use crate::workers::Hand;
use prl_board::{ClockSeat, TaskSeat};
use std::sync::Wait;
use std::sync::atomic::{AtomicBool, Ordering};
use std::thread;
use std::thread::{Promise, PromisedHandle, Scope, Threads};

/// What workers serve: seats, which they give back.
pub(crate) trait Crew: Sync {
    ghost use Rattle.std.specs.Prelude.{ℕ, List, Option};
    ghost use Rattle.prl_seats.specs.JobSeats.{JobSeatView};
    ghost use Rattle.prl_board.specs.ClockSeats.{ClockSeatView};

    /// How many tasks there are.
    ghost tasks: { Self → ℕ };

    /// The seats are of the crew's board.
    ghost holds: { Self → List (Option JobSeatView) → Type 0 };

    /// The clock's seat is.
    ghost ticks: { Self → ClockSeatView → Type 0 };

    /// A worker beside the one that leads begins.
    fn begin(&self);

    /// Runs the jobs of the tasks whose seats are there.
    fn serve<R: Wait>(&self, rt: &R, seats: Vec<Option<TaskSeat>>) -> Hand
        requires { holds self.now (vec_items seats) }
        ensures held { holds self.entry.now (vec_items result.seats) }
        ensures kept { KeepSeats (vec_items seats) (vec_items result.seats) };

    /// Does so, and the clock ticks meanwhile.
    fn lead<R: Wait>(
        &self,
        rt: &R,
        seats: Vec<Option<TaskSeat>>,
        clock: ClockSeat,
    ) -> (Hand, ClockSeat)
        requires seats { holds self.now (vec_items seats) }
        requires clock { ticks self.now clock }
        ensures held { holds self.entry.now (vec_items result.0.seats) }
        ensures kept { KeepSeats (vec_items seats) (vec_items result.0.seats) }
        ensures clock { ticks self.entry.now result.1 };

    /// Puts seats back to others.
    fn put_back(&self, all: &mut Vec<Option<TaskSeat>>, seats: Vec<Option<TaskSeat>>)
        requires all { holds self.now (vec_items all.old) }
        requires seats { holds self.now (vec_items seats) }
        ensures held { holds self.entry.now (vec_items all.new) }
        ensures kept { KeepSeats (vec_items all.old) (vec_items all.new) }
        ensures put { KeepSeats (vec_items seats) (vec_items all.new) };
}

/// That a worker gives its seats back.
#[derive(Drop)]
pub(crate) struct GivesBack<'s, S> {
    crew: &'s S,
    workers: u32,
    worker: u32,
}

impl<'s, S: Crew> Promise<Hand> for GivesBack<'s, S> {
    ghost use Rattle.std.specs.Vec.{vec_items};
    ghost use Rattle.prl_exec.specs.code.Hands.{HasOwn};

    ghost kept_by = { λ p hand. S.holds p.crew.now (vec_items hand.seats) × HasOwn (S.tasks p.crew.now) p.workers p.worker (vec_items hand.seats) };
}

/// Starts a worker. Where no thread can be made, it gives its seats back at once.
pub(crate) fn start<'s, E, S: Crew, R: Wait + Sync>(
    scope: &Scope<'s, E>,
    rt: &'s R,
    crew: &'s S,
    unserved: &'s AtomicBool,
    workers: u32,
    worker: u32,
    seats: Vec<Option<TaskSeat>>,
) -> Result<PromisedHandle<Hand, GivesBack<'s, S>>, Hand>
    requires held { S.holds crew.now (vec_items seats) }
    requires own { HasOwn (S.tasks crew.now) workers worker (vec_items seats) }
    ensures { MatchResult result
        (λ child. (child.promise.crew.now ≡ crew.entry.now) × (child.promise.workers ≡ workers) × (child.promise.worker ≡ worker))
        (λ hand. S.holds crew.entry.now (vec_items hand.seats) × HasOwn (S.tasks crew.entry.now) workers worker (vec_items hand.seats)) }
{
    let promise = GivesBack {
        crew,
        workers,
        worker,
    };
    let started = scope.spawn_with(
        promise,
        move || -> Hand
            requires { S.holds crew.now (vec_items seats) }
            ensures { S.holds crew.entry.now (vec_items result.seats) × KeepSeats (vec_items seats) (vec_items result.seats) }
        {
            crew.begin();
            if unserved.load(Ordering::SeqCst) {
                Hand::new(seats, None)
            } else {
                crew.serve(rt, seats)
            }
        },
    );
    match started {
        Ok(child) => Ok(child),
        Err(refused) => {
            unserved.store(true, Ordering::SeqCst);
            Err((refused.value)())
        }
    }
}

/// What comes back of workers: the seats, the clock's seat, and the task that an overrun was met
/// of.
#[derive(Drop)]
pub(crate) struct Served {
    pub(crate) hand: Hand,
    pub(crate) clock: ClockSeat,
}

/// Starts the last of these workers and then those before it, leads, and joins them; each puts its
/// seats back.
fn serve_down<'s, E, S: Crew, R: Threads + Wait + Sync>(
    scope: &Scope<'s, E>,
    rt: &'s R,
    crew: &'s S,
    unserved: &'s [AtomicBool],
    workers: u32,
    mut hands: Vec<Vec<Option<TaskSeat>>>,
    mut own: Vec<Option<TaskSeat>>,
    clock: ClockSeat,
) -> Served
    requires own { S.holds crew.now (vec_items own) }
    requires clock { S.ticks crew.now clock }
    requires hands { AreDealt (S.holds crew.now) (S.tasks crew.now) workers (vec_items hands) }
    requires flags { (length (vec_items hands) ≤ length unserved.now) × (length (vec_items hands) < 2 ^ 32 - 1) }
    ensures held { S.holds crew.entry.now (vec_items result.hand.seats) }
    ensures clock { S.ticks crew.entry.now result.clock }
    ensures kept { KeepSeats (vec_items own) (vec_items result.hand.seats) }
    ensures back { (v : ℕ) → v < length (vec_items hands) → HasOwn (S.tasks crew.entry.now) workers (v + 1) (vec_items result.hand.seats) }
{
    let Some(seats) = hands.pop() else {
        let (hand, clock) = crew.lead(rt, own, clock);
        return Served { hand, clock };
    };
    let before = hands.len();
    match start(
        scope,
        rt,
        crew,
        &unserved[before],
        workers,
        before as u32 + 1,
        seats,
    ) {
        Ok(child) => {
            let mut served = serve_down(scope, rt, crew, unserved, workers, hands, own, clock);
            let hand = child.join(rt);
            crew.put_back(&mut served.hand.seats, hand.seats);
            served.hand.overrun = served.hand.overrun.or(hand.overrun);
            served
        }
        Err(hand) => {
            crew.put_back(&mut own, hand.seats);
            serve_down(scope, rt, crew, unserved, workers, hands, own, clock)
        }
    }
}

/// Workers serve on threads of their own, and the caller leads; then all seats are back.
pub(crate) fn serve_all<S: Crew, R: Threads + Wait + Sync>(
    rt: &R,
    crew: &S,
    unserved: &[AtomicBool],
    workers: u32,
    hands: Vec<Vec<Option<TaskSeat>>>,
    own: Vec<Option<TaskSeat>>,
    clock: ClockSeat,
) -> Served
    requires own { S.holds crew.now (vec_items own) }
    requires clock { S.ticks crew.now clock }
    requires hands { AreDealt (S.holds crew.now) (S.tasks crew.now) workers (vec_items hands) }
    requires flags { (length (vec_items hands) ≤ length unserved.now) × (length (vec_items hands) < 2 ^ 32 - 1) }
    ensures held { S.holds crew.entry.now (vec_items result.hand.seats) }
    ensures clock { S.ticks crew.entry.now result.clock }
    ensures kept { KeepSeats (vec_items own) (vec_items result.hand.seats) }
    ensures back { (v : ℕ) → v < length (vec_items hands) → HasOwn (S.tasks crew.entry.now) workers (v + 1) (vec_items result.hand.seats) }
{
    thread::scope(
        thread::scope_env(),
        rt,
        |scope| -> Served
            requires own { S.holds crew.now (vec_items own) }
            requires clock { S.ticks crew.now clock }
            requires hands { AreDealt (S.holds crew.now) (S.tasks crew.now) workers (vec_items hands) }
            requires flags { (length (vec_items hands) ≤ length unserved.now) × (length (vec_items hands) < 2 ^ 32 - 1) }
            ensures held { S.holds crew.entry.now (vec_items result.hand.seats) }
            ensures clock { S.ticks crew.entry.now result.clock }
            ensures kept { KeepSeats (vec_items own) (vec_items result.hand.seats) }
            ensures back { (v : ℕ) → v < length (vec_items hands) → HasOwn (S.tasks crew.entry.now) workers (v + 1) (vec_items result.hand.seats) }
        { serve_down(scope, rt, crew, unserved, workers, hands, own, clock) },
    )
}
