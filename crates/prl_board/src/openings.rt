//! The opening of a board: all memory of a run is taken here.

ghost use Rattle.std.specs.Prelude.{◌≡◌, length, IfOk};
ghost use Rattle.std.specs.Vec.{vec_items};
ghost use Rattle.prl_plan.specs.Horizons.{IsHorizon};
ghost use Rattle.prl_values.specs.Fitting.{HaveTaskBodies, HaveTypedRows};
ghost use Rattle.prl_rule.specs.Known.{known, run_of};
ghost use Rattle.prl_board.specs.Openings.{AreFirstSeats, AreLeft, IsFirstClockOf};

use crate::clocks::ClockSeat;
use crate::seats::TaskSeat;
use prl_base::TaskNo;
use prl_body::Bodies;
use prl_flow::Sensors;
use prl_plan::{Horizon, Plan};
use prl_rule::Gate;
use prl_seats::{Board, Seat, zeros};
use std::alloc::{AllocError, Global};

/// The seats of all tasks, in the order of tasks, whose parts they take from this one.
fn task_seats(alloc: Global, board: &Board, seat: &mut Seat) -> Result<Vec<TaskSeat>, AllocError>
    requires table { seat.old.table_id ≡ board.now.table }
    requires parts { AreLeft board.now.known 0 seat.old.me.0 }
    ensures same { (seat.new.table_id ≡ seat.old.table_id) × (seat.new.me.1 ≡ seat.old.me.1) }
    ensures left { IfOk result (λ _. AreLeft board.now.known (run_of board.now.known).tasks seat.new.me.0) }
    ensures seats { IfOk result (λ seats. AreFirstSeats board.now (vec_items seats)) }
{
    let mut seats = Vec::new(alloc);
    for i in 0..board.tasks() {
        let own = board.split(seat, TaskNo(i));
        seats.push(TaskSeat::first(alloc, board, own, TaskNo(i))?)?;
    }
    Ok(seats)
}

/// The board of a run at its opening, with a seat for each task, in their order, and the clock's seat: `now` is 0, no job has
/// begun, and every cell is empty. What follows takes no memory.
pub fn open_board<'a>(
    alloc: Global,
    plan: &'a Plan,
    bodies: &'a Bodies,
    sensors: &'a Sensors,
    horizon: Horizon,
    gate: Gate,
) -> Result<(Board<'a>, Vec<TaskSeat>, ClockSeat), AllocError>
    requires horizon { IsHorizon plan.now horizon }
    requires bodies { HaveTaskBodies plan.now.graph bodies.now }
    requires rows { HaveTypedRows plan.now.graph horizon.until sensors.now }
    ensures known { IfOk result (λ r. r.0.known ≡ known plan.now horizon gate sensors.now bodies.now) }
    ensures seats { IfOk result (λ r. AreFirstSeats r.0 (vec_items r.1)) }
    ensures clock { IfOk result (λ r. IsFirstClockOf r.0 r.2) }
{
    let (board, mut seat) = Board::open(alloc, plan, bodies, sensors, horizon, gate)?;
    let looks = zeros(alloc, board.tasks() as usize)?;
    let seats = task_seats(alloc, &board, &mut seat)?;
    let clock = ClockSeat::first(seat, looks);
    Ok((board, seats, clock))
}
