//! Calls of seats to which one thread has lent the view that has all parts.

ghost use Rattle.std.specs.Prelude.{◌≡◌, ◌<◌, [], Some};
ghost use Rattle.prl_rule.specs.Vocabulary.{run_of, bare, LookTold};
ghost use Rattle.prl_rule.specs.declared.views.ClockPart.{ClockPart};
ghost use Rattle.prl_seats.specs.JobSeats.{AnswersRelease, Ends, Follows, IsSeatOf, reseated};
ghost use Rattle.prl_board.specs.ClockSeats.{IsClockOf};
ghost use Rattle.prl_board.specs.Lones.{IsTicked};
ghost use Rattle.prl_board.specs.TaskSeats.{AnswersRead, AnswersWrite, MayFinish, MayRead, MayRelease, MayWrite, place_of};
ghost use Rattle.prl_board.specs.code.Lent.{IsClockReturned, IsLent, IsLentClock, IsReturned};

use crate::clocks::{ClockSeat, Ticked};
use crate::seats::{Got, TaskSeat, Wrote};
use prl_base::TaskNo;
use prl_seats::{Board, Release, Seat};

/// The seat takes the view that has all parts.
fn lend(board: &Board, whole: &mut Seat, seat: &mut TaskSeat)
    requires whole { (whole.old.table_id ≡ board.now.table) × (whole.old.me.1 ≡ []) × (whole.old.me.0.constants ≡ Some board.now.known) }
    requires lent { IsLent board.now.known whole.old.me.0 seat.old.task.0 seat.old }
    ensures seat { IsSeatOf board.now seat.new }
    ensures taken { seat.new ≡ reseated whole.old.table_id whole.old.id whole.old.me.0 seat.old }
    ensures spare { whole.new.me ≡ (bare board.now.known, []) }
{
    let _ = board;
    seat.exchange(whole);
}

/// The seat gives the view back.
fn take_back(board: &Board, whole: &mut Seat, seat: &mut TaskSeat)
    requires seat { IsSeatOf board.now seat.old }
    requires spare { whole.old.me ≡ (bare board.now.known, []) }
    ensures stands { Follows board.now.known seat.old.view seat.old.task.0 seat.old.job seat.old.place seat.old.stage }
    ensures given { (whole.new.table_id ≡ seat.old.table) × (whole.new.id ≡ seat.old.id) × (whole.new.me ≡ (seat.old.view, [])) }
    ensures taken { seat.new ≡ reseated whole.old.table_id whole.old.id (bare board.now.known) seat.old }
{
    let _ = board;
    seat.stands();
    seat.exchange(whole);
}

/// The task's next job opens, where it is released.
pub(crate) fn release_lent(board: &Board, whole: &mut Seat, seat: &mut TaskSeat) -> Release
    requires whole { (whole.old.table_id ≡ board.now.table) × (whole.old.me.1 ≡ []) × (whole.old.me.0.constants ≡ Some board.now.known) }
    requires lent { IsLent board.now.known whole.old.me.0 seat.old.task.0 seat.old }
    requires place { MayRelease (place_of seat.old.stage) }
    ensures same { (whole.new.table_id ≡ whole.old.table_id) × (whole.new.me.1 ≡ []) × (seat.new.task ≡ seat.old.task) }
    ensures returned { IsReturned board.now.known seat.old.task.0 whole.old.me.0 whole.new.me.0 seat.new }
    ensures answer { AnswersRelease board.now.known (reseated whole.old.table_id whole.old.id whole.old.me.0 seat.old) (reseated whole.new.table_id whole.new.id whole.new.me.0 seat.new) result }
    ensures place { seat.new.place ≡ seat.old.place }
{
    lend(board, whole, seat);
    let answer = seat.release(board);
    take_back(board, whole, seat);
    answer
}

/// The task's job reads.
pub(crate) fn read_lent(board: &Board, whole: &mut Seat, seat: &mut TaskSeat) -> Got
    requires whole { (whole.old.table_id ≡ board.now.table) × (whole.old.me.1 ≡ []) × (whole.old.me.0.constants ≡ Some board.now.known) }
    requires lent { IsLent board.now.known whole.old.me.0 seat.old.task.0 seat.old }
    requires place { MayRead (place_of seat.old.stage) }
    ensures same { (whole.new.table_id ≡ whole.old.table_id) × (whole.new.me.1 ≡ []) × (seat.new.task ≡ seat.old.task) }
    ensures returned { IsReturned board.now.known seat.old.task.0 whole.old.me.0 whole.new.me.0 seat.new }
    ensures answer { AnswersRead board.now.known (reseated whole.old.table_id whole.old.id whole.old.me.0 seat.old) (reseated whole.new.table_id whole.new.id whole.new.me.0 seat.new) result seat.old.stage }
{
    lend(board, whole, seat);
    let answer = seat.read(board);
    take_back(board, whole, seat);
    answer
}

/// The task's job writes.
pub(crate) fn write_lent(board: &Board, whole: &mut Seat, seat: &mut TaskSeat) -> Wrote
    requires whole { (whole.old.table_id ≡ board.now.table) × (whole.old.me.1 ≡ []) × (whole.old.me.0.constants ≡ Some board.now.known) }
    requires lent { IsLent board.now.known whole.old.me.0 seat.old.task.0 seat.old }
    requires place { MayWrite (place_of seat.old.stage) }
    ensures same { (whole.new.table_id ≡ whole.old.table_id) × (whole.new.me.1 ≡ []) × (seat.new.task ≡ seat.old.task) }
    ensures returned { IsReturned board.now.known seat.old.task.0 whole.old.me.0 whole.new.me.0 seat.new }
    ensures answer { AnswersWrite board.now.known (reseated whole.old.table_id whole.old.id whole.old.me.0 seat.old) (reseated whole.new.table_id whole.new.id whole.new.me.0 seat.new) result seat.old.stage }
{
    lend(board, whole, seat);
    let answer = seat.write(board);
    take_back(board, whole, seat);
    answer
}

/// The task's job ends.
pub(crate) fn finish_lent(board: &Board, whole: &mut Seat, seat: &mut TaskSeat)
    requires whole { (whole.old.table_id ≡ board.now.table) × (whole.old.me.1 ≡ []) × (whole.old.me.0.constants ≡ Some board.now.known) }
    requires lent { IsLent board.now.known whole.old.me.0 seat.old.task.0 seat.old }
    requires place { MayFinish (place_of seat.old.stage) }
    ensures same { (whole.new.table_id ≡ whole.old.table_id) × (whole.new.me.1 ≡ []) × (seat.new.task ≡ seat.old.task) }
    ensures returned { IsReturned board.now.known seat.old.task.0 whole.old.me.0 whole.new.me.0 seat.new }
    ensures answer { Ends board.now.known (reseated whole.old.table_id whole.old.id whole.old.me.0 seat.old) (reseated whole.new.table_id whole.new.id whole.new.me.0 seat.new) }
{
    lend(board, whole, seat);
    seat.finish(board);
    take_back(board, whole, seat);
}

/// The clock's seat takes the view that has all parts.
fn lend_clock(board: &Board, whole: &mut Seat, clock: &mut ClockSeat)
    requires whole { (whole.old.table_id ≡ board.now.table) × (whole.old.me.1 ≡ []) × (whole.old.me.0.constants ≡ Some board.now.known) }
    requires lent { IsLentClock board.now.known whole.old.me.0 clock.old }
    ensures taken { (r : ClockPart) → whole.old.me.0.clock ≡ Some r → IsClockOf board.now clock.new r }
    ensures view { clock.new.view ≡ whole.old.me.0 }
    ensures spare { whole.new.me ≡ (bare board.now.known, []) }
{
    let _ = board;
    clock.exchange(whole);
}

/// The clock's seat gives the view back.
fn take_back_clock(board: &Board, whole: &mut Seat, clock: &mut ClockSeat)
    requires seat { (r : ClockPart) × IsClockOf board.now clock.old r }
    requires spare { whole.old.me ≡ (bare board.now.known, []) }
    ensures given { (whole.new.table_id ≡ clock.old.table) × (whole.new.me ≡ (clock.old.view, [])) }
    ensures lent { IsLentClock board.now.known clock.old.view clock.new }
{
    let _ = board;
    clock.exchange(whole);
}

/// Looks at a task.
pub(crate) fn look_lent(board: &Board, whole: &mut Seat, clock: &mut ClockSeat, task: TaskNo) -> u64
    requires whole { (whole.old.table_id ≡ board.now.table) × (whole.old.me.1 ≡ []) × (whole.old.me.0.constants ≡ Some board.now.known) }
    requires lent { IsLentClock board.now.known whole.old.me.0 clock.old }
    requires task { task.0 < (run_of board.now.known).tasks }
    ensures same { (whole.new.table_id ≡ whole.old.table_id) × (whole.new.me.1 ≡ []) }
    ensures returned { IsClockReturned board.now.known whole.old.me.0 whole.new.me.0 clock.new }
    ensures told { (r : ClockPart) → whole.old.me.0.clock ≡ Some r → LookTold board.now.known task.0 r whole.old.me.0 result whole.new.me.0 }
{
    lend_clock(board, whole, clock);
    let ended = clock.look(board, task);
    take_back_clock(board, whole, clock);
    ended
}

/// The clock goes on, where no job that is due is left to be seen.
pub(crate) fn tick_lent(board: &Board, whole: &mut Seat, clock: &mut ClockSeat) -> Ticked
    requires whole { (whole.old.table_id ≡ board.now.table) × (whole.old.me.1 ≡ []) × (whole.old.me.0.constants ≡ Some board.now.known) }
    requires lent { IsLentClock board.now.known whole.old.me.0 clock.old }
    ensures same { (whole.new.table_id ≡ whole.old.table_id) × (whole.new.me.1 ≡ []) }
    ensures returned { IsClockReturned board.now.known whole.old.me.0 whole.new.me.0 clock.new }
    ensures answer { (r : ClockPart) → whole.old.me.0.clock ≡ Some r → IsTicked board.now.known r whole.old.me.0 whole.new.me.0 result }
{
    lend_clock(board, whole, clock);
    let answer = clock.tick(board);
    take_back_clock(board, whole, clock);
    answer
}
