//! Timed runs as pieces.

ghost use Rattle.std.specs.Prelude.{◌≡◌, ◌-◌, ◌<◌, ◌≤◌, ◌^◌, OnOk};
ghost use Rattle.std.specs.Bool.{OnTrue, OnFalse};
ghost use Rattle.prl_edf.specs.Pieces.{run_of, AreLongest};
ghost use Rattle.prl_edf.specs.code.Extended.{IsExtended, EndBy};

use prl_base::TaskNo;
use std::alloc::AllocError;

/// Ticks one after another that go to one job.
#[derive(Clone, Copy)]
pub struct Piece {
    pub task: TaskNo,
    pub job: u64,
    /// The first tick.
    pub from: u64,
    /// The tick after the last one.
    pub to: u64,
}

impl Piece {
    /// How many ticks it has.
    pub(crate) fn ticks(self) -> u64
        requires { self.from ≤ self.to }
        ensures ticks { result ≡ self.to - self.from }
        ensures fits { self.to < 2 ^ 64 }
    {
        self.to - self.from
    }
}

/// Whether the piece goes on where the last one ends, with its job.
fn goes_on(last: Piece, piece: Piece) -> bool
    ensures yes { OnTrue result ((last.to ≡ piece.from) × (last.task.0 ≡ piece.task.0) × (last.job ≡ piece.job)) }
    ensures no { OnFalse result (last.to ≡ piece.from → last.task.0 ≡ piece.task.0 → last.job ≡ piece.job → ⊥) }
{
    last.to == piece.from && last.task.0 == piece.task.0 && last.job == piece.job
}

/// Gives the ticks of a piece to its job.
pub(crate) fn give(pieces: &mut Vec<Piece>, piece: Piece) -> Result<(), AllocError>
    requires longest { AreLongest pieces.old.items }
    requires after { EndBy pieces.old.items piece.from }
    requires some { piece.from < piece.to }
    ensures run { OnOk result (IsExtended (run_of pieces.old.items) (run_of pieces.new.items) piece) }
    ensures longest { OnOk result (AreLongest pieces.new.items) }
    ensures after { OnOk result (EndBy pieces.new.items piece.to) }
{
    match pieces.pop() {
        None => pieces.push(piece)?,
        Some(last) => {
            if goes_on(last, piece) {
                pieces.push(Piece {
                    to: piece.to,
                    ..last
                })?;
            } else {
                pieces.push(last)?;
                pieces.push(piece)?;
            }
        }
    }
    Ok(())
}
