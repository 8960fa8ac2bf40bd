//! What each tick of a run goes to.

ghost use Rattle.std.specs.Prelude.{◌≡◌, ℕ, [], Option, length, IfOk};
ghost use Rattle.prl_edf.specs.Pieces.{run_of};
ghost use Rattle.prl_table.specs.code.Ticks.{with_piece, HasTicks};

use prl_base::TaskNo;
use prl_edf::Piece;
use std::alloc::{AllocError, Global};

/// The job that a tick goes to, if any.
pub(crate) type Tick = Option<(TaskNo, u64)>;

/// Gives the ticks of a piece to its job.
fn fill(ticks: &mut Vec<Tick>, piece: Piece)
    ensures length { length ticks.new.items ≡ length ticks.old.items }
    ensures ticks { (run : ℕ → Option (ℕ × ℕ)) → HasTicks run ticks.old.items → HasTicks (with_piece piece run) ticks.new.items }
{
    let end = piece.to.min(ticks.len() as u64);
    for t in piece.from..end {
        ticks[t as usize] = Some((piece.task, piece.job));
    }
}

/// Ticks that go to no job.
fn no_ticks(alloc: Global, until: u64) -> Result<Vec<Tick>, AllocError>
    ensures length { IfOk result (λ ticks. length ticks.items ≡ until) }
    ensures ticks { IfOk result (λ ticks. HasTicks (run_of []) ticks.items) }
{
    let mut ticks = Vec::new(alloc);
    for _n in 0..until {
        ticks.push(None)?;
    }
    Ok(ticks)
}

/// What each of the first ticks goes to.
pub(crate) fn ticks_of(alloc: Global, pieces: &[Piece], until: u64) -> Result<Vec<Tick>, AllocError>
    ensures length { IfOk result (λ ticks. length ticks.items ≡ until) }
    ensures ticks { IfOk result (λ ticks. HasTicks (run_of pieces.now) ticks.items) }
{
    let mut ticks = no_ticks(alloc, until)?;
    for back in 0..pieces.len() {
        fill(&mut ticks, pieces[pieces.len() - 1 - back]);
    }
    Ok(ticks)
}
