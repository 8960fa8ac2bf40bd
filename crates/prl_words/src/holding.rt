//! Words whose operands are each read by several jobs in turn: what leading `*^` and `~>` come to.

ghost use Rattle.std.specs.Prelude.{◌≡◌, ◌*◌, ◌≤◌, ◌<◌, ◌^◌, ℕ, IfOk, length};
ghost use Rattle.prl_words.specs.Counts.{HaveCounts};
ghost use Rattle.prl_words.specs.code.Holding.{IsLeading, IsSpread, IsHeld};

use prl_base::{Op, Seq};
use prl_plan::Word;
use std::alloc::{AllocError, Global};

/// The `*^` and `~>` at the consumer's end.
#[derive(Clone, Copy)]
pub(crate) struct Leading {
    /// How many operators they are.
    pub(crate) operators: usize,
    /// How many jobs read the same operand of what is behind them.
    pub(crate) times: u64,
}

/// The `*^` at the consumer's end, and the `~>` among them, which leave each instance its number.
pub(crate) fn leading_rates(ops: &[Op]) -> Leading
    requires { (jobs : ℕ) × HaveCounts ops.now jobs }
    ensures { IsLeading ops.now result.operators result.times }
{
    let mut times = 1;
    for (i, op) in ops.iter().enumerate() {
        match *op {
            Op::Up(k) => times *= u64::from(k),
            Op::Shift(_) => {}
            _ => {
                return Leading {
                    operators: i,
                    times,
                };
            }
        }
    }
    Leading {
        operators: ops.len(),
        times,
    }
}

/// The list with each element so many times.
fn spread<T: Copy>(alloc: Global, list: &[T], times: u64) -> Result<Vec<T>, AllocError>
    requires some { 1 ≤ times }
    requires fits { length list.now * times < 2 ^ 64 }
    ensures { IfOk result (λ longer. IsSpread list.now times longer.items) }
{
    let count = list.len() as u64 * times;
    let mut longer = Vec::with_capacity(alloc, count as usize)?;
    for n in 0..count {
        longer.push(list[(n / times) as usize])?;
    }
    Ok(longer)
}

/// The word each operand of which is read by so many jobs in turn.
pub(crate) fn held(alloc: Global, word: Word, times: u64) -> Result<Word, AllocError>
    requires some { 1 ≤ times }
    requires prefix { length word.prefix * times < 2 ^ 64 }
    requires repeat { length word.repeat * times < 2 ^ 64 }
    requires step { word.step_in * times < 2 ^ 64 }
    ensures { IfOk result (IsHeld times word) }
{
    let prefix = spread(alloc, word.prefix.as_slice(), times)?;
    let repeat = spread(alloc, word.repeat.as_slice(), times)?;
    Ok(Word {
        prefix: Seq::new(prefix),
        repeat: Seq::new(repeat),
        step_in: word.step_in * times,
        step_out: word.step_out,
    })
}
