//! The word of an edge, composed operator by operator.

ghost use Rattle.std.specs.Prelude.{◌≡◌, ◌<◌, ◌^◌, ℕ, IfOk, [], ◌∷◌, length};
ghost use Rattle.prl_plan.specs.Words.{IsWordOf};
ghost use Rattle.prl_words.specs.Counts.{HaveCounts};
ghost use Rattle.prl_words.specs.code.Steps.{IsComposed};

use crate::holding::{Leading, held, leading_rates};
use crate::shortening::shortened;
use crate::steps::with_operator;
use prl_base::{Op, Seq};
use prl_plan::Word;
use std::alloc::{AllocError, Global};

/// The word of an edge with no operator: each job reads the instance of its number.
fn direct(alloc: Global) -> Result<Word, AllocError>
    ensures { IfOk result (λ w. w ≡ record { prefix = []; repeat = 0 ∷ []; step_in = 1; step_out = 1 }) }
{
    Ok(Word {
        prefix: Seq::new(Vec::new(alloc)),
        repeat: Seq::new(vec![in alloc; 0]?),
        step_in: 1,
        step_out: 1,
    })
}

/// The word of these operators, composed operator by operator, before its repeating part is the
/// shortest.
fn composed(alloc: Global, ops: &[Op]) -> Result<Word, AllocError>
    requires counts { (jobs : ℕ) × HaveCounts ops.now jobs }
    requires few { length ops.now < 2 ^ 32 }
    ensures { IfOk result (IsComposed ops.now) }
{
    let mut word = direct(alloc)?;
    for op in ops {
        word = with_operator(alloc, word, op)?;
    }
    Ok(word)
}

/// The word of an edge with these operators, from the consumer's end on, with the shortest
/// repeating part. Each flow on the way has at least one instance in a hyperperiod, and at most
/// one a tick. What is behind the `*^` at the consumer's end is composed for the slower clock.
pub fn word_of(alloc: Global, ops: &[Op]) -> Result<Word, AllocError>
    requires counts { (jobs : ℕ) × HaveCounts ops.now jobs }
    requires few { length ops.now < 2 ^ 32 }
    ensures { IfOk result (IsWordOf ops.now) }
{
    let Leading { operators, times } = leading_rates(ops);
    let slow = composed(alloc, &ops[operators..])?;
    let long = held(alloc, slow, times)?;
    let word = shortened(alloc, long)?;
    Ok(word)
}
