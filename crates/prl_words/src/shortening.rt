//! The shortest repeating part of a word.

ghost use Rattle.std.specs.Prelude.{IfOk};
ghost use Rattle.prl_words.specs.code.Shortest.{AreGaps, IsSteady, IsShortened};

use prl_base::Seq;
use prl_numbers::shortest_repeat;
use prl_plan::Word;
use std::alloc::{AllocError, Global};

/// How much higher each number of the first turn is than the one before it.
fn gaps(alloc: Global, word: &Word) -> Result<Vec<u64>, AllocError>
    requires { IsSteady word.now }
    ensures { IfOk result (λ gaps. AreGaps word.now gaps.items) }
{
    let mut gaps = Vec::with_capacity(alloc, word.step_in as usize)?;
    for i in 0..word.step_in {
        gaps.push(word.number(i + 1) - word.number(i))?;
    }
    Ok(gaps)
}

/// The word with its shortest repeating part: that of the gaps between its numbers.
pub(crate) fn shortened(alloc: Global, word: Word) -> Result<Word, AllocError>
    requires { IsSteady word }
    ensures { IfOk result (IsShortened word) }
{
    let gaps = gaps(alloc, &word)?;
    let step_in = shortest_repeat(gaps.as_slice()) as u64;
    let step_out = word.number(step_in) - word.number(0);
    let mut repeat = word.repeat.into_vec();
    repeat.truncate(step_in as usize);
    Ok(Word {
        prefix: word.prefix,
        repeat: Seq::new(repeat),
        step_in,
        step_out,
    })
}
