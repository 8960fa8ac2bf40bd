//! A word with one more operator at the producer's end.

ghost use Rattle.std.specs.Prelude.{◌≡◌, ◌+◌, ◌*◌, ◌≤◌, ◌<◌, ◌^◌, ◌++◌, ℕ, List, IfOk, length, replicate, slice_index};
ghost use Rattle.prl_plan.specs.Words.{number_at, IsWord};
ghost use Rattle.prl_words.specs.code.Steps.{number_before, FitsBefore, AreBefore, AreNumbers, IsStep, IsExtended, HasRoom, constants_of};

use prl_base::{Op, Seq, Value, gcd};
use prl_plan::Word;
use std::alloc::{AllocError, Global};

/// How a repeating part goes on under an operator.
#[derive(Clone, Copy)]
struct Turns {
    /// How often the repeating part is written.
    rounds: u64,
    /// The new step of the instances.
    out: u64,
}

/// The instance behind instance `n` of the operator's result, which is no constant.
fn instance_before(op: &Op, n: u64) -> u64
    requires { FitsBefore op.now n }
    ensures { result ≡ number_before op.now n }
{
    match *op {
        Op::Fby(_) | Op::Cons(_) => n - 1,
        Op::Tail => n + 1,
        Op::Up(k) => n / u64::from(k),
        Op::Down(k) => u64::from(k) * n,
        Op::Shift(_) => n,
    }
}

/// `count` numbers of the word from number `from` on, each as the operator has it.
fn numbers(
    alloc: Global,
    word: &Word,
    op: &Op,
    from: u64,
    count: u64,
) -> Result<Vec<u64>, AllocError>
    requires word { IsWord word.now }
    requires fit { (k : ℕ) → k < count → (number_at word.now (from + k) < 2 ^ 64) × FitsBefore op.now (number_at word.now (from + k)) }
    requires range { from + count < 2 ^ 64 }
    ensures { IfOk result (λ v. AreNumbers op.now word.now from count v.items) }
{
    let mut numbers = Vec::with_capacity(alloc, count as usize)?;
    for k in 0..count {
        numbers.push(instance_before(op, word.number(from + k)))?;
    }
    Ok(numbers)
}

/// How many numbers of the repeating part come before the first that is not 0.
fn leading_zeros(repeat: &[u64]) -> u64
    ensures few { result ≤ length repeat.now }
    ensures zero { (i : ℕ) → i < result → slice_index repeat.now i ≡ 0 }
    ensures next { result < length repeat.now → 1 ≤ slice_index repeat.now result }
{
    let mut count = 0;
    for number in repeat {
        if *number != 0 {
            return count;
        }
        count += 1;
    }
    count
}

/// How many numbers of the word become constants under the operator.
fn zeros(word: &Word, op: &Op) -> u64
    requires { HasRoom op.now word.now }
    ensures { AreBefore op.now word.now result }
{
    match *op {
        Op::Fby(_) => leading_zeros(word.repeat.as_slice()),
        Op::Cons(_) => leading_zeros(word.repeat.as_slice()),
        _ => 0,
    }
}

/// How the repeating part goes on under the operator.
fn turns_under(word: &Word, op: &Op) -> Turns
    requires { HasRoom op.now word.now }
    ensures { IsStep op.now word.now.step_out result.rounds result.out }
{
    let same = word.step_out;
    match *op {
        Op::Up(k) => {
            let common = gcd(u64::from(k), same);
            Turns {
                rounds: u64::from(k) / common,
                out: same / common,
            }
        }
        Op::Down(k) => Turns {
            rounds: 1,
            out: u64::from(k) * same,
        },
        _ => Turns {
            rounds: 1,
            out: same,
        },
    }
}

/// The prefix, and then the constant so many times.
fn followed_by(prefix: Seq<Value>, c: Value, count: u64) -> Result<Seq<Value>, AllocError>
    ensures { IfOk result (λ longer. longer ≡ prefix ++ replicate count c) }
{
    let mut values = prefix.into_vec();
    for _ in 0..count {
        values.push(c)?;
    }
    Ok(Seq::new(values))
}

/// The prefix with the constants that so many instances 0 become under the operator.
fn with_constants(prefix: Seq<Value>, op: &Op, zeros: u64) -> Result<Seq<Value>, AllocError>
    ensures { IfOk result (λ longer. longer ≡ prefix ++ constants_of op.now zeros) }
{
    match *op {
        Op::Fby(c) => followed_by(prefix, c, zeros),
        Op::Cons(c) => followed_by(prefix, c, zeros),
        _ => Ok(prefix),
    }
}

/// The word with one more operator at the producer's end.
pub(crate) fn with_operator(alloc: Global, word: Word, op: &Op) -> Result<Word, AllocError>
    requires { HasRoom op.now word }
    ensures { IfOk result (IsExtended op.now word) }
{
    let zeros = zeros(&word, op);
    let Turns { rounds, out } = turns_under(&word, op);
    let step_in = rounds * word.step_in;
    let repeat = numbers(alloc, &word, op, zeros, step_in)?;
    let prefix = with_constants(word.prefix, op, zeros)?;
    Ok(Word {
        prefix,
        repeat: Seq::new(repeat),
        step_in,
        step_out: out,
    })
}
