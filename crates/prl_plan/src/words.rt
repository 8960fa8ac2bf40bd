//! Dependency words.

ghost use Rattle.std.specs.Prelude.{◌≡◌, ◌<◌, ◌^◌, ℕ};
ghost use Rattle.prl_plan.specs.declared.walks.Operand.TheVariants as operands;
ghost use Rattle.prl_plan.specs.Words.{number_at, word_at, IsWord};

use crate::Operand;
use prl_base::{Seq, Value};

/// What the jobs of a consumer read on an edge, job after job: constants first, and then instances
/// of the producer that repeat with a step.
#[derive(Drop)]
pub struct Word {
    /// What the first jobs read.
    pub prefix: Seq<Value>,
    /// The numbers of the instances that the jobs after them read, at the first turn.
    pub repeat: Seq<u64>,
    /// How many jobs a turn has: the length of `repeat`.
    pub step_in: u64,
    /// By how much the instances of a turn are higher than those of the turn before.
    pub step_out: u64,
}

/// The words of the edges of a graph, in the order of the edges.
pub struct Words {
    pub of: Seq<Word>,
}

impl Word {
    /// The operand of job `n` of the consumer. It takes no memory. An instance's number has to be
    /// below 2^63.
    pub fn at(&self, n: u64) -> Operand
        requires word { IsWord self.now }
        requires fits { (m : ℕ) → word_at self.now n ≡ operands.From m → m < 2 ^ 63 }
        ensures { result ≡ word_at self.now n }
    {
        let prefix = self.prefix.as_slice();
        let count = prefix.len() as u64;
        if n < count {
            Operand::Const(prefix[n as usize])
        } else {
            Operand::From(self.number(n - count))
        }
    }

    /// The instance that job `i` after the prefix reads, below 2^64. It takes no memory.
    pub fn number(&self, i: u64) -> u64
        requires word { IsWord self.now }
        requires fits { number_at self.now i < 2 ^ 64 }
        ensures { result ≡ number_at self.now i }
    {
        if self.step_in == 1 {
            return self.repeat.as_slice()[0] + i * self.step_out;
        }
        let first = self.repeat.as_slice()[(i % self.step_in) as usize];
        first + i / self.step_in * self.step_out
    }
}

impl Drop for Words {
    fn drop(self) {
        let Words { of } = self;
        drop(of);
    }
}
