//! How many constants the prefixes of words have, found before any is listed.

ghost use Rattle.std.specs.Prelude.{◌≡◌, ◌<◌, ◌^◌, ℕ, length};
ghost use Rattle.prl_plan.specs.Vocabulary.{first_reader, IsWellFormed};
ghost use Rattle.prl_words.specs.Counts.{HaveCounts};
ghost use Rattle.prl_words.specs.GraphWords.{constant_reads};

use prl_base::Op;
use prl_numbers::reader_before;
use prl_plan::TaskGraph;

/// How many constants the word of these operators has in front.
fn constants(ops: &[Op]) -> u64
    requires counts { (jobs : ℕ) × HaveCounts ops.now jobs }
    requires few { length ops.now < 2 ^ 32 }
    ensures { result ≡ first_reader ops.now }
{
    let mut first = 0;
    for k in 0..ops.len() {
        let op = ops[ops.len() - 1 - k];
        first = reader_before(&op, first);
    }
    first
}

/// How many constants the words of all edges have in front.
pub(crate) fn all_constants(graph: &TaskGraph) -> u64
    requires well { IsWellFormed graph.now }
    ensures { result ≡ constant_reads graph.now }
{
    let mut count = 0;
    for edge in graph.edges.as_slice() {
        count += constants(edge.ops.as_slice());
    }
    count
}
