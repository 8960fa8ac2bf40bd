//! The words of all edges of a task graph.

ghost use Rattle.std.specs.Prelude.{◌≡◌, ◌≤◌, IfOk, MatchResult};
ghost use Rattle.prl_plan.specs.Vocabulary.{IsWellFormed, AreWords};
ghost use Rattle.prl_words.specs.GraphWords.{IsWordFault, constant_reads};

use crate::composing::word_of;
use crate::prefixes::all_constants;
use prl_base::{Limit, Seq, What};
use prl_plan::{MAX_PREFIX, TaskGraph, Words};
use std::alloc::{AllocError, Global};

/// Why there are no words.
#[derive(Clone, Copy)]
pub enum WordFault {
    /// The prefixes have more than 1,000,000 constants.
    Limit(Limit),
    Memory,
}

/// The words of the edges, where the limit is kept.
fn listed(alloc: Global, graph: &TaskGraph) -> Result<Words, AllocError>
    requires well { IsWellFormed graph.now }
    requires few { constant_reads graph.now ≤ MAX_PREFIX }
    ensures { IfOk result (λ words. AreWords graph.now words.of) }
{
    let mut words = Vec::with_capacity(alloc, graph.edges.len())?;
    for edge in graph.edges.as_slice() {
        let word = word_of(alloc, edge.ops.as_slice())?;
        words.push(word)?;
    }
    Ok(Words {
        of: Seq::new(words),
    })
}

/// The dependency word of each edge, in the order of the edges. The limit on the constants in
/// their prefixes is tested before any is listed. An edge from a constant has its instances
/// counted like those of a flow.
pub fn words(alloc: Global, graph: &TaskGraph) -> Result<Words, WordFault>
    requires well { IsWellFormed graph.now }
    ensures { MatchResult result (λ words. AreWords graph.now words.of) (IsWordFault graph.now) }
{
    let found = all_constants(graph);
    if found > MAX_PREFIX {
        return Err(WordFault::Limit(Limit {
            what: What::Prefix,
            found,
        }));
    }
    match listed(alloc, graph) {
        Ok(words) => Ok(words),
        Err(_) => Err(WordFault::Memory),
    }
}
