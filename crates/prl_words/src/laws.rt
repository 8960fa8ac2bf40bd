//! Laws of words, as functions that do nothing: the contract of each is the law, over the definitions alone.

ghost use Rattle.std.specs.Prelude.{◌≡◌, ◌≢◌, ◌⊎◌, List};
ghost use Rattle.prl_plan.specs.Vocabulary.{IsWellFormed, AreWords};
ghost use Rattle.prl_plan.specs.declared.graphs.TaskGraph.{TaskGraph as AnyGraph};
ghost use Rattle.prl_plan.specs.declared.words.Word.{Word as AnyWord};
ghost use Rattle.prl_words.specs.declared.graphs.WordFault.{WordFault as AnyFault};
ghost use Rattle.prl_words.specs.declared.graphs.WordFault.TheVariants as faults;
ghost use Rattle.prl_words.specs.GraphWords.{IsWordFault};

/// A task graph has words for its edges, or passes the limit on their constants, and not both. Want of memory is no fault of a graph.
pub fn words_end_one_way()
    ensures end { (graph : AnyGraph) → IsWellFormed graph →
        ((words : List AnyWord) × AreWords graph words) ⊎ ((fault : AnyFault) × (fault ≢ faults.Memory) × IsWordFault graph fault) }
    ensures one_list { (graph : AnyGraph) (a b : List AnyWord) → AreWords graph a → AreWords graph b → a ≡ b }
    ensures not_both { (graph : AnyGraph) → IsWellFormed graph → (words : List AnyWord) → AreWords graph words →
        (fault : AnyFault) → fault ≢ faults.Memory → IsWordFault graph fault → ⊥ }
    ensures one_fault { (graph : AnyGraph) (a b : AnyFault) → a ≢ faults.Memory → b ≢ faults.Memory → IsWordFault graph a → IsWordFault graph b → a ≡ b }
{}
