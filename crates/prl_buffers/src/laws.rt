//! Laws of cells, as functions that do nothing: the contract of each is the law, over the definitions alone.

ghost use Rattle.std.specs.Prelude.{◌≢◌, ◌≤◌, ◌⊎◌, ℕ, List, sum};
ghost use Rattle.prl_plan.specs.Vocabulary.{AreLeastCells, AreEncodedDates, IsWellFormed};
ghost use Rattle.prl_plan.specs.Vocabulary.{AreShortGaps, AreWords};
ghost use Rattle.prl_plan.specs.declared.graphs.TaskGraph.{TaskGraph as AnyGraph};
ghost use Rattle.prl_plan.specs.declared.limits.TheConstants.{MAX_CELLS};
ghost use Rattle.prl_plan.specs.declared.tables.Used.{Used as AnyUsed};
ghost use Rattle.prl_plan.specs.declared.tables.Window.{Window};
ghost use Rattle.prl_plan.specs.declared.words.Word.{Word as AnyWord};
ghost use Rattle.prl_buffers.specs.declared.tables.CellFault.{CellFault as AnyFault};
ghost use Rattle.prl_buffers.specs.declared.tables.CellFault.TheVariants as faults;
ghost use Rattle.prl_buffers.specs.CellFaults.{IsCellFault};

/// A task graph with words and encoded dates has cells for its edges, within the limit, or passes it. Want of memory is no fault of a graph.
pub fn cells_or_fault_exist()
    ensures { (graph : AnyGraph) (words : List AnyWord) (windows : List (List Window)) → IsWellFormed graph → AreWords graph words → AreEncodedDates graph windows →
        ((bases : List ℕ) × (counts : List ℕ) × (used : List AnyUsed) × AreLeastCells graph windows bases counts used × (sum counts ≤ MAX_CELLS)
        × AreShortGaps used) ⊎ ((fault : AnyFault) × (fault ≢ faults.Memory) × IsCellFault graph windows fault) }
{}
