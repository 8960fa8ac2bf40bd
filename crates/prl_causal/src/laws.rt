//! Laws of causality, as functions that do nothing: the contract of each is the law, over the definitions alone.

ghost use Rattle.std.specs.Prelude.{◌≡◌, ◌⊎◌, ℕ, List};
ghost use Rattle.prl_base.specs.declared.numbers.FlowNo.{FlowNo};
ghost use Rattle.prl_flow.specs.Vocabulary.{FlatProgram, IsFlat, HasNoCycle, IsCycleLabel, IsOrder};

/// Each flat program has no forbidden cycle, or one label tells of one, and not both.
pub fn causality_ends_one_way()
    ensures end { (p : FlatProgram) → IsFlat p → HasNoCycle p ⊎ ((label : List ℕ) × IsCycleLabel p label) }
    ensures one_label { (p : FlatProgram) (a b : List ℕ) → IsCycleLabel p a → IsCycleLabel p b → a ≡ b }
    ensures not_both { (p : FlatProgram) (label : List ℕ) → HasNoCycle p → IsCycleLabel p label → ⊥ }
{}

/// Each flat program without a forbidden cycle has an order of its flows.
pub fn acyclic_programs_have_orders()
    ensures { (p : FlatProgram) → IsFlat p → HasNoCycle p → (order : List FlowNo) × IsOrder p order }
{}
