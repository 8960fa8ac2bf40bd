//! Laws of generated programs, as functions that do nothing: the contract of each is the law, over the
//! definitions alone.

ghost use Rattle.std.specs.Prelude.{◌≡◌, ◌*◌, ◌<◌, ◌≤◌, ◌↔◌, ℕ};
ghost use Rattle.prl_ast.specs.Trees.{ProgramTree};
ghost use Rattle.prl_print.specs.Printing.{printed};
ghost use Rattle.prl_print.specs.RoundTrip.{IsTextOf};
ghost use Rattle.prl_gen.specs.Lanes.{instances};
ghost use Rattle.prl_gen.specs.Texts.{generated_program};
ghost use Rattle.prl_gen.specs.declared.lanes.TheConstants.{UNTIL};

/// The rows of a lane are those of the instances whose dates are before the end.
#[tactic(auto, using(crate::proofs::Instances::instances_are_before_the_end))]
pub fn instances_are_before_the_end()
    ensures { (period instance : ℕ) → 0 < period → (instance < instances period) ↔ (instance * period < UNTIL) }
{}

/// The program of each number and of each size from 1 to 20 is the printed form of a tree, and is read as that one, places
/// aside.
pub fn generated_programs_are_read_back()
    ensures { (seed size : ℕ) → 1 ≤ size → size ≤ 20 →
        (p : ProgramTree) × IsTextOf (generated_program seed size) p × (generated_program seed size ≡ printed p) }
{}
