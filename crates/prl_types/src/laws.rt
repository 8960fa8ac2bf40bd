//! Laws of the check, as functions that do nothing: the contract of each is the law, over the definitions alone.

ghost use Rattle.std.specs.Prelude.{◌≡◌, ℕ, List, Option, Result};
ghost use Rattle.prl_base.specs.declared.values.Ty.{Ty};
ghost use Rattle.prl_ast.specs.Trees.{ProgramTree};
ghost use Rattle.prl_types.specs.declared.faults.TypeFault.{TypeFault};
ghost use Rattle.prl_types.specs.Typing.{IsOutcome};

/// A program has an outcome: its main node and its types, or a fault.
pub fn each_program_has_an_outcome()
    ensures { (p : ProgramTree) (main : Option (List ℕ)) →
        (r : Result (ℕ × List Ty) TypeFault) × IsOutcome p main r }
{}

/// A program has one outcome: its types are the only ones, its fault is the only one, and not both are there.
pub fn outcome_is_unique()
    ensures { (p : ProgramTree) (main : Option (List ℕ)) (r s : Result (ℕ × List Ty) TypeFault) →
        IsOutcome p main r → IsOutcome p main s → r ≡ s }
{}
