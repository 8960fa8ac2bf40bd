//! Laws of names, as functions that do nothing: the contract of each is the law, over the definitions alone.

ghost use Rattle.std.specs.Prelude.{◌≡◌, ◌↔◌, ℕ, true, List, Option, Some, Ok, slice_get};
ghost use Rattle.prl_ast.specs.Trees.{ProgramTree};
ghost use Rattle.prl_names.specs.Applications.{reaches, Reaches};
ghost use Rattle.prl_names.specs.Checks.{names_of};
ghost use Rattle.prl_names.specs.Lookups.{index_of};
ghost use Rattle.prl_names.specs.Named.{IsNamed};

/// At the index of a name stands that name.
pub fn index_has_the_name()
    ensures { (names : List (List ℕ)) (name : List ℕ) (index : ℕ) → index_of names name ≡ Some index → slice_get names index ≡ Some name }
{}

/// A node reaches another through applications exactly where this is found.
pub fn reaching_is_found()
    ensures { (p : ProgramTree) (by node : ℕ) → (reaches p by node ≡ true) ↔ Reaches p by node }
{}

/// Where the names of a program are right, its main node is there, and each name stands for something.
pub fn right_names_stand_for_something()
    ensures { (p : ProgramTree) (main : Option (List ℕ)) (node : ℕ) → names_of p main ≡ Ok node → IsNamed p node }
{}
