//! A law of programs, as a function that does nothing: its contract is the law.

ghost use Rattle.std.specs.Prelude.{◌≡◌, ℕ, List, Result};
ghost use Rattle.prl_ast.specs.Trees.{ProgramTree};
ghost use Rattle.prl_syntax.specs.Parsing.{IsParsed};

use crate::parsing::ParseFault;

/// Each text is one program, or has one first fault. That memory runs out is none.
pub fn each_text_has_one_outcome()
    ensures some { (text : List ℕ) → (outcome : Result ProgramTree ParseFault) × IsParsed text outcome }
    ensures one { (text : List ℕ) (a b : Result ProgramTree ParseFault) → IsParsed text a → IsParsed text b → a ≡ b }
{}
