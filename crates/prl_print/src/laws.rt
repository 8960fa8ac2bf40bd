//! Laws of programs of texts, as functions that do nothing: the contract of each is the law, over the definitions alone.

ghost use Rattle.std.specs.Prelude.{ℕ, List, Ok};
ghost use Rattle.prl_ast.specs.Vocabulary.{IsInRange, ProgramTree};
ghost use Rattle.prl_print.specs.Printing.{printed};
ghost use Rattle.prl_print.specs.RoundTrip.{IsTextOf};
ghost use Rattle.prl_syntax.specs.Parsing.{IsParsed, IsProgramOf};

/// The program of a text is within the ranges and limits of the language.
pub fn programs_are_in_range()
    ensures { (text : List ℕ) (p : ProgramTree) → IsProgramOf text p → IsInRange p }
{}

/// The printed text of the program of a text is that program again, places aside.
pub fn printed_programs_are_read_back()
    ensures { (source : List ℕ) (p : ProgramTree) → IsParsed source (Ok p) → IsTextOf (printed p) p }
{}
