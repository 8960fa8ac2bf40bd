//! What a language gives, so that its texts can be read.

use crate::reading::Stop;
use crate::terminals::Terminal;
use std::alloc::Global;

/// A language: its keywords and symbols by their classes, which are from 2 on, the ranges of its numbers, and
/// the reader of a whole text.
pub trait Syntax {
    ghost use Rattle.std.specs.Prelude.{◌≡◌, ◌≤◌, IfSome};
    ghost use Rattle.prl_base.specs.Reading.{Gives};
    ghost use Rattle.prl_lex.specs.Ranges.{inside_after};
    ghost use Rattle.prl_lex.specs.Texts.{Texts};
    ghost use Rattle.prl_lex.specs.code.Languages.{read_at};
    ghost use Rattle.prl_lex.specs.code.Stops.{stop_of};
    ghost use Rattle.prl_lex.specs.code.Whole.{all_at};

    /// What a whole text is read as.
    type Tree: Drop;

    ghost Inner: { Type 0 };

    ghost Seen: { Type 0 };

    ghost texts: { Texts Inner Seen };

    ghost seen: { Self.Tree → Seen };

    /// The class of the keyword that the word is.
    fn keyword(word: &[u8]) -> Option<u8>
        ensures exact { result ≡ texts.vocabulary.keyword word.now }
        ensures from_two { IfSome result (λ class. 2 ≤ class) };

    /// The class of the symbol that the bytes are.
    fn symbol(bytes: &[u8]) -> Option<u8>
        ensures exact { result ≡ texts.vocabulary.symbol bytes.now }
        ensures from_two { IfSome result (λ class. 2 ≤ class) };

    /// Whether a part with ranges of its own goes on after a token of the class.
    fn inside_after(inside: bool, class: u8) -> bool
        ensures { result ≡ inside_after texts.ranges inside class };

    /// Whether a number is in its range, in such a part or not, and after a token of the class.
    fn fits(inside: bool, last: u8, number: u64) -> bool
        ensures { result ≡ texts.ranges.fits inside last number };

    /// The tree that all of the tokens are.
    fn read(alloc: Global, terminals: &[Terminal]) -> Result<Self::Tree, Stop>
        ensures { Gives seen stop_of result (all_at (read_at texts.language texts.whole) terminals.now) };
}
