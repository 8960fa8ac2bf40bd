//! From a text to its tree, or to its first fault.

ghost use Rattle.std.specs.Prelude.{◌<◌, ◌^◌, length};
ghost use Rattle.prl_base.specs.Reading.{GivesBut};
ghost use Rattle.prl_lex.specs.code.Texts.{FaultOfStop, tree_of_text, tree_of_tokens};

use crate::classes::terminals_of;
use crate::lexing::lex;
use crate::ranges::out_of_range;
use crate::reading::{Stop, place_of};
use crate::syntax::Syntax;
use crate::terminals::Terminal;
use crate::tokens::LexFault;
use std::alloc::Global;

/// Why a text has no tree.
#[derive(Clone, Copy)]
pub enum TextFault {
    /// The first fault of its tokens.
    Lexical(LexFault),
    /// No text of the language begins with the tokens up to the one at this byte, or up to the end of the text.
    Unexpected(u32),
    /// The number at this byte is out of its range.
    NumberRange(u32),
    Memory,
}

/// What is told where a reader stopped, in a text of so many bytes.
fn of_stop(terminals: &[Terminal], end: u32, stop: Stop) -> TextFault
    ensures { FaultOfStop terminals.now end stop result }
{
    match stop {
        Stop::Unexpected(left) => TextFault::Unexpected(place_of(terminals, left, end)),
        Stop::Memory => TextFault::Memory,
    }
}

/// The tree that the tokens of a text of so many bytes have.
#[tactic(auto, unfolding(crate::specs::code::Texts::tree_of_tokens))]
fn tree_of_tokens<S: Syntax>(
    alloc: Global,
    terminals: &[Terminal],
    end: u32,
) -> Result<S::Tree, TextFault>
    ensures { GivesBut TextFault.Memory S.seen result (tree_of_tokens S.texts terminals.now end) }
{
    let tree = match S::read(alloc, terminals) {
        Ok(tree) => tree,
        Err(stop) => return Err(of_stop(terminals, end, stop)),
    };
    match out_of_range::<S>(terminals) {
        Some(at) => Err(TextFault::NumberRange(at)),
        None => Ok(tree),
    }
}

/// The tree that the text has, or its first fault: of its tokens, of the grammar, or of the ranges of its numbers.
#[tactic(auto, unfolding(crate::specs::code::Texts::tree_of_text))]
pub fn read_text<S: Syntax>(alloc: Global, text: &[u8]) -> Result<S::Tree, TextFault>
    requires { length text.now < 2 ^ 32 }
    ensures { GivesBut TextFault.Memory S.seen result (tree_of_text S.texts text.now) }
{
    let tokens = match lex(alloc, text) {
        Ok(tokens) => tokens,
        Err(LexFault::Memory) => return Err(TextFault::Memory),
        Err(fault) => return Err(TextFault::Lexical(fault)),
    };
    match terminals_of::<S>(alloc, text, tokens.as_slice()) {
        Ok(terminals) => tree_of_tokens::<S>(alloc, terminals.as_slice(), text.len() as u32),
        Err(_) => Err(TextFault::Memory),
    }
}
