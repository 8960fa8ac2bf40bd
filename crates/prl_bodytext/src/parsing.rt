//! From a text to its bodies, or to its first fault.

ghost use Rattle.std.specs.Prelude.{◌≡◌, ◌≢◌, ◌<◌, ◌^◌, length, IfOk, IfErr, Ok, Err};
ghost use Rattle.prl_body.specs.Texts.{text_trees};
ghost use Rattle.prl_bodytext.specs.Parsing.{IsParsed};
ghost use Rattle.prl_bodytext.specs.code.Outcomes.{of_text};

use crate::bodies::bodies;
use crate::ranges::greatest;
use crate::words::{Fixed, KEYWORDS, SYMBOLS, class_of};
use prl_body::{BodyFault, BodyTexts};
use prl_lex::{LexFault, Stop, Syntax, Terminal, TextFault, class_in, read_text};
use std::alloc::Global;

/// The texts of bodies.
struct BodySyntax;

impl Syntax for BodySyntax {
    ghost use Rattle.std.specs.Prelude.{List};
    ghost use Rattle.prl_body.specs.Texts.{Tree as Nested, TextTree, text_trees};
    ghost use Rattle.prl_bodytext.specs.Parsing.{body_texts};

    type Tree = BodyTexts;

    ghost Inner = { Nested };

    ghost Seen = { List TextTree };

    ghost texts = { body_texts };

    ghost seen = { text_trees };

    fn keyword(word: &[u8]) -> Option<u8> {
        class_in(&KEYWORDS, word)
    }

    fn symbol(bytes: &[u8]) -> Option<u8> {
        class_in(&SYMBOLS, bytes)
    }

    fn inside_after(inside: bool, class: u8) -> bool {
        class == class_of(Fixed::Reg) || (class != class_of(Fixed::Semicolon) && inside)
    }

    fn fits(inside: bool, last: u8, number: u64) -> bool {
        number <= greatest(inside, last)
    }

    fn read(alloc: Global, terminals: &[Terminal]) -> Result<BodyTexts, Stop> {
        bodies(alloc, terminals)
    }
}

fn of_text(fault: TextFault) -> BodyFault
    ensures { result ≡ of_text fault }
{
    match fault {
        TextFault::Lexical(LexFault::BadToken(at)) => BodyFault::Syntax(at),
        TextFault::Lexical(LexFault::NumberRange(at)) => BodyFault::Syntax(at),
        TextFault::Lexical(LexFault::Limit(limit)) => BodyFault::Limit(limit),
        TextFault::Unexpected(at) | TextFault::NumberRange(at) => BodyFault::Syntax(at),
        TextFault::Lexical(LexFault::Memory) | TextFault::Memory => BodyFault::Memory,
    }
}

/// The bodies of the text. Else, in this order: the first fault of its tokens, which is `Limit` for a name of
/// more than 64 bytes or for more than 64 open parentheses, and else `Syntax`; `Syntax` at the token with which the
/// text stops to be the front of any bodies, or at its end where more should follow; `Syntax` at the first number
/// that its place does not allow; or want of memory.
pub fn parse_bodies(alloc: Global, text: &[u8]) -> Result<BodyTexts, BodyFault>
    requires { length text.now < 2 ^ 32 }
    // What is read is the bodies of the text.
    ensures found { IfOk result (λ t. IsParsed text.now (Ok (text_trees t))) }
    // A fault is the first one of the text, unless memory ran out.
    ensures fault { IfErr result (λ fault. fault ≢ BodyFault.Memory → IsParsed text.now (Err fault)) }
{
    match read_text::<BodySyntax>(alloc, text) {
        Ok(bodies) => Ok(bodies),
        Err(fault) => Err(of_text(fault)),
    }
}
