//! From a text to its program, or to its first fault.

ghost use Rattle.std.specs.Prelude.{◌≡◌, ◌≢◌, ◌<◌, ◌^◌, length, IfOk, IfErr, Ok, Err};
ghost use Rattle.prl_base.specs.Reading.{GivesBut};
ghost use Rattle.prl_ast.specs.Trees.{program_tree};
ghost use Rattle.prl_syntax.specs.Parsing.{IsParsed};
ghost use Rattle.prl_syntax.specs.code.Outcomes.{of_text, limited};

use crate::nodes::program;
use crate::ranges::is_in_range;
use crate::words::{Fixed, KEYWORDS, SYMBOLS, class_of};
use prl_ast::Program;
use prl_base::{Limit, What};
use prl_lex::{LexFault, Stop, Syntax, Terminal, TextFault, class_in, read_text};
use std::alloc::Global;

/// The most nodes of a program.
const MAX_NODES: usize = 256;

/// Why a text is no program.
#[derive(Clone, Copy, Debug)]
pub enum ParseFault {
    /// No token begins at this byte.
    BadToken(u32),
    /// No program begins with the tokens up to the one at this byte, or up to the end of the text.
    Unexpected(u32),
    /// The number at this byte is out of its range.
    NumberRange(u32),
    /// A name of more than 64 bytes, more than 64 open parentheses, or more than 256 nodes.
    Limit(Limit),
    Memory,
}

/// The texts of programs.
struct ProgramSyntax;

impl Syntax for ProgramSyntax {
    ghost use Rattle.prl_ast.specs.Trees.{ProgramTree, program_tree};
    ghost use Rattle.prl_syntax.specs.Parsing.{program_texts};
    ghost use Rattle.prl_syntax.specs.Trees.{StemTree};

    type Tree = Program;

    ghost Inner = { StemTree };

    ghost Seen = { ProgramTree };

    ghost texts = { program_texts };

    ghost seen = { program_tree };

    fn keyword(word: &[u8]) -> Option<u8> {
        class_in(&KEYWORDS, word)
    }

    fn symbol(bytes: &[u8]) -> Option<u8> {
        class_in(&SYMBOLS, bytes)
    }

    fn inside_after(inside: bool, class: u8) -> bool {
        class == class_of(Fixed::Rate) || (class != class_of(Fixed::Close) && inside)
    }

    fn fits(inside: bool, last: u8, number: u64) -> bool {
        is_in_range(inside, last, number)
    }

    fn read(alloc: Global, terminals: &[Terminal]) -> Result<Program, Stop> {
        program(alloc, terminals)
    }
}

fn of_text(fault: TextFault) -> ParseFault
    ensures { result ≡ of_text fault }
{
    match fault {
        TextFault::Lexical(LexFault::BadToken(at)) => ParseFault::BadToken(at),
        TextFault::Lexical(LexFault::NumberRange(at)) => ParseFault::NumberRange(at),
        TextFault::Lexical(LexFault::Limit(limit)) => ParseFault::Limit(limit),
        TextFault::Unexpected(at) => ParseFault::Unexpected(at),
        TextFault::NumberRange(at) => ParseFault::NumberRange(at),
        TextFault::Lexical(LexFault::Memory) | TextFault::Memory => ParseFault::Memory,
    }
}

/// The program, if it has at most 256 nodes.
fn limited(program: Program) -> Result<Program, ParseFault>
    ensures { GivesBut ParseFault.Memory program_tree result (limited (program_tree program)) }
{
    if program.nodes.len() > MAX_NODES {
        return Err(ParseFault::Limit(Limit {
            what: What::Nodes,
            found: MAX_NODES as u64 + 1,
        }));
    }
    Ok(program)
}

/// The program that the text is. Else, in this order: the fault of its tokens; the token with which the text
/// stops to be the front of any program; the first number that its place does not allow; more than 256 nodes;
/// or want of memory.
pub fn parse(alloc: Global, text: &[u8]) -> Result<Program, ParseFault>
    requires { length text.now < 2 ^ 32 }
    // What is read is the program of the text.
    ensures found { IfOk result (λ p. IsParsed text.now (Ok (program_tree p))) }
    // A fault is the first one of the text, unless memory ran out.
    ensures fault { IfErr result (λ fault. fault ≢ ParseFault.Memory → IsParsed text.now (Err fault)) }
{
    match read_text::<ProgramSyntax>(alloc, text) {
        Ok(program) => limited(program),
        Err(fault) => Err(of_text(fault)),
    }
}
