//! How many inputs and outputs a node declares that a program names at a byte or behind it, in words.

ghost use Rattle.std.specs.Prelude.{◌≡◌, ◌++◌, ◌<◌, ◌^◌, All, IfOk, IfSome, Ok, OnOk, length};
ghost use Rattle.prl_ast.specs.Trees.{program_tree};
ghost use Rattle.prl_lex.specs.Lexing.{IsTokenOf, token_text, tokens_of};
ghost use Rattle.prl_syntax.specs.Parsing.{IsParsed};
ghost use Rattle.prl_spots.specs.Counted.{IsCounted, IsNamedFrom, counts_text, who_text};

use crate::counts::{Counts, declared};
use prl_ast::Program;
use prl_base::push_number;
use prl_lex::{LexFault, Token, lex, token_text};
use prl_syntax::{ParseFault, parse};
use std::alloc::{AllocError, Global};

/// A token, and what is declared of its name.
type Named<'a> = (&'a Token, Counts);

/// The first of the tokens from a byte on that is the name of an import or a node.
#[tactic(auto, using(crate::proofs::Named::named_is))]
fn named_from<'a>(
    text: &[u8],
    tokens: &'a [Token],
    program: &Program,
    at: usize,
) -> Option<Named<'a>>
    requires { All (IsTokenOf text.now) tokens.now }
    ensures token { IfSome result (λ named. IsTokenOf text.now named.0.now) }
    ensures named { IfSome result (λ named. IsNamedFrom text.now tokens.now program.now at named.0.now named.1) }
{
    for token in tokens {
        if (token.span.at as usize) < at {
            continue;
        }
        if let Some(counts) = declared(program, token_text(text, token)) {
            return Some((token, counts));
        }
    }
    None
}

/// Appends who declares.
#[tactic(auto, unfolding(crate::specs::Counted::who_text))]
fn push_who(told: &mut Vec<u8>, name: &[u8]) -> Result<(), AllocError>
    ensures { OnOk result (told.new.items ≡ told.old.items ++ who_text name.now) }
{
    told.extend_from_slice(b"`")?;
    told.extend_from_slice(name)?;
    told.extend_from_slice(b"`, which is named there or behind, declares so many inputs: ")
}

/// What is told of a name and what it declares.
#[tactic(auto, unfolding(crate::specs::Counted::counts_text))]
fn counts_of(alloc: Global, name: &[u8], counts: Counts) -> Result<Vec<u8>, AllocError>
    ensures { IfOk result (λ told. told.items ≡ counts_text name.now counts) }
{
    let mut told = Vec::new(alloc);
    push_who(&mut told, name)?;
    push_number(&mut told, counts.ins as u64)?;
    told.extend_from_slice(b"; and so many outputs: ")?;
    push_number(&mut told, counts.outs as u64)?;
    told.extend_from_slice(b".\n")?;
    Ok(told)
}

/// What is told by the program and its tokens.
#[tactic(auto, using(crate::proofs::Named::counted_is, crate::proofs::Named::nothing_is))]
fn told_by(
    alloc: Global,
    text: &[u8],
    tokens: &[Token],
    program: &Program,
    at: usize,
) -> Result<Vec<u8>, AllocError>
    requires lexed { tokens_of text.now ≡ Ok tokens.now }
    requires each { All (IsTokenOf text.now) tokens.now }
    requires parsed { IsParsed text.now (Ok (program_tree program.now)) }
    ensures { IfOk result (λ told. IsCounted text.now at told.items) }
{
    match named_from(text, tokens, program, at) {
        None => Ok(Vec::new(alloc)),
        Some((token, counts)) => Ok(counts_of(alloc, token_text(text, token), counts)?),
    }
}

/// What is told by the program of the text.
#[tactic(auto, using(crate::proofs::Named::nothing_is))]
fn told_of(alloc: Global, text: &[u8], program: &Program, at: usize) -> Result<Vec<u8>, AllocError>
    requires few { length text.now < 2 ^ 32 }
    requires parsed { IsParsed text.now (Ok (program_tree program.now)) }
    ensures { IfOk result (λ told. IsCounted text.now at told.items) }
{
    match lex(alloc, text) {
        Ok(tokens) => told_by(alloc, text, tokens.as_slice(), program, at),
        Err(LexFault::Memory) => Err(AllocError),
        Err(_) => Ok(Vec::new(alloc)),
    }
}

/// How many inputs and outputs the import or the node declares that is named first at a byte of a program or behind it.
#[tactic(auto, using(crate::proofs::Named::nothing_is))]
pub fn counts_told(alloc: Global, text: &[u8], at: usize) -> Result<Vec<u8>, AllocError>
    requires { length text.now < 2 ^ 32 }
    ensures { IfOk result (λ told. IsCounted text.now at told.items) }
{
    match parse(alloc, text) {
        Ok(program) => told_of(alloc, text, &program, at),
        Err(ParseFault::Memory) => Err(AllocError),
        Err(_) => Ok(Vec::new(alloc)),
    }
}
