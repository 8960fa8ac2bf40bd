//! What stands in a program where something else has to, and what might stand there: words are tried, and the parser says of which it
//! reads on.

ghost use Rattle.std.specs.Prelude.{◌≡◌, ◌≢◌, ◌≤◌, ◌<◌, ◌++◌, ◌^◌, All, Err, IfOk, IfSome, Ok, OnOk, length};
ghost use Rattle.std.specs.Bool.{OnTrue};
ghost use Rattle.std.specs.List.{flat_map};
ghost use Rattle.std.specs.Option.{option_map};
ghost use Rattle.prl_ast.specs.Trees.{ProgramTree};
ghost use Rattle.prl_lex.specs.Lexing.{IsTokenOf, token_text, tokens_of};
ghost use Rattle.prl_spots.specs.Spots.{byte_at};
ghost use Rattle.prl_spots.specs.Unexpected.{IsReadOn, IsRefusedAt, IsTokenThere, IsUnexpected, IsUnexpectedAt, IsWordTold, MayStand, stands_text, trial_text, trials_text, tried};

use crate::spots::byte_at;
use prl_lex::{LexFault, Token, lex, token_text};
use prl_syntax::{ParseFault, parse};
use std::alloc::{AllocError, Global};

/// A word that is tried, and what is said of it.
#[derive(Clone, Copy)]
pub struct Trial {
    pub word: &'static [u8],
    pub said: &'static str,
}

/// The words that are tried, one of each kind, and behind a blank what is said of each.
static TRIALS: [&str; 30] = [
    "; `;`",
    ", `,`",
    ") `)`",
    "( `(`",
    ": `:`",
    "= `=`",
    "x a name",
    "1 a number",
    "- `-`",
    "/ `/`",
    "true `true`",
    "false `false`",
    "*^ `*^`",
    "/^ `/^`",
    "~> `~>`",
    "fby `fby`",
    ":: `::`",
    "tail `tail`",
    "rate `rate`",
    "due `due`",
    "int `int`",
    "bool `bool`",
    "wcet `wcet`",
    "returns `returns`",
    "var `var`",
    "let `let`",
    "tel `tel`",
    "node `node`",
    "imported `imported`",
    "sensor `sensor` `actuator`",
];

/// The words that are tried.
fn trials() -> &'static [&'static str] {
    &TRIALS
}

/// The most bytes of a word that is tried.
const MAX_WORD: usize = 64;

/// The token that begins at a byte.
fn token_at<'a>(text: &[u8], tokens: &'a [Token], at: usize) -> Option<&'a Token>
    requires { All (IsTokenOf text.now) tokens.now }
    ensures of_text { IfSome result (λ token. IsTokenOf text.now token.now) }
    ensures there { IfSome result (λ token. IsTokenThere tokens.now at token.now) }
{
    for token in tokens {
        if token.span.at as usize == at {
            return Some(token);
        }
    }
    None
}

/// The text up to a byte, and then a blank and a word.
fn tried(alloc: Global, text: &[u8], at: usize, word: &[u8]) -> Result<Vec<u8>, AllocError>
    requires { at ≤ length text.now }
    ensures { IfOk result (λ bytes. bytes.items ≡ tried text.now at word.now) }
{
    let mut tried = Vec::from_slice(alloc, &text[..at])?;
    tried.push(b' ')?;
    tried.extend_from_slice(word)?;
    Ok(tried)
}

/// Whether a fault is another one than that something else has to stand at a byte.
fn is_other(fault: ParseFault, at: u32) -> bool
    ensures other { OnTrue result (fault ≢ ParseFault.Unexpected at) }
    ensures known { OnTrue result (fault ≢ ParseFault.Memory) }
{
    match fault {
        ParseFault::Unexpected(other) => other != at,
        ParseFault::BadToken(_) => true,
        ParseFault::NumberRange(_) => true,
        ParseFault::Limit(_) => true,
        ParseFault::Memory => false,
    }
}

/// Whether what comes of a text is not that something else has to stand at a byte.
#[tactic(auto, using(crate::proofs::Here::read_whole, crate::proofs::Here::read_on))]
fn is_read_on(alloc: Global, text: &[u8], at: u32) -> Result<bool, AllocError>
    requires { length text.now < 2 ^ 32 }
    ensures { IfOk result (λ yes. OnTrue yes (IsReadOn text.now at)) }
{
    match parse(alloc, text) {
        Ok(_) => Ok(true),
        Err(ParseFault::Memory) => Err(AllocError),
        Err(fault) => {
            if is_other(fault, at) {
                Ok(true)
            } else {
                Ok(false)
            }
        }
    }
}

/// Whether a word may stand at a byte in the place of what stands there.
fn may_stand(alloc: Global, text: &[u8], at: usize, word: &[u8]) -> Result<bool, AllocError>
    requires at { at ≤ length text.now }
    requires few { length text.now < 2 ^ 31 }
    ensures { IfOk result (λ yes. OnTrue yes (MayStand text.now at word.now)) }
{
    if word.len() > MAX_WORD {
        return Ok(false);
    }
    let tried = tried(alloc, text, at, word)?;
    is_read_on(alloc, &tried, at as u32 + 1)
}

/// Whether the text is no program because something else has to stand at a byte.
fn is_refused_at(alloc: Global, text: &[u8], at: usize) -> Result<bool, AllocError>
    requires { length text.now < 2 ^ 32 }
    ensures { IfOk result (λ yes. OnTrue yes (IsRefusedAt text.now at)) }
{
    match parse(alloc, text) {
        Ok(_) => Ok(false),
        Err(ParseFault::Memory) => Err(AllocError),
        Err(ParseFault::Unexpected(other)) => Ok(other as usize == at),
        Err(ParseFault::BadToken(_)) => Ok(false),
        Err(ParseFault::NumberRange(_)) => Ok(false),
        Err(ParseFault::Limit(_)) => Ok(false),
    }
}

/// The word of a row and what is said of it.
fn trial_of(row: &'static str) -> Trial {
    let (word, said) = row.split_once(' ').unwrap_or((row, ""));
    let word = word.as_bytes();
    Trial { word, said }
}

/// The words of which each may stand at a byte.
fn standing(alloc: Global, text: &[u8], at: usize) -> Result<Vec<Trial>, AllocError>
    requires at { at ≤ length text.now }
    requires few { length text.now < 2 ^ 31 }
    ensures { IfOk result (λ trials. All (λ t. MayStand text.now at t.word.now) trials.items) }
{
    let mut standing = Vec::new(alloc);
    for row in trials() {
        let trial = trial_of(row);
        if may_stand(alloc, text, at, trial.word)? {
            standing.push(trial)?;
        }
    }
    Ok(standing)
}

/// Appends what is said of words.
fn push_each(told: &mut Vec<u8>, trials: &[Trial]) -> Result<(), AllocError>
    ensures { OnOk result (told.new.items ≡ told.old.items ++ flat_map trial_text trials.now) }
{
    for trial in trials {
        told.push(b' ')?;
        told.extend_from_slice(trial.said.as_bytes())?;
    }
    Ok(())
}

/// Appends which words might stand there.
fn push_trials(told: &mut Vec<u8>, trials: &[Trial]) -> Result<(), AllocError>
    ensures { OnOk result (told.new.items ≡ told.old.items ++ trials_text trials.now) }
{
    if trials.is_empty() {
        return Ok(());
    }
    told.extend_from_slice(b"Here might stand:")?;
    push_each(told, trials)?;
    told.extend_from_slice(b".\n")
}

/// What is told of a token: that it stands there.
#[tactic(auto, unfolding(crate::specs::Unexpected::stands_text))]
fn token_told(alloc: Global, text: &[u8], token: &Token) -> Result<Vec<u8>, AllocError>
    requires { IsTokenOf text.now token.now }
    ensures { IfOk result (λ told. told.items ≡ stands_text (token_text text.now token.now)) }
{
    let mut told = Vec::new(alloc);
    told.extend_from_slice(b"Here stands `")?;
    told.extend_from_slice(token_text(text, token))?;
    told.extend_from_slice(b"`.\n")?;
    Ok(told)
}

/// What is told of a token that begins at a byte.
#[tactic(auto, using(crate::proofs::Here::here_is, crate::proofs::Here::nothing_is))]
fn here_told(alloc: Global, text: &[u8], tokens: &[Token], at: usize) -> Result<Vec<u8>, AllocError>
    requires lexed { tokens_of text.now ≡ Ok tokens.now }
    requires each { All (IsTokenOf text.now) tokens.now }
    ensures { IfOk result (λ told. IsWordTold text.now (Some at) told.items) }
{
    match token_at(text, tokens, at) {
        None => Ok(Vec::new(alloc)),
        Some(token) => Ok(token_told(alloc, text, token)?),
    }
}

/// What is told of the word at a byte.
fn word_told(alloc: Global, text: &[u8], at: usize) -> Result<Vec<u8>, AllocError>
    requires { length text.now < 2 ^ 32 }
    ensures { IfOk result (λ told. IsWordTold text.now (Some at) told.items) }
{
    match lex(alloc, text) {
        Ok(tokens) => here_told(alloc, text, tokens.as_slice(), at),
        Err(LexFault::Memory) => Err(AllocError),
        Err(_) => Ok(Vec::new(alloc)),
    }
}

/// What stands at the byte that a number tells, in a program or in bodies.
pub fn here_of(alloc: Global, text: &[u8], number: &[u8]) -> Result<Vec<u8>, AllocError>
    requires { length text.now < 2 ^ 32 }
    ensures { IfOk result (λ told. IsWordTold text.now (byte_at text.now number.now) told.items) }
{
    match byte_at(text, number) {
        None => Ok(Vec::new(alloc)),
        Some(at) => word_told(alloc, text, at),
    }
}

/// What stands at a byte of a program, and what might stand there.
#[tactic(auto, using(crate::proofs::Here::with_trials, crate::proofs::Here::without_trials))]
fn told_at(alloc: Global, text: &[u8], at: usize) -> Result<Vec<u8>, AllocError>
    requires at { at ≤ length text.now }
    requires few { length text.now < 2 ^ 31 }
    ensures { IfOk result (λ told. IsUnexpected text.now at told.items) }
{
    let mut told = word_told(alloc, text, at)?;
    if !is_refused_at(alloc, text, at)? {
        return Ok(told);
    }
    let trials = standing(alloc, text, at)?;
    push_trials(&mut told, trials.as_slice())?;
    Ok(told)
}

/// What stands at the byte of a program that a number tells, and what might stand there.
pub fn unexpected_told(alloc: Global, text: &[u8], number: &[u8]) -> Result<Vec<u8>, AllocError>
    requires { length text.now < 2 ^ 31 }
    ensures { IfOk result (λ told. IsUnexpectedAt text.now (byte_at text.now number.now) told.items) }
{
    match byte_at(text, number) {
        None => Ok(Vec::new(alloc)),
        Some(at) => told_at(alloc, text, at),
    }
}
