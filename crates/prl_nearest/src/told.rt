//! What is told of a name that is not known, and where no node is main.

ghost use Rattle.std.specs.Prelude.{◌≡◌, ◌++◌, ◌<◌, ◌≤◌, ◌^◌, IfOk, Ok, OnOk, length};
ghost use Rattle.std.specs.List.{flat_map};
ghost use Rattle.prl_ast.specs.Trees.{program_tree};
ghost use Rattle.prl_syntax.specs.Parsing.{IsParsed};
ghost use Rattle.prl_nearest.specs.Nearest.{IsNearTold, IsNodesTold, end_text, front_text, mean_text, name_text, names_text, some_text};

use crate::nearest::near_in_program;
use prl_ast::{Node, Program};
use prl_syntax::{ParseFault, parse};
use std::alloc::{AllocError, Global};

/// What is told of a name that may be meant.
#[tactic(auto, unfolding(crate::specs::Nearest::mean_text))]
fn mean_told(alloc: Global, name: &[u8]) -> Result<Vec<u8>, AllocError>
    ensures { IfOk result (λ told. told.items ≡ mean_text name.now) }
{
    let mut told = Vec::new(alloc);
    told.extend_from_slice(b"Did you mean `")?;
    told.extend_from_slice(name)?;
    told.extend_from_slice(b"`?\n")?;
    Ok(told)
}

/// What is told of a word that a program does not know: a name that it declares, so few edits away.
#[tactic(auto, using(crate::proofs::Sayings::near_is, crate::proofs::Sayings::no_near))]
fn near_at(
    alloc: Global,
    text: &[u8],
    program: &Program,
    word: &[u8],
    most: u64,
) -> Result<Vec<u8>, AllocError>
    requires parsed { IsParsed text.now (Ok (program_tree program.now)) }
    requires small { most ≤ 2 }
    ensures { IfOk result (λ told. IsNearTold text.now word.now told.items) }
{
    match near_in_program(most, word, program) {
        None => Ok(Vec::new(alloc)),
        Some(name) => mean_told(alloc, name),
    }
}

/// What is told of a word that a program does not know: the first name that it declares that is one edit away, or else the first that
/// is two away, of fewer edits than half of its bytes.
fn near_of(
    alloc: Global,
    text: &[u8],
    program: &Program,
    word: &[u8],
) -> Result<Vec<u8>, AllocError>
    requires { IsParsed text.now (Ok (program_tree program.now)) }
    ensures { IfOk result (λ told. IsNearTold text.now word.now told.items) }
{
    let told = near_at(alloc, text, program, word, 1)?;
    if told.is_empty() {
        near_at(alloc, text, program, word, 2)
    } else {
        Ok(told)
    }
}

/// What is told of a word that a program does not know: a name that it declares and that is spelt nearly so. Nothing where there is
/// none, and where the text is no program.
#[tactic(auto, using(crate::proofs::Sayings::no_near))]
pub fn near_told(alloc: Global, text: &[u8], word: &[u8]) -> Result<Vec<u8>, AllocError>
    requires { length text.now < 2 ^ 32 }
    ensures { IfOk result (λ told. IsNearTold text.now word.now told.items) }
{
    match parse(alloc, text) {
        Ok(program) => near_of(alloc, text, &program, word),
        Err(ParseFault::Memory) => Err(AllocError),
        Err(_) => Ok(Vec::new(alloc)),
    }
}

/// Appends the names of nodes.
#[tactic(auto, unfolding(crate::specs::Nearest::name_text))]
fn push_each(told: &mut Vec<u8>, nodes: &[Node]) -> Result<(), AllocError>
    ensures { OnOk result (told.new.items ≡ told.old.items ++ flat_map name_text nodes.now) }
{
    for node in nodes {
        told.extend_from_slice(b" ")?;
        told.extend_from_slice(node.name.bytes())?;
    }
    Ok(())
}

/// Appends what stands before names of nodes.
fn push_front(told: &mut Vec<u8>) -> Result<(), AllocError>
    ensures { OnOk result (told.new.items ≡ told.old.items ++ front_text) }
{
    told.extend_from_slice(b"The nodes are")
}

/// Appends what stands behind names of nodes.
fn push_end(told: &mut Vec<u8>) -> Result<(), AllocError>
    ensures { OnOk result (told.new.items ≡ told.old.items ++ end_text) }
{
    told.extend_from_slice(b".\n")
}

/// Appends the names of some nodes.
fn push_some(told: &mut Vec<u8>, nodes: &[Node]) -> Result<(), AllocError>
    ensures { OnOk result (told.new.items ≡ told.old.items ++ some_text nodes.now) }
{
    push_front(told)?;
    push_each(told, nodes)?;
    push_end(told)
}

/// Appends the names of nodes, or that there is none.
fn push_names(told: &mut Vec<u8>, nodes: &[Node]) -> Result<(), AllocError>
    ensures { OnOk result (told.new.items ≡ told.old.items ++ names_text nodes.now) }
{
    if nodes.len() == 0 {
        told.extend_from_slice(b"The program has no node but imported ones.\n")
    } else {
        push_some(told, nodes)
    }
}

/// What is told of the nodes of a program.
#[tactic(auto, using(crate::proofs::Sayings::nodes_are))]
fn nodes_of(alloc: Global, text: &[u8], program: &Program) -> Result<Vec<u8>, AllocError>
    requires { IsParsed text.now (Ok (program_tree program.now)) }
    ensures { IfOk result (λ told. IsNodesTold text.now told.items) }
{
    let mut told = Vec::new(alloc);
    push_names(&mut told, program.nodes.as_slice())?;
    Ok(told)
}

/// What is told where no node of a program is main: the names of its nodes. Nothing where the text is no program.
#[tactic(auto, using(crate::proofs::Sayings::no_nodes))]
pub fn nodes_told(alloc: Global, text: &[u8]) -> Result<Vec<u8>, AllocError>
    requires { length text.now < 2 ^ 32 }
    ensures { IfOk result (λ told. IsNodesTold text.now told.items) }
{
    match parse(alloc, text) {
        Ok(program) => nodes_of(alloc, text, &program),
        Err(ParseFault::Memory) => Err(AllocError),
        Err(_) => Ok(Vec::new(alloc)),
    }
}
