//! The checks of the names of a program.

ghost use Rattle.std.specs.Prelude.{◌≡◌, ◌≢◌, ◌<◌, IfOk, IfSome, length};
ghost use Rattle.std.specs.Option.{option_copied};
ghost use Rattle.prl_base.specs.Reading.{GivesBut};
ghost use Rattle.prl_ast.specs.Trees.{program_tree};
ghost use Rattle.prl_names.specs.Named.{IsNamed};
ghost use Rattle.prl_names.specs.Checks.{fault_of, main_of, names_of};
ghost use Rattle.prl_names.specs.declared.checks.NameFault.TheVariants.{Memory};

use crate::absences::{undefined, without_device};
use crate::applications::recursive;
use crate::lookups::Names;
use crate::repeats::repeat;
use crate::unknowns::unknown;
use prl_base::{Label, Name};
use std::alloc::{AllocError, Global};

/// Why the names of a program are refused.
#[derive(Drop)]
pub enum NameFault {
    /// A name that is declared or defined a second time; number 11.
    Twice(Name),
    /// A name that is used and stands for nothing, or an input or output of main without a device; number 10.
    Unknown(Name),
    /// An output or a local without an equation; number 15.
    Undefined(Name),
    /// A node that applies itself through a cycle of applications; number 16.
    Recursive(Name),
    /// The program has no node at all, or no node has the name that was asked for; number 14.
    NoMain,
    Memory,
}

impl From<AllocError> for NameFault {
    ghost from_gives = { λ _ e. e ≡ Memory };

    fn from(_error: AllocError) -> NameFault {
        NameFault::Memory
    }
}

/// The index of the main node: the one of the name, or where no name is given the last.
fn main_of(names: &Names<'_>, main: Option<&Label>) -> Option<usize>
    ensures index { result ≡ main_of (program_tree names.now) (option_copied main.entry) }
    ensures within { IfSome result (λ node. node < length names.now.nodes) }
{
    let nodes = names.program().nodes.as_slice();
    match main {
        None => {
            if nodes.is_empty() {
                None
            } else {
                Some(nodes.len() - 1)
            }
        }
        Some(label) => {
            for (k, node) in nodes.iter().enumerate() {
                if node.name.bytes() == label.bytes() {
                    return Some(k);
                }
            }
            None
        }
    }
}

/// What is wrong with a name.
#[derive(Clone, Copy)]
enum Wrong {
    Twice,
    Unknown,
    Undefined,
    Recursive,
}

/// That this is wrong with the name, or want of memory.
fn wrong_name(alloc: Global, wrong: Wrong, name: &Name) -> NameFault
    ensures { result ≢ NameFault.Memory → result ≡ fault_of wrong name.now }
{
    match name.copy(alloc) {
        Ok(name) => match wrong {
            Wrong::Twice => NameFault::Twice(name),
            Wrong::Unknown => NameFault::Unknown(name),
            Wrong::Undefined => NameFault::Undefined(name),
            Wrong::Recursive => NameFault::Recursive(name),
        },
        Err(_) => NameFault::Memory,
    }
}

/// The index of the main node, or the first fault.
#[tactic(auto, unfolding(crate::specs::Checks::names_of))]
fn checked(alloc: Global, names: &Names<'_>, main: Option<&Label>) -> Result<usize, NameFault>
    ensures { GivesBut NameFault.Memory (λ node. node) result (names_of (program_tree names.now) (option_copied main.entry)) }
{
    let program = names.program();
    if let Some(mention) = repeat(alloc, names)? {
        return Err(wrong_name(alloc, Wrong::Twice, mention.name));
    }
    if let Some(name) = unknown(names) {
        return Err(wrong_name(alloc, Wrong::Unknown, name));
    }
    if let Some(name) = undefined(alloc, program)? {
        return Err(wrong_name(alloc, Wrong::Undefined, name));
    }
    if let Some(name) = recursive(alloc, names)? {
        return Err(wrong_name(alloc, Wrong::Recursive, name));
    }
    let node = main_of(names, main).ok_or(NameFault::NoMain)?;
    if let Some(name) = without_device(alloc, program, node)? {
        return Err(wrong_name(alloc, Wrong::Unknown, name));
    }
    Ok(node)
}

/// The index of the main node in the list of nodes, counted from 0: of the node of the name `main`, or where no
/// name is given of the last.
///
/// Else the first fault in this order, and within a row the first in the order of the text. All nodes are looked at,
/// also such as main does not apply.
///
/// - `Twice`: two declarations of one space share a name (nodes with imports, sensors, actuators, the flows of a node,
///   the ports of an import), or a flow has two definitions, of which an input has one by its declaration.
/// - `Unknown`: a name in an equation, on its left or in its expression, stands for no flow of the node, or what is
///   applied is declared nowhere.
/// - `Undefined`: an output or a local has no equation.
/// - `Recursive`: a node applies itself, directly or through others.
/// - `NoMain`: the program has no node at all, or no node has the name `main`.
/// - `Unknown`: an input of main has no sensor of its name, or an output no actuator.
/// - `Memory`: memory ran out; this may come in place of each of the others.
pub fn check_names(
    alloc: Global,
    names: &Names<'_>,
    main: Option<&Label>,
) -> Result<usize, NameFault>
    // The main node, or the first fault.
    ensures exact { GivesBut NameFault.Memory (λ node. node) result (names_of (program_tree names.now) (option_copied main.entry)) }
    // What is known of a program whose names are right.
    ensures named { IfOk result (IsNamed (program_tree names.now)) }
{
    checked(alloc, names, main)
}
