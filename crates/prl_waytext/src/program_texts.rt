//! What comes of the text of a program alone, on the way to its plan.

ghost use Rattle.std.specs.Prelude.{◌<◌, ◌^◌, Ok, IfOk, IfSome, length};
ghost use Rattle.std.specs.Option.{option_copied};
ghost use Rattle.prl_ast.specs.Trees.{program_tree};
ghost use Rattle.prl_syntax.specs.Parsing.{IsParsed};
ghost use Rattle.prl_types.specs.Typing.{IsTyped};
ghost use Rattle.prl_clock.specs.Outcomes.{AreOnlyClocks};
ghost use Rattle.prl_flow.specs.Uses.{HasNoCycle};
ghost use Rattle.prl_graph.specs.TaskGraphs.{IsGraphOf};
ghost use Rattle.prl_waytext.specs.ProgramTexts.{IsFlatOf, IsGraphIn};

use prl_ast::Program;
use prl_base::Label;
use prl_clock::{ClockFault, clocks};
use prl_expand::{CausalFault, ExpandFault, causal, expand};
use prl_flow::{Clocks, Flat};
use prl_graph::{GraphFault, graph};
use prl_plan::TaskGraph;
use prl_print::programs_are_in_range;
use prl_syntax::{ParseFault, parse};
use prl_types::{TypeFault, Typed, check_names_types};
use std::alloc::{AllocError, Global};

/// The program of a text; None where that is none.
fn program_of(alloc: Global, text: &[u8]) -> Result<Option<Program>, AllocError>
    requires { length text.now < 2 ^ 32 }
    ensures { IfOk result (λ found. IfSome found (λ p. IsParsed text.now (Ok (program_tree p)))) }
{
    match parse(alloc, text) {
        Ok(program) => Ok(Some(program)),
        Err(ParseFault::Memory) => Err(AllocError),
        Err(_) => Ok(None),
    }
}

/// The flat program of a typed one; None where it has too many flows.
#[tactic(auto, using(crate::proofs::Flats::flat_is))]
fn expanded(
    alloc: Global,
    text: &[u8],
    node: Option<&Label>,
    typed: &Typed<'_>,
) -> Result<Option<Flat>, AllocError>
    requires parsed { IsParsed text.now (Ok (program_tree typed.now.program)) }
    requires typed { IsTyped (program_tree typed.now.program) (option_copied node) typed.now.main typed.now.types }
    ensures { IfOk result (λ found. IfSome found (IsFlatOf text.now (option_copied node.entry))) }
{
    match expand(alloc, typed) {
        Ok(flat) => Ok(Some(flat)),
        Err(ExpandFault::Memory) => Err(AllocError),
        Err(_) => Ok(None),
    }
}

/// The flat program of a program, where main is the node of this name, or the last one where none is given; None where it has
/// none.
pub(crate) fn flat_of_text(
    alloc: Global,
    text: &[u8],
    node: Option<&Label>,
) -> Result<Option<Flat>, AllocError>
    requires { length text.now < 2 ^ 32 }
    ensures { IfOk result (λ found. IfSome found (IsFlatOf text.now (option_copied node.entry))) }
{
    let Some(program) = program_of(alloc, text)? else {
        return Ok(None);
    };
    programs_are_in_range();
    match check_names_types(alloc, &program, node) {
        Ok(typed) => expanded(alloc, text, node, &typed),
        Err(TypeFault::Memory) => Err(AllocError),
        Err(_) => Ok(None),
    }
}

/// The clocks of a flat program without a cycle; None where it has none.
fn clocks_of(alloc: Global, flat: &Flat) -> Result<Option<Clocks>, AllocError>
    ensures { IfOk result (λ found. IfSome found (λ clocks. AreOnlyClocks flat.now clocks.of × HasNoCycle flat.now)) }
{
    match causal(alloc, flat) {
        Ok(_) => match clocks(alloc, flat) {
            Ok(clocks) => Ok(Some(clocks)),
            Err(ClockFault::Memory) => Err(AllocError),
            Err(_) => Ok(None),
        },
        Err(CausalFault::Memory) => Err(AllocError),
        Err(CausalFault::Cycle(_)) => Ok(None),
    }
}

/// The task graph of a flat program; None where it has none.
#[tactic(auto, using(crate::proofs::Flats::small))]
fn graph_in(alloc: Global, flat: &Flat, clocks: &Clocks) -> Result<Option<TaskGraph>, AllocError>
    requires clocks { AreOnlyClocks flat.now clocks.now.of }
    requires acyclic { HasNoCycle flat.now }
    ensures { IfOk result (λ found. IfSome found (IsGraphOf flat.now clocks.now.of)) }
{
    match graph(alloc, flat, clocks) {
        Ok(graph) => Ok(Some(graph)),
        Err(GraphFault::Memory) => Err(AllocError),
        Err(_) => Ok(None),
    }
}

/// The task graph of a program, where main is the node of this name, or the last one where none is given; None where it has none.
#[tactic(auto, using(crate::proofs::Flats::graph_is))]
pub(crate) fn graph_of_text(
    alloc: Global,
    text: &[u8],
    node: Option<&Label>,
) -> Result<Option<TaskGraph>, AllocError>
    requires { length text.now < 2 ^ 32 }
    ensures { IfOk result (λ found. IfSome found (IsGraphIn text.now (option_copied node.entry))) }
{
    let Some(flat) = flat_of_text(alloc, text, node)? else {
        return Ok(None);
    };
    let Some(clocks) = clocks_of(alloc, &flat)? else {
        return Ok(None);
    };
    graph_in(alloc, &flat, &clocks)
}
