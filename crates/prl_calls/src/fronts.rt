//! The stages that several modes have in common, one after another: up to the clocks of the flows, to the task graph with its words,
//! and to the plan.

ghost use Rattle.std.specs.Prelude.{◌≡◌, ◌≤◌, ◌++◌, [], ◌∷◌, length};
ghost use Rattle.prl_ast.specs.Trees.{program_tree};
ghost use Rattle.prl_expand.specs.Expanding.{IsExpanded};
ghost use Rattle.prl_flow.specs.Uses.{IsOrder};
ghost use Rattle.prl_graph.specs.TaskGraphs.{IsGraphOf};
ghost use Rattle.prl_types.specs.Typing.{IsTyped};
ghost use Rattle.prl_stages.specs.Vocabulary.{HasClocks, IsMain, IsProgram, HasPlan};
ghost use Rattle.prl_stages.specs.Vocabulary.{HasWords, front, graphed, named_bodies, planned};
ghost use Rattle.prl_calls.specs.Stops.{given_of, AreFewWhere, Passes};

use crate::planned::make_dates;
use crate::programs::{check_types, read_bodies, read_program};
use crate::reading::Request;
use prl_ast::Program;
use prl_buffers::cells;
use prl_clock::clocks;
use prl_expand::{causal, expand};
use prl_flow::{Clocks, Flat, Order};
use prl_graph::graph;
use prl_names::right_names_stand_for_something;
use prl_plan::{Plan, TaskGraph, Words};
use prl_stages::{MAX_PROGRAM, Stage, Stop};
use prl_types::Typed;
use prl_words::words;
use std::alloc::Global;

/// The flat program with an order of its flows and their clocks.
pub fn flat_of(
    alloc: Global,
    request: &Request,
    typed: &Typed<'_>,
) -> Result<(Flat, Order, Clocks), Stop>
    requires program { IsProgram (given_of request.now) (program_tree typed.now.program) }
    requires typed { IsTyped (program_tree typed.now.program) (given_of request.now).node typed.now.main typed.now.types }
    ensures { Passes (given_of request.now) (Stage.Expansion ∷ Stage.Causality ∷ Stage.Clocks ∷ [])
        (λ f. IsExpanded (program_tree typed.now.program) typed.now.main typed.now.types f.0 × IsOrder f.0 f.1.flows × HasClocks (given_of request.now) f.0 f.2.of) result }
{
    right_names_stand_for_something();
    let flat = expand(alloc, typed)?;
    let order = causal(alloc, &flat)?;
    let clocks = clocks(alloc, &flat)?;
    Ok((flat, order, clocks))
}

/// A program with its main node, and its flat program with an order of its flows and their clocks.
#[derive(Drop)]
struct Front {
    program: Program,
    main: u32,
    made: (Flat, Order, Clocks),
}

/// What the modes that plan a program have in common first.
fn read_front(alloc: Global, request: &Request) -> Result<Front, Stop>
    requires program { length request.now.texts.program.items ≤ MAX_PROGRAM }
    ensures { Passes (given_of request.now) front (λ f. IsMain (given_of request.now) (program_tree f.program) f.main × HasClocks (given_of request.now) f.made.0 f.made.2.of) result }
{
    let program = read_program(alloc, request)?;
    let typed = check_types(alloc, request, &program)?;
    let main = typed.main();
    let made = flat_of(alloc, request, &typed);
    drop(typed);
    Ok(Front {
        program,
        main,
        made: made?,
    })
}

/// The task graph with its words.
pub fn make_graphed(
    alloc: Global,
    request: &Request,
    flat: &Flat,
    clocks: &Clocks,
) -> Result<(TaskGraph, Words), Stop>
    requires { HasClocks (given_of request.now) flat.now clocks.now.of }
    ensures { Passes (given_of request.now) graphed (λ made. IsGraphOf flat.now clocks.now.of made.0 × HasWords (given_of request.now) made.0 made.1.of) result }
{
    let graph = graph(alloc, flat, clocks)?;
    let words = words(alloc, &graph)?;
    Ok((graph, words))
}

/// The plan of the task graph with its words.
pub fn make_planned(
    alloc: Global,
    request: &Request,
    made: (TaskGraph, Words),
) -> Result<Plan, Stop>
    requires { HasWords (given_of request.now) made.0 made.1.of }
    ensures { Passes (given_of request.now) planned (λ plan. (plan.graph ≡ made.0) × HasPlan (given_of request.now) plan) result }
{
    let dates = make_dates(alloc, request, &made.0)?;
    let cells = cells(alloc, &made.0, &made.1, &dates)?;
    let (graph, words) = made;
    Ok(Plan::new(graph, words, dates, cells))
}

/// The task graph with its words; then the bodies are looked at, where they are named.
fn graphed_with(
    alloc: Global,
    request: &Request,
    front: &Front,
    named: bool,
) -> Result<(TaskGraph, Words), Stop>
    requires main { IsMain (given_of request.now) (program_tree front.now.program) front.now.main }
    requires clocks { HasClocks (given_of request.now) front.now.made.0 front.now.made.2.of }
    requires bodies { AreFewWhere named request.now.texts.bodies.items }
    ensures { Passes (given_of request.now) (graphed ++ named_bodies named) (λ made. HasWords (given_of request.now) made.0 made.1.of) result }
{
    let made = make_graphed(alloc, request, &front.made.0, &front.made.2)?;
    if named {
        drop(read_bodies(alloc, request, &front.program, front.main)?);
    }
    Ok(made)
}

/// The plan of the program, whose bodies are looked at on the way, where they are named.
pub fn planned_program(alloc: Global, request: &Request, named: bool) -> Result<Plan, Stop>
    requires program { length request.now.texts.program.items ≤ MAX_PROGRAM }
    requires bodies { AreFewWhere named request.now.texts.bodies.items }
    ensures { Passes (given_of request.now) (front ++ graphed ++ named_bodies named ++ planned) (HasPlan (given_of request.now)) result }
{
    let front = read_front(alloc, request)?;
    let made = graphed_with(alloc, request, &front, named);
    drop(front);
    make_planned(alloc, request, made?)
}
