//! What is told beside the place and the sentence of a line, by the files that the words name.

ghost use Rattle.std.specs.Prelude.{◌≡◌, ◌++◌, ◌<◌, ◌^◌, IfOk, OnOk, length, map};
ghost use Rattle.std.specs.Option.{option_map};
ghost use Rattle.std.specs.String.{string_bytes};
ghost use Rattle.prl_base.specs.Decimals.{decimal_of};
ghost use Rattle.prl_schedules.specs.ScheduleTexts.{task_names};
ghost use Rattle.prl_sentences.specs.Sentences.{word_at};
ghost use Rattle.prl_explain.specs.Details.{IsLeftIn, IsOfSchedule, IsOverloadIn, IsPlacingIn, IsPlanFrom, IsTableIn};
ghost use Rattle.prl_tablefaults.specs.LoadTexts.{IsUnsteadyTold};
ghost use Rattle.prl_explain.specs.Explanations.{AreNodesIn, IsByPlan, IsCountedAt, IsCountedIn, IsDetail, IsNearIn, IsTwiceIn, IsUnexpectedIn, ask_text, program_in, words_told};
ghost use Rattle.prl_explain.specs.Placings.{tasks_text};
ghost use Rattle.prl_explain.specs.Texts.{AreFew, text_in};
ghost use Rattle.prl_waytext.specs.Ways.{IsChainTold, IsCircleTold, IsClashTold, IsCycleTold};

use crate::details::{
    broken_told, left_told, overload_in_plan, placing_in, plan_from, table_in_plan, tasks_told,
};
use crate::texts::{Texts, text_in};
use prl_arguments::words_told;
use prl_nearest::{near_told, nodes_told};
use prl_plan::{Plan, Rule};
use prl_sentences::{Detail, Part, word_at};
use prl_spots::{counts_told, here_of, twice_told, unexpected_told};
use prl_tablefaults::unsteady_told;
use prl_waytext::{byte_of, chain_told, circle_told, clash_told, cycle_told};
use std::alloc::{AllocError, Global};

/// The plan that the texts give.
fn plan_in(alloc: Global, texts: &Texts) -> Result<Option<Plan>, AllocError>
    requires { AreFew texts.now }
    ensures { IfOk result (IsPlanFrom (text_in texts.now Part.Plan) (program_in texts.now) texts.now.node) }
{
    let text = text_in(texts, Part::Plan);
    plan_from(
        alloc,
        text,
        text_in(texts, Part::Program),
        texts.node.as_ref(),
    )
}

/// What is told of an event that breaks a rule.
#[tactic(auto, using(crate::proofs::Sayings::by_plan, crate::proofs::Sayings::without_plan))]
fn broken_in(
    alloc: Global,
    texts: &Texts,
    argument: &[u8],
    rule: Rule,
) -> Result<Vec<u8>, AllocError>
    requires { AreFew texts.now }
    ensures { IfOk result (λ text. IsByPlan texts.now (λ plan told. IsOfSchedule plan (text_in texts.now Part.Schedule) argument.now rule told) text.items) }
{
    match plan_in(alloc, texts)? {
        None => Ok(Vec::new(alloc)),
        Some(plan) => { broken_told(alloc, &plan, text_in(texts, Part::Schedule), argument, rule) }
    }
}

/// What is told of what a job is left to do.
#[tactic(auto, using(crate::proofs::Sayings::by_plan, crate::proofs::Sayings::without_plan))]
fn left_in(alloc: Global, texts: &Texts, name: &[u8], number: &[u8]) -> Result<Vec<u8>, AllocError>
    requires { AreFew texts.now }
    ensures { IfOk result (λ text. IsByPlan texts.now (λ plan told. IsLeftIn plan (text_in texts.now Part.Schedule) name.now number.now told) text.items) }
{
    match plan_in(alloc, texts)? {
        None => Ok(Vec::new(alloc)),
        Some(plan) => left_told(alloc, &plan, text_in(texts, Part::Schedule), name, number),
    }
}

/// What is told of the tasks.
#[tactic(auto, using(crate::proofs::Sayings::by_plan, crate::proofs::Sayings::without_plan))]
fn tasks_in(alloc: Global, texts: &Texts) -> Result<Vec<u8>, AllocError>
    requires { AreFew texts.now }
    ensures { IfOk result (λ text. IsByPlan texts.now (λ plan told. told ≡ tasks_text (task_names plan)) text.items) }
{
    match plan_in(alloc, texts)? {
        None => Ok(Vec::new(alloc)),
        Some(plan) => tasks_told(alloc, &plan),
    }
}

/// What is told of a line of a text of processors.
#[tactic(auto, using(crate::proofs::Sayings::by_plan, crate::proofs::Sayings::without_plan))]
fn placing_told(alloc: Global, texts: &Texts, argument: &[u8]) -> Result<Vec<u8>, AllocError>
    requires { AreFew texts.now }
    ensures { IfOk result (λ text. IsByPlan texts.now (λ plan told. IsPlacingIn plan (text_in texts.now Part.Cores) argument.now told) text.items) }
{
    match plan_in(alloc, texts)? {
        None => Ok(Vec::new(alloc)),
        Some(plan) => placing_in(alloc, &plan, text_in(texts, Part::Cores), argument),
    }
}

/// What is told of a name that the program has twice.
fn twice_in(alloc: Global, texts: &Texts, name: &[u8]) -> Result<Vec<u8>, AllocError>
    requires { AreFew texts.now }
    ensures { IfOk result (λ text. IsTwiceIn (program_in texts.now) name.now text.items) }
{
    match text_in(texts, Part::Program) {
        None => Ok(Vec::new(alloc)),
        Some(source) => twice_told(alloc, source, name),
    }
}

/// What is told of what stands at a byte where something else has to.
fn unexpected_in(
    alloc: Global,
    texts: &Texts,
    part: Part,
    number: &[u8],
) -> Result<Vec<u8>, AllocError>
    requires { AreFew texts.now }
    ensures { IfOk result (λ text. IsUnexpectedIn part (text_in texts.now part) number.now text.items) }
{
    match (text_in(texts, part), part) {
        (None, _) => Ok(Vec::new(alloc)),
        (Some(source), Part::Program) => unexpected_told(alloc, source, number),
        (Some(source), _) => here_of(alloc, source, number),
    }
}

/// Appends how to ask which word of a command is wrong.
#[tactic(auto, unfolding(crate::specs::Explanations::ask_text))]
fn push_ask(text: &mut Vec<u8>) -> Result<(), AllocError>
    ensures { OnOk result (text.new.items ≡ text.old.items ++ ask_text) }
{
    text.extend_from_slice(
        b"Give the words of the command after `--`, as in `prelude_explain -- ",
    )?;
    text.extend_from_slice(b"check --program FILE`, and it is told which one is wrong.\n")
}

/// What is told of the words of the command that was refused: which is wrong first; or how to ask for that.
fn words_in(alloc: Global, command: Option<&[String]>) -> Result<Vec<u8>, AllocError>
    ensures { IfOk result (λ text. text.items ≡ words_told (option_map (λ rest. map string_bytes rest.now) command.entry)) }
{
    let Some(words) = command else {
        let mut text = Vec::new(alloc);
        push_ask(&mut text)?;
        return Ok(text);
    };
    words_told(alloc, words)
}

/// What is told of numbers of flows that differ at this byte of a program.
#[tactic(auto, using(crate::proofs::Sayings::count_is, crate::proofs::Sayings::no_count))]
fn counts_at(alloc: Global, source: &[u8], number: &[u8]) -> Result<Vec<u8>, AllocError>
    requires { length source.now < 2 ^ 32 }
    ensures { IfOk result (λ text. IsCountedAt source.now (decimal_of number.now) text.items) }
{
    match byte_of(number) {
        None => Ok(Vec::new(alloc)),
        Some(at) => counts_told(alloc, source, at as usize),
    }
}

/// What is told of numbers of flows that differ.
fn counts_in(alloc: Global, texts: &Texts, number: &[u8]) -> Result<Vec<u8>, AllocError>
    requires { AreFew texts.now }
    ensures { IfOk result (λ text. IsCountedIn (program_in texts.now) number.now text.items) }
{
    match text_in(texts, Part::Program) {
        None => Ok(Vec::new(alloc)),
        Some(source) => counts_at(alloc, source, number),
    }
}

/// What is told of a cycle of flows.
fn cycle_in(alloc: Global, texts: &Texts, label: &[u8]) -> Result<Vec<u8>, AllocError>
    requires { AreFew texts.now }
    ensures { IfOk result (λ text. IsCycleTold (program_in texts.now) texts.now.node label.now text.items) }
{
    let program = text_in(texts, Part::Program);
    cycle_told(alloc, program, texts.node.as_ref(), label)
}

/// What is told of a clock mismatch.
fn clash_in(alloc: Global, texts: &Texts, number: &[u8]) -> Result<Vec<u8>, AllocError>
    requires { AreFew texts.now }
    ensures { IfOk result (λ text. IsClashTold (program_in texts.now) texts.now.node number.now text.items) }
{
    let program = text_in(texts, Part::Program);
    clash_told(alloc, program, texts.node.as_ref(), number)
}

/// What is told of a chain of jobs.
fn chain_in(alloc: Global, texts: &Texts, rest: &[u8]) -> Result<Vec<u8>, AllocError>
    requires { AreFew texts.now }
    ensures { IfOk result (λ text. IsChainTold (program_in texts.now) texts.now.node (word_at 0 rest.now) (word_at 1 rest.now) (word_at 3 rest.now) text.items) }
{
    let program = text_in(texts, Part::Program);
    chain_told(alloc, program, texts.node.as_ref(), rest)
}

/// What is told of a loop of jobs.
fn circle_in(alloc: Global, texts: &Texts, rest: &[u8]) -> Result<Vec<u8>, AllocError>
    requires { AreFew texts.now }
    ensures { IfOk result (λ text. IsCircleTold (program_in texts.now) texts.now.node text.items) }
{
    let program = text_in(texts, Part::Program);
    circle_told(alloc, program, texts.node.as_ref(), rest)
}

/// What is told of an interval that is asked for more than it has.
#[tactic(auto, using(crate::proofs::Sayings::by_plan, crate::proofs::Sayings::without_plan))]
fn overload_in(alloc: Global, texts: &Texts, rest: &[u8]) -> Result<Vec<u8>, AllocError>
    requires { AreFew texts.now }
    ensures { IfOk result (λ text. IsByPlan texts.now (λ plan told. IsOverloadIn plan (word_at 0 rest.now) (word_at 1 rest.now) (word_at 3 rest.now) told) text.items) }
{
    match plan_in(alloc, texts)? {
        None => Ok(Vec::new(alloc)),
        Some(plan) => overload_in_plan(alloc, &plan, rest),
    }
}

/// What is told of a hyperperiod that asks for more than it has.
#[tactic(auto, using(crate::proofs::Sayings::by_plan, crate::proofs::Sayings::without_plan))]
fn load_in(alloc: Global, texts: &Texts) -> Result<Vec<u8>, AllocError>
    requires { AreFew texts.now }
    ensures { IfOk result (λ text. IsByPlan texts.now (λ plan told. IsUnsteadyTold plan told) text.items) }
{
    match plan_in(alloc, texts)? {
        None => Ok(Vec::new(alloc)),
        Some(plan) => unsteady_told(alloc, &plan),
    }
}

/// What is told of a table that is not good.
#[tactic(auto, using(crate::proofs::Sayings::by_plan, crate::proofs::Sayings::without_plan))]
fn table_in(alloc: Global, texts: &Texts) -> Result<Vec<u8>, AllocError>
    requires { AreFew texts.now }
    ensures { IfOk result (λ text. IsByPlan texts.now (λ plan told. IsTableIn plan (text_in texts.now Part.Table) told) text.items) }
{
    match plan_in(alloc, texts)? {
        None => Ok(Vec::new(alloc)),
        Some(plan) => table_in_plan(alloc, &plan, text_in(texts, Part::Table)),
    }
}

/// What is told of a name that the program does not know.
fn near_in(alloc: Global, texts: &Texts, name: &[u8]) -> Result<Vec<u8>, AllocError>
    requires { AreFew texts.now }
    ensures { IfOk result (λ text. IsNearIn (program_in texts.now) name.now text.items) }
{
    match text_in(texts, Part::Program) {
        None => Ok(Vec::new(alloc)),
        Some(source) => near_told(alloc, source, name),
    }
}

/// What is told where no node is main.
fn nodes_in(alloc: Global, texts: &Texts) -> Result<Vec<u8>, AllocError>
    requires { AreFew texts.now }
    ensures { IfOk result (λ text. AreNodesIn (program_in texts.now) text.items) }
{
    match text_in(texts, Part::Program) {
        None => Ok(Vec::new(alloc)),
        Some(source) => nodes_told(alloc, source),
    }
}

/// What is told beside the place and the sentence, where this stands after the front of the line.
pub(crate) fn detail_of(
    alloc: Global,
    texts: &Texts,
    command: Option<&[String]>,
    detail: Detail,
    rest: &[u8],
) -> Result<Vec<u8>, AllocError>
    requires { AreFew texts.now }
    ensures { IfOk result (λ text. IsDetail texts.now (option_map (λ rest. map string_bytes rest.now) command.entry) detail rest.now text.items) }
{
    let word = word_at(rest, 0);
    match detail {
        Detail::Nothing => Ok(Vec::new(alloc)),
        Detail::Numbers => counts_in(alloc, texts, word),
        Detail::Words => words_in(alloc, command),
        Detail::Twice => twice_in(alloc, texts, word),
        Detail::Unexpected(part) => unexpected_in(alloc, texts, part, word),
        Detail::Broken(rule) => broken_in(alloc, texts, word, rule),
        Detail::Left => left_in(alloc, texts, word, word_at(rest, 1)),
        Detail::Tasks => tasks_in(alloc, texts),
        Detail::Placing => placing_told(alloc, texts, word),
        Detail::Cycle => cycle_in(alloc, texts, word),
        Detail::Clocks => clash_in(alloc, texts, word),
        Detail::Chain => chain_in(alloc, texts, rest),
        Detail::Circle => circle_in(alloc, texts, rest),
        Detail::Overload => overload_in(alloc, texts, rest),
        Detail::Load => load_in(alloc, texts),
        Detail::Table => table_in(alloc, texts),
        Detail::Near => near_in(alloc, texts, word),
        Detail::Nodes => nodes_in(alloc, texts),
    }
}
