//! The jobs that ask for too much, in words.

ghost use Rattle.std.specs.Prelude.{◌≡◌, ◌++◌, ◌<◌, ◌^◌, ℕ, OnOk, length};
ghost use Rattle.prl_plan.specs.Jobs.{task_at};
ghost use Rattle.prl_overloads.specs.Shares.{cost_of};
ghost use Rattle.prl_overloads.specs.ShareTexts.{cost_text, counted, each_text, jobs_text, less_text, load_text, loaded_text, most_text, numbered, plural, share_text, shared_text, shares_text, sum_text, total_text, way_text, within_text};

use crate::shares::{count_at, wcet_at};
use prl_base::{TaskNo, push_number};
use prl_plan::TaskGraph;
use std::alloc::AllocError;

/// The name of a task; no bytes where it is not there.
fn name_at(graph: &TaskGraph, i: usize) -> &[u8]
    ensures { result.now ≡ (task_at graph.now i).name }
{
    match graph.tasks.as_slice().get(i) {
        None => &[],
        Some(task) => task.name.bytes(),
    }
}

/// What makes a word one of several.
fn plural(n: u64) -> &'static [u8]
    ensures { result.now ≡ plural n }
{
    if n == 1 { b"" } else { b"s" }
}

/// Appends a number of what a word names.
#[tactic(auto, unfolding(crate::specs::ShareTexts::counted))]
fn push_counted(text: &mut Vec<u8>, n: u64, word: &[u8]) -> Result<(), AllocError>
    ensures { OnOk result (text.new.items ≡ text.old.items ++ counted n word.now) }
{
    push_number(text, n)?;
    text.extend_from_slice(word)?;
    text.extend_from_slice(plural(n))
}

/// Appends how many jobs a task has.
#[tactic(auto, unfolding(crate::specs::ShareTexts::jobs_text))]
fn push_jobs(text: &mut Vec<u8>, name: &[u8], n: u64) -> Result<(), AllocError>
    ensures { OnOk result (text.new.items ≡ text.old.items ++ jobs_text name.now n) }
{
    text.extend_from_slice(name)?;
    text.extend_from_slice(b": ")?;
    push_counted(text, n, b" job")
}

/// Appends a WCET, and what jobs cost.
#[tactic(auto, unfolding(crate::specs::ShareTexts::cost_text))]
fn push_cost(text: &mut Vec<u8>, wcet: u64, cost: u64) -> Result<(), AllocError>
    ensures { OnOk result (text.new.items ≡ text.old.items ++ cost_text wcet cost) }
{
    text.extend_from_slice(b" of ")?;
    push_number(text, wcet)?;
    text.extend_from_slice(b" = ")?;
    push_counted(text, cost, b" tick")?;
    text.extend_from_slice(b"\n")
}

/// What the jobs of a task cost together.
fn cost_in(graph: &TaskGraph, counts: &[u64], i: usize) -> u64
    requires { cost_of graph.now counts.now i < 2 ^ 64 }
    ensures { result ≡ cost_of graph.now counts.now i }
{
    count_at(counts, i) * wcet_at(graph, i)
}

/// Appends the jobs of a task, where it has some.
fn push_share(
    text: &mut Vec<u8>,
    graph: &TaskGraph,
    counts: &[u64],
    i: usize,
) -> Result<(), AllocError>
    requires { cost_of graph.now counts.now i < 2 ^ 64 }
    ensures { OnOk result (text.new.items ≡ text.old.items ++ share_text graph.now counts.now i) }
{
    let count = count_at(counts, i);
    if count == 0 {
        return Ok(());
    }
    push_jobs(text, name_at(graph, i), count)?;
    push_cost(text, wcet_at(graph, i), cost_in(graph, counts, i))
}

/// Appends a line for each task that has jobs.
fn push_shares(text: &mut Vec<u8>, graph: &TaskGraph, counts: &[u64]) -> Result<(), AllocError>
    requires { (i : ℕ) → i < length graph.now.tasks → cost_of graph.now counts.now i < 2 ^ 64 }
    ensures { OnOk result (text.new.items ≡ text.old.items ++ shares_text graph.now counts.now) }
{
    for i in 0..graph.tasks.len() {
        push_share(text, graph, counts, i)?;
    }
    Ok(())
}

/// Appends what is asked for together, and what there is.
#[tactic(auto, unfolding(crate::specs::ShareTexts::sum_text))]
fn push_sum(text: &mut Vec<u8>, asked: u64, has: u64) -> Result<(), AllocError>
    ensures { OnOk result (text.new.items ≡ text.old.items ++ sum_text asked has) }
{
    text.extend_from_slice(b"Together they ask for ")?;
    push_counted(text, asked, b" tick")?;
    text.extend_from_slice(b", and there are ")?;
    push_number(text, has)
}

/// Appends how much has to be given up.
#[tactic(auto, unfolding(crate::specs::ShareTexts::less_text))]
fn push_less(text: &mut Vec<u8>, over: u64) -> Result<(), AllocError>
    ensures { OnOk result (text.new.items ≡ text.old.items ++ less_text over) }
{
    text.extend_from_slice(b". Their wcets have to give up ")?;
    push_counted(text, over, b" tick")?;
    text.extend_from_slice(b" in all, ")
}

/// Appends whose jobs weigh most.
#[tactic(auto, unfolding(crate::specs::ShareTexts::most_text))]
fn push_most(text: &mut Vec<u8>, name: &[u8]) -> Result<(), AllocError>
    ensures { OnOk result (text.new.items ≡ text.old.items ++ most_text name.now) }
{
    text.extend_from_slice(b"and those of `")?;
    text.extend_from_slice(name)?;
    text.extend_from_slice(b"` weigh most.\n")
}

/// Appends what is asked for together, what there is, and whose jobs weigh most.
#[tactic(auto, unfolding(crate::specs::ShareTexts::total_text))]
fn push_total(text: &mut Vec<u8>, name: &[u8], asked: u64, has: u64) -> Result<(), AllocError>
    ensures { OnOk result (text.new.items ≡ text.old.items ++ total_text name.now asked has) }
{
    push_sum(text, asked, has)?;
    push_less(text, asked.saturating_sub(has))?;
    push_most(text, name)
}

/// Appends the jobs by task, and what they ask for together of so many ticks; the jobs of the task that is named last weigh most.
#[tactic(auto, unfolding(crate::specs::ShareTexts::shared_text))]
pub fn push_shared(
    text: &mut Vec<u8>,
    graph: &TaskGraph,
    counts: &[u64],
    heaviest: TaskNo,
    asked: u64,
    has: u64,
) -> Result<(), AllocError>
    requires { (i : ℕ) → i < length graph.now.tasks → cost_of graph.now counts.now i < 2 ^ 64 }
    ensures { OnOk result (text.new.items ≡ text.old.items ++ shared_text graph.now counts.now heaviest.0 asked has) }
{
    push_shares(text, graph, counts)?;
    push_total(text, name_at(graph, heaviest.0 as usize), asked, has)
}

/// Appends words, a number and words.
#[tactic(auto, unfolding(crate::specs::ShareTexts::numbered))]
pub fn push_numbered(
    text: &mut Vec<u8>,
    front: &[u8],
    n: u64,
    tail: &[u8],
) -> Result<(), AllocError>
    ensures { OnOk result (text.new.items ≡ text.old.items ++ numbered front.now n tail.now) }
{
    text.extend_from_slice(front)?;
    push_number(text, n)?;
    text.extend_from_slice(tail)
}

/// Appends which jobs are told of an interval.
#[tactic(auto, unfolding(crate::specs::ShareTexts::within_text))]
pub fn push_within(text: &mut Vec<u8>, from: u64, to: u64) -> Result<(), AllocError>
    ensures { OnOk result (text.new.items ≡ text.old.items ++ within_text from to) }
{
    push_numbered(text, b"Released at ", from, b" or later")?;
    push_numbered(text, b" and due by ", to, b" are:\n")
}

/// Appends which jobs are told of a hyperperiod.
#[tactic(auto, unfolding(crate::specs::ShareTexts::each_text))]
pub fn push_each(text: &mut Vec<u8>, hyper: u64) -> Result<(), AllocError>
    ensures { OnOk result (text.new.items ≡ text.old.items ++ each_text hyper) }
{
    push_numbered(
        text,
        b"In each hyperperiod, of ",
        hyper,
        b" ticks, are released:\n",
    )
}

/// Appends whether smaller WCETs or longer periods alone can help.
fn push_way(text: &mut Vec<u8>, load: u64, hyper: u64) -> Result<(), AllocError>
    ensures { OnOk result (text.new.items ≡ text.old.items ++ way_text load hyper) }
{
    if hyper < load {
        text.extend_from_slice(
            b", so no later deadline and no delay is enough: make wcets smaller or periods longer.\n",
        )
    } else {
        text.extend_from_slice(b", so a later deadline or a delay may be enough.\n")
    }
}

/// Appends what the jobs of a hyperperiod ask for, and what there is.
#[tactic(auto, unfolding(crate::specs::ShareTexts::loaded_text))]
fn push_loaded(text: &mut Vec<u8>, load: u64, hyper: u64) -> Result<(), AllocError>
    ensures { OnOk result (text.new.items ≡ text.old.items ++ loaded_text load hyper) }
{
    push_numbered(
        text,
        b"The jobs of a hyperperiod ask for ",
        load,
        b" of its ",
    )?;
    push_numbered(text, b"", hyper, b" ticks")
}

/// Appends what the jobs of a hyperperiod ask for.
#[tactic(auto, unfolding(crate::specs::ShareTexts::load_text))]
pub fn push_load(text: &mut Vec<u8>, load: u64, hyper: u64) -> Result<(), AllocError>
    ensures { OnOk result (text.new.items ≡ text.old.items ++ load_text load hyper) }
{
    push_loaded(text, load, hyper)?;
    push_way(text, load, hyper)
}
