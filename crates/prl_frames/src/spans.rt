//! Where the entries of each class begin and end.

ghost use Rattle.std.specs.Prelude.{◌≡◌, ◌+◌, ◌<◌, ◌^◌, ℕ, List, ◌∷◌, length, map, vec_items, IfOk};
ghost use Rattle.prl_overlaps.specs.declared.entries.Entry.{Entry as AnyEntry};
ghost use Rattle.prl_tables.specs.Tables.{classes, ArePieces, IsPiece};
ghost use Rattle.prl_frames.specs.code.Making.{no_span, span_of, with_entry, AreSpans, AreTaskSpans, HasSpans};

use prl_base::TaskNo;
use prl_plan::{Plan, plan_is_one};
use prl_tables::{Entry, classes, pieces_are_short};
use std::alloc::{AllocError, Global};

/// Where the first entry of a class begins, and where the last one ends.
#[derive(Clone, Copy)]
pub(crate) struct Span {
    pub(crate) begin: u64,
    pub(crate) end: u64,
}

impl Span {
    /// Of no entry.
    fn none() -> Span
        ensures { result ≡ no_span }
    {
        Span {
            begin: u64::MAX,
            end: 0,
        }
    }

    /// With one entry more.
    fn with_entry(self, entry: Entry) -> Span
        requires { entry.at + entry.units < 2 ^ 64 }
        ensures { result ≡ with_entry entry self }
    {
        Span {
            begin: entry.at.min(self.begin),
            end: (entry.at + entry.units).max(self.end),
        }
    }
}

/// Adds an entry to the spans of the classes of a task, where it is of that task.
fn add_entry(list: &mut Vec<Span>, plan: &Plan, task: TaskNo, entry: Entry)
    requires piece { IsPiece plan.now entry }
    requires end { entry.at + entry.units < 2 ^ 64 }
    requires classes { length list.old.items ≡ classes plan.now.graph task.0 }
    ensures classes { length list.new.items ≡ length list.old.items }
    ensures spans { (entries : List AnyEntry) → HasSpans entries task.0 list.old.items → HasSpans (entry ∷ entries) task.0 list.new.items }
{
    let _ = plan;
    if entry.task.0 == task.0 {
        let class = entry.job as usize;
        list[class] = list[class].with_entry(entry);
    }
}

/// The spans of the classes of a task.
fn task_spans(
    alloc: Global,
    plan: &Plan,
    entries: &[Entry],
    task: TaskNo,
) -> Result<Vec<Span>, AllocError>
    requires task { task.0 < length plan.now.graph.tasks }
    requires pieces { ArePieces plan.now entries.now }
    ensures { IfOk result (λ list. AreTaskSpans plan.now entries.now task.0 list.items) }
{
    plan.graph();
    pieces_are_short();
    let mut list = vec![in alloc; Span::none(); classes(plan, task) as usize]?;
    for back in 0..entries.len() {
        add_entry(&mut list, plan, task, entries[entries.len() - 1 - back]);
    }
    Ok(list)
}

/// The spans of all classes, by task.
pub(crate) fn all_spans(
    alloc: Global,
    plan: &Plan,
    entries: &[Entry],
) -> Result<Vec<Vec<Span>>, AllocError>
    requires { ArePieces plan.now entries.now }
    ensures { IfOk result (λ lists. AreSpans plan.now entries.now (map vec_items lists.items)) }
{
    let mut lists = Vec::new(alloc);
    for i in 0..plan.graph().tasks.len() {
        lists.push(task_spans(alloc, plan, entries, TaskNo(i as u32))?)?;
    }
    Ok(lists)
}

/// The span of the class of an entry.
pub(crate) fn span_at(plan: &Plan, entries: &[Entry], spans: &[Vec<Span>], entry: Entry) -> Span
    requires spans { AreSpans plan.now entries.now (map vec_items spans.now) }
    requires piece { IsPiece plan.now entry }
    ensures { result ≡ span_of entries.now entry.task.0 entry.job }
{
    plan_is_one(plan);
    let _ = entries;
    spans[entry.task.0 as usize].as_slice()[entry.job as usize]
}
