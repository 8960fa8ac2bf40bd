//! What the entries of each class come to.

ghost use Rattle.std.specs.Prelude.{◌≡◌, ◌+◌, ◌<◌, ◌^◌, ℕ, List, ◌∷◌, length, map, vec_items, IfErr, IfOk, OnOk};
ghost use Rattle.prl_plan.specs.Jobs.{task_at};
ghost use Rattle.prl_tables.specs.declared.reading.TableFault.TheVariants as faults;
ghost use Rattle.prl_overlaps.specs.declared.entries.Entry.{Entry as AnyEntry};
ghost use Rattle.prl_tables.specs.Checks.{IsFault};
ghost use Rattle.prl_tables.specs.Tables.{classes, ArePieces, AreWhole, IsPiece, IsWhole};
ghost use Rattle.prl_tables.specs.code.Sums.{no_sums, with_entry, AreSums, AreTaskSums, HasSums, IsFirstNotWholeOf};

use crate::laws::pieces_are_short;
use crate::pieces::classes;
use crate::reading::TableFault;
use prl_base::TaskNo;
use prl_overlaps::Entry;
use prl_plan::Plan;
use std::alloc::{AllocError, Global};

/// What the entries of a class come to: their units, and where the first one begins and the last
/// one ends.
#[derive(Clone, Copy)]
pub(crate) struct Sums {
    pub(crate) units: u64,
    pub(crate) first: u64,
    pub(crate) end: u64,
}

/// The WCET of a task, in ticks.
fn wcet_of(plan: &Plan, task: TaskNo) -> u64
    requires { task.0 < length plan.now.graph.tasks }
    ensures wcet { result ≡ (task_at plan.now.graph task.0).wcet }
    ensures small { result < 2 ^ 32 }
{
    u64::from(plan.graph().tasks.as_slice()[task.0 as usize].wcet)
}

impl Sums {
    /// Of no entry.
    fn none() -> Sums
        ensures { result ≡ no_sums }
    {
        Sums {
            units: 0,
            first: u64::MAX,
            end: 0,
        }
    }

    /// With one entry more.
    fn with_entry(self, entry: Entry) -> Sums
        requires { entry.at + entry.units < 2 ^ 64 }
        ensures { result ≡ with_entry entry self }
    {
        Sums {
            units: self.units.saturating_add(entry.units),
            first: entry.at.min(self.first),
            end: (entry.at + entry.units).max(self.end),
        }
    }
}

/// Adds an entry to the sums of the classes of a task, where it is of that task.
fn add_entry(list: &mut Vec<Sums>, plan: &Plan, task: TaskNo, entry: Entry)
    requires piece { IsPiece plan.now entry }
    requires end { entry.at + entry.units < 2 ^ 64 }
    requires classes { length list.old.items ≡ classes plan.now.graph task.0 }
    ensures classes { length list.new.items ≡ length list.old.items }
    ensures sums { (entries : List AnyEntry) → HasSums entries task.0 list.old.items → HasSums (entry ∷ entries) task.0 list.new.items }
{
    let _ = plan;
    if entry.task.0 == task.0 {
        let class = entry.job as usize;
        list[class] = list[class].with_entry(entry);
    }
}

/// The sums of the classes of a task.
fn task_sums(
    alloc: Global,
    plan: &Plan,
    entries: &[Entry],
    task: TaskNo,
) -> Result<Vec<Sums>, AllocError>
    requires task { task.0 < length plan.now.graph.tasks }
    requires pieces { ArePieces plan.now entries.now }
    ensures { IfOk result (λ list. AreTaskSums plan.now entries.now task.0 list.items) }
{
    plan.graph();
    pieces_are_short();
    let mut list = vec![in alloc; Sums::none(); classes(plan, task) as usize]?;
    for back in 0..entries.len() {
        add_entry(&mut list, plan, task, entries[entries.len() - 1 - back]);
    }
    Ok(list)
}

/// The sums of all classes, by task.
pub(crate) fn all_sums(
    alloc: Global,
    plan: &Plan,
    entries: &[Entry],
) -> Result<Vec<Vec<Sums>>, AllocError>
    requires { ArePieces plan.now entries.now }
    ensures { IfOk result (λ lists. AreSums plan.now entries.now (map vec_items lists.items)) }
{
    let mut lists = Vec::new(alloc);
    for i in 0..plan.graph().tasks.len() {
        lists.push(task_sums(alloc, plan, entries, TaskNo(i as u32))?)?;
    }
    Ok(lists)
}

/// `Units` at the first class of a task whose units are not its WCET.
fn check_task(plan: &Plan, entries: &[Entry], task: TaskNo, list: &[Sums]) -> Result<(), TableFault>
    requires task { task.0 < length plan.now.graph.tasks }
    requires sums { AreTaskSums plan.now entries.now task.0 list.now }
    ensures cause { IfErr result (λ fault. (c : ℕ) × (fault ≡ faults.Units task c) × IsFirstNotWholeOf plan.now entries.now task.0 c) }
    ensures whole { OnOk result ((c : ℕ) → c < classes plan.now.graph task.0 → IsWhole plan.now entries.now task.0 c) }
{
    let _ = entries;
    let wcet = wcet_of(plan, task);
    for (c, sums) in list.iter().enumerate() {
        if sums.units != wcet {
            return Err(TableFault::Units {
                task,
                job: c as u64,
            });
        }
    }
    Ok(())
}

/// `Units` at the first class, by task and then by number, whose units are not the WCET of its task.
pub(crate) fn check_units(
    plan: &Plan,
    entries: &[Entry],
    sums: &[Vec<Sums>],
) -> Result<(), TableFault>
    requires pieces { ArePieces plan.now entries.now }
    requires sums { AreSums plan.now entries.now (map vec_items sums.now) }
    ensures cause { IfErr result (IsFault plan.now entries.now) }
    ensures whole { OnOk result (AreWhole plan.now entries.now) }
{
    for i in 0..plan.graph().tasks.len() {
        check_task(plan, entries, TaskNo(i as u32), sums[i].as_slice())?;
    }
    Ok(())
}
