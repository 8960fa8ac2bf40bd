//! Checks of tables.

ghost use Rattle.std.specs.Prelude.{◌≡◌, ◌<◌, ◌^◌, length, map, vec_items, IfErr, IfOk};
ghost use Rattle.prl_tables.specs.Checks.{IsFault};
ghost use Rattle.prl_tables.specs.Tables.{last_unit, IsGood};
ghost use Rattle.prl_tables.specs.code.Sums.{AreSums};

use crate::clashes::check_clashes;
use crate::laws::{class_has_end, classes_are_early};
use crate::orders::{check_order, order_laws, sums_at};
use crate::pieces::{check_pieces, classes};
use crate::reading::TableFault;
use crate::sums::{Sums, all_sums, check_units};
use crate::tables::Table;
use prl_base::TaskNo;
use prl_overlaps::Entry;
use prl_plan::Plan;
use std::alloc::Global;
use std::marker::Model;

/// A good table of a plan. Contracts see the plan and the entries.
pub struct Checked<'a> {
    plan: &'a Plan,
    table: &'a Table,
    sums: Vec<Vec<Sums>>,
}

impl<'a> Model for Checked<'a> {
    ghost use Rattle.std.specs.Prelude.{map, vec_items};
    ghost use Rattle.prl_tables.specs.CheckedTables.{CheckedView};
    ghost use Rattle.prl_tables.specs.Tables.{IsGood};
    ghost use Rattle.prl_tables.specs.code.Sums.{AreSums};

    ghost Value = { CheckedView };

    ghost view = { λ c. record { plan = c.plan.now; entries = c.table.now.entries } };

    ghost invariant = { λ c. IsGood c.plan.now c.table.now.entries × AreSums c.plan.now c.table.now.entries (map vec_items c.sums.items) };
}

/// The tick of the last unit of a job by the sums of a good table.
fn last_unit_of(plan: &Plan, entries: &[Entry], sums: &[Vec<Sums>], i: TaskNo, n: u64) -> u64
    requires good { IsGood plan.now entries.now }
    requires sums { AreSums plan.now entries.now (map vec_items sums.now) }
    requires task { i.0 < length plan.now.graph.tasks }
    requires job { n < 2 ^ 32 }
    ensures { result ≡ last_unit plan.now.graph entries.now i.0 n }
{
    let hyper = plan.graph().hyper;
    order_laws();
    classes_are_early();
    class_has_end();
    let per = classes(plan, i);
    let sums = sums_at(plan, entries, sums, i, n % per);
    sums.end - 1 + n / per * hyper
}

/// The sums of a table that is good.
fn checked_sums(alloc: Global, plan: &Plan, entries: &[Entry]) -> Result<Vec<Vec<Sums>>, TableFault>
    ensures cause { IfErr result (IsFault plan.now entries.now) }
    ensures good { IfOk result (λ _. IsGood plan.now entries.now) }
    ensures sums { IfOk result (λ sums. AreSums plan.now entries.now (map vec_items sums.items)) }
{
    check_pieces(plan, entries)?;
    let sums = all_sums(alloc, plan, entries)?;
    check_units(plan, entries, &sums)?;
    check_clashes(alloc, plan, entries)?;
    check_order(plan, entries, &sums)?;
    Ok(sums)
}

impl<'a> Checked<'a> {
    /// The table is good. Takes no memory.
    pub fn is_good(&self)
        ensures { IsGood self.now.plan self.now.entries }
    {
        let _ = &self.sums;
    }

    /// The plan.
    pub fn plan(&self) -> &'a Plan
        ensures { result.now ≡ self.now.plan }
    {
        self.plan
    }

    /// The tick of the last unit of job `n` of task `i`. Takes no memory.
    pub fn last_unit(&self, i: TaskNo, n: u64) -> u64
        requires task { i.0 < length self.now.plan.graph.tasks }
        requires job { n < 2 ^ 32 }
        ensures { result ≡ last_unit self.now.plan.graph self.now.entries i.0 n }
    {
        let entries = self.table.entries.as_slice();
        last_unit_of(self.plan, entries, &self.sums, i, n)
    }
}

/// The table of the plan, where it is good: each entry is a piece of its job, each job gets its WCET,
/// however many hyperperiods apart two entries share no tick, and along each edge the producer's job
/// is over before the consumer's begins. Else the first of `Piece`, `Units`, `Clash` and
/// `Order`, in this order, that a table gives cause to.
pub fn check_table<'a>(
    alloc: Global,
    plan: &'a Plan,
    table: &'a Table,
) -> Result<Checked<'a>, TableFault>
    ensures cause { IfErr result (IsFault plan.now table.now.entries) }
    ensures checked { IfOk result (λ checked. (checked.plan ≡ plan.now) × (checked.entries ≡ table.now.entries)) }
    ensures good { IfOk result (λ _. IsGood plan.now table.now.entries) }
{
    let sums = checked_sums(alloc, plan, table.entries.as_slice())?;
    Ok(Checked { plan, table, sums })
}

impl<'a> Drop for Checked<'a> {
    fn drop(self) {
        let Checked {
            plan: _,
            table: _,
            sums,
        } = self;
        drop(sums);
    }
}
