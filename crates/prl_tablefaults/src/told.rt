//! What is told of the text of a table that is not good.

ghost use Rattle.std.specs.Prelude.{◌≡◌, IfOk};
ghost use Rattle.prl_tables.specs.Checks.{IsFault};
ghost use Rattle.prl_tables.specs.declared.reading.TableFault.TheVariants as faults;
ghost use Rattle.prl_tablefaults.specs.FaultTexts.{IsCheckedTold, IsTableTold, IsToldOf, hyper_text, unread_text};

use crate::fault_texts::{clash_told, line_told, order_told, whole_told};
use crate::lookups::hyper_of;
use prl_overloads::push_numbered;
use prl_plan::Plan;
use prl_tables::{Table, TableFault, check_table, read_table};
use std::alloc::{AllocError, Global};

/// What is told of a fault of a table's entries.
fn fault_told(
    alloc: Global,
    plan: &Plan,
    table: &Table,
    fault: TableFault,
) -> Result<Vec<u8>, AllocError>
    requires { IsFault plan.now table.now.entries fault }
    ensures { IfOk result (λ text. IsToldOf plan.now table.now.entries fault text.items) }
{
    let entries = table.entries.as_slice();
    match fault {
        TableFault::Piece(line) => line_told(alloc, plan, entries, line),
        TableFault::Units { task, job } => whole_told(alloc, plan, entries, task, job),
        TableFault::Clash { first, second } => clash_told(alloc, plan, entries, first, second),
        TableFault::Order { edge, job } => order_told(alloc, plan, entries, edge, job),
        TableFault::Syntax(_) => Ok(Vec::new(alloc)),
        TableFault::Memory => Ok(Vec::new(alloc)),
    }
}

/// What is told of a table that was read.
#[tactic(auto, using(crate::proofs::Faults::checked_is, crate::proofs::Faults::not_told))]
fn checked_told(alloc: Global, plan: &Plan, table: &Table) -> Result<Vec<u8>, AllocError>
    ensures { IfOk result (λ text. IsCheckedTold plan.now table.now.entries text.items) }
{
    match check_table(alloc, plan, table) {
        Ok(_) => Ok(Vec::new(alloc)),
        Err(fault) => fault_told(alloc, plan, table, fault),
    }
}

/// The hyperperiod of a plan.
#[tactic(auto, unfolding(crate::specs::FaultTexts::hyper_text))]
fn hyper_told(alloc: Global, plan: &Plan) -> Result<Vec<u8>, AllocError>
    ensures { IfOk result (λ text. text.items ≡ hyper_text plan.now.graph.hyper) }
{
    let mut text = Vec::new(alloc);
    let hyper = hyper_of(plan);
    push_numbered(&mut text, b"The hyperperiod of the plan is ", hyper, b".\n")?;
    Ok(text)
}

/// What is told of a text whose line of this number is none of a table.
fn unread_told(alloc: Global, plan: &Plan, line: u64) -> Result<Vec<u8>, AllocError>
    ensures { IfOk result (λ text. text.items ≡ unread_text plan.now.graph.hyper (faults.Syntax line)) }
{
    if line == 2 {
        hyper_told(alloc, plan)
    } else {
        Ok(Vec::new(alloc))
    }
}

/// What is told of a text that is no good table of the plan: the entries and the jobs that its first fault is about; or the
/// hyperperiod, where its second line does not tell that. Nothing where the table is good, and where another line is none.
#[tactic(auto, using(crate::proofs::Faults::read_is, crate::proofs::Faults::unread_is))]
pub fn table_told(alloc: Global, plan: &Plan, table: &[u8]) -> Result<Vec<u8>, AllocError>
    ensures { IfOk result (λ text. IsTableTold plan.now table.now text.items) }
{
    match read_table(alloc, table, plan) {
        Ok(table) => checked_told(alloc, plan, &table),
        Err(TableFault::Memory) => Err(AllocError),
        Err(TableFault::Syntax(line)) => unread_told(alloc, plan, line),
        Err(TableFault::Piece(_)) => Ok(Vec::new(alloc)),
        Err(TableFault::Units { .. }) => Ok(Vec::new(alloc)),
        Err(TableFault::Clash { .. }) => Ok(Vec::new(alloc)),
        Err(TableFault::Order { .. }) => Ok(Vec::new(alloc)),
    }
}
