//! Why a table is refused.

ghost use Rattle.std.specs.Prelude.{◌≡◌, ◌≢◌, IfOk};
ghost use Rattle.prl_plan.specs.Vocabulary.{task_at};
ghost use Rattle.prl_tables.specs.declared.reading.TableFault.TheVariants as causes;
ghost use Rattle.prl_frame.specs.Refused.{table_line, IsUnfitTable};

use prl_base::TaskNo;
use prl_io::{Fault, Piece, unfit_for, why_of, why_with};
use prl_plan::Plan;
use prl_tables::TableFault;
use std::alloc::{AllocError, Global};

/// The name of a task; no bytes where the plan has no such one.
fn name_of(plan: &Plan, task: TaskNo) -> &[u8]
    ensures { result.now ≡ (task_at plan.now.graph task.0).name }
{
    match plan.graph().tasks.as_slice().get(task.0 as usize) {
        Some(task) => task.name.bytes(),
        None => b"",
    }
}

/// The words `95 units`, the name of a task and the number of a job.
fn units_line(alloc: Global, plan: &Plan, task: TaskNo, job: u64) -> Result<Vec<u8>, AllocError>
    ensures { IfOk result (λ line. line.items ≡ table_line plan.now.graph (causes.Units task job)) }
{
    let front = Piece::Text(b"95 units ");
    let name = Piece::Text(name_of(plan, task));
    why_with(alloc, &[front, name, Piece::Text(b" "), Piece::Number(job)])
}

/// The line that tells why a table is refused. Where memory ran out there is none.
fn table_line(alloc: Global, plan: &Plan, cause: TableFault) -> Result<Vec<u8>, AllocError>
    ensures line { IfOk result (λ line. line.items ≡ table_line plan.now.graph cause) }
    ensures cause { IfOk result (λ _. cause ≢ causes.Memory) }
{
    match cause {
        TableFault::Syntax(line) => why_of(alloc, "93 table syntax line ", line),
        TableFault::Piece(line) => why_of(alloc, "94 piece ", line),
        TableFault::Units { task, job } => units_line(alloc, plan, task, job),
        TableFault::Clash { first, second } => {
            let (front, middle) = (Piece::Text(b"96 clash "), Piece::Text(b" "));
            let (first, second) = (Piece::Number(first), Piece::Number(second));
            why_with(alloc, &[front, first, middle, second])
        }
        TableFault::Order { edge, job } => {
            let (front, middle) = (Piece::Text(b"97 order edge "), Piece::Text(b" job "));
            let (edge, job) = (Piece::Number(u64::from(edge.0)), Piece::Number(job));
            why_with(alloc, &[front, edge, middle, job])
        }
        TableFault::Memory => Err(AllocError),
    }
}

/// Why a table does not fit, whose file has this name.
pub(crate) fn unfit_table(alloc: Global, plan: &Plan, name: &[u8], cause: TableFault) -> Fault
    ensures { IsUnfitTable plan.now.graph name.now cause result }
{
    unfit_for(alloc, name, table_line(alloc, plan, cause))
}
