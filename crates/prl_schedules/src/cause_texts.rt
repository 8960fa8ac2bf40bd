//! Findings in words.

ghost use Rattle.std.specs.Prelude.{◌≡◌, ◌+◌, ◌++◌, OnOk, length};
ghost use Rattle.prl_schedules.specs.ScheduleTexts.{task_names};
ghost use Rattle.prl_schedules.specs.CauseTexts.{cause_text, done_text, finding_text, job_text, left_text, more_text, name_text, number_text};

use crate::causes::{Cause, DatedJob, Finding};
use crate::lefts::Left;
use prl_base::{TaskNo, push_number};
use prl_plan::Plan;
use std::alloc::AllocError;

/// Appends what stands before a number, and the number.
fn push(text: &mut Vec<u8>, front: &str, number: u64) -> Result<(), AllocError>
    ensures { OnOk result (text.new.items ≡ text.old.items ++ number_text front.now number) }
{
    text.extend_from_slice(front.as_bytes())?;
    push_number(text, number)
}

/// Appends the name of a task, where the plan has it.
fn push_name(text: &mut Vec<u8>, plan: &Plan, task: TaskNo) -> Result<(), AllocError>
    ensures { OnOk result (text.new.items ≡ text.old.items ++ name_text (task_names plan.now) task) }
{
    match plan.graph().tasks.as_slice().get(task.0 as usize) {
        None => Ok(()),
        Some(named) => text.extend_from_slice(named.name.bytes()),
    }
}

/// Appends what stands before a job, its number and its task.
fn push_job(text: &mut Vec<u8>, plan: &Plan, front: &str, job: &DatedJob) -> Result<(), AllocError>
    ensures { OnOk result (text.new.items ≡ text.old.items ++ job_text (task_names plan.now) front.now job.now) }
{
    push(text, front, job.number)?;
    text.extend_from_slice(b" of ")?;
    push_name(text, plan, job.task)
}

/// Appends what is told of a cause after the tick.
fn push_cause(text: &mut Vec<u8>, plan: &Plan, cause: &Cause) -> Result<(), AllocError>
    ensures { OnOk result (text.new.items ≡ text.old.items ++ cause_text (task_names plan.now) cause.now) }
{
    match cause {
        Cause::Early(job) => {
            push_job(text, plan, " the act is of job ", job)?;
            push(text, ", which is released at tick ", job.release)?;
            Ok(())
        }
        Cause::AllEnded { task, jobs } => {
            text.extend_from_slice(b" all jobs of ")?;
            push_name(text, plan, *task)?;
            push(text, " have ended; their number is ", *jobs)?;
            Ok(())
        }
        Cause::Overtakes { job, other } => {
            push_job(text, plan, " the act is of job ", job)?;
            push(text, ", which is due by tick ", job.deadline)?;
            push_job(text, plan, ". It overtakes job ", other)?;
            push(text, ", which is due by tick ", other.deadline)?;
            Ok(())
        }
        Cause::Due(job) => {
            push_job(text, plan, " job ", job)?;
            push(text, " has not ended, and it is due by tick ", job.deadline)?;
            Ok(())
        }
        Cause::DueOrOver { job, until } => {
            push_job(text, plan, " job ", job)?;
            push(text, " has not ended, and it is due by tick ", job.deadline)?;
            push(text, "; or, where `--until` is at most ", *until)?;
            text.extend_from_slice(b", the run is over")?;
            Ok(())
        }
        Cause::Over => {
            text.extend_from_slice(b" the run is over: no job is due later")?;
            Ok(())
        }
    }
}

/// Appends what was found, as a line: at which tick, which job acts or is due, and which other one it overtakes.
pub fn push_finding(text: &mut Vec<u8>, plan: &Plan, finding: &Finding) -> Result<(), AllocError>
    ensures { OnOk result (text.new.items ≡ text.old.items ++ finding_text (task_names plan.now) finding.now) }
{
    push(text, "At tick ", finding.tick)?;
    push_cause(text, plan, &finding.cause)?;
    text.extend_from_slice(b".\n")?;
    Ok(())
}

/// How many acts a job has left, with the one that ends it.
fn acts_left(left: &Left) -> u64
    ensures { result ≡ left.now.more + 1 }
{
    u64::from(left.more) + 1
}

/// Appends how many acts a job has done.
#[tactic(auto, unfolding(crate::specs::CauseTexts::done_text))]
fn push_done(text: &mut Vec<u8>, left: &Left) -> Result<(), AllocError>
    ensures { OnOk result (text.new.items ≡ text.old.items ++ done_text left.now) }
{
    push(text, "It has done so many acts: ", u64::from(left.done))
}

/// Appends how many acts a job has left.
#[tactic(auto, unfolding(crate::specs::CauseTexts::more_text))]
fn push_more(text: &mut Vec<u8>, left: &Left) -> Result<(), AllocError>
    ensures { OnOk result (text.new.items ≡ text.old.items ++ more_text left.now) }
{
    push(text, "; and so many are left: ", acts_left(left))?;
    text.extend_from_slice(b".\n")
}

/// Appends how many acts a job has done and has left, as a line.
pub fn push_left(text: &mut Vec<u8>, left: &Left) -> Result<(), AllocError>
    ensures { OnOk result (text.new.items ≡ text.old.items ++ left_text left.now) }
{
    push_done(text, left)?;
    push_more(text, left)
}
