//! Look-ups in the plan of the sampling program, whose fast task is F, and its slow one S.

use crate::lookups::{dates_of, operand_of};
use crate::{SAMPLING_PLAN, plan_of};
use prl_base::{CellNo, EdgeNo, Limit, Value, What};
use prl_plan::{Horizon, Operand, Plan};
use std::test::Fail;

/// The cell in which instance `m` of edge `e` stands, where some job reads it.
fn cell_of(plan: &Plan, e: u32, m: u64) -> Option<CellNo> {
    if (e as usize) < plan.graph().edges.len() && plan.uses(EdgeNo(e), m) {
        Some(plan.cell(EdgeNo(e), m))
    } else {
        None
    }
}

/// How many cells edge `e` has.
fn count_of(plan: &Plan, e: u32) -> Option<u32> {
    if (e as usize) < plan.graph().edges.len() {
        Some(plan.count(EdgeNo(e)))
    } else {
        None
    }
}

/// The dates of some jobs, by task and job.
const DATES: [(u32, u64, (u64, u64)); 6] = [
    (0, 0, (0, 7)),
    (0, 2, (20, 27)),
    (1, 1, (11, 19)),
    (2, 0, (3, 30)),
    (3, 0, (3, 10)),
    (3, 2, (23, 30)),
];

/// The first of the jobs that has other dates.
fn other_dates(plan: &Plan) -> Option<(u32, u64)> {
    for (task, job, dates) in DATES {
        if dates_of(plan, task, job) != Some(dates) {
            return Some((task, job));
        }
    }
    None
}

/// How many cells each edge has.
// S may write its first instance to F as early as 3, and F's last reader of it may end as late as 59: two cells.
const COUNTS: [u32; 4] = [1, 2, 1, 1];

/// The first of the edges that has another count of cells.
fn other_count(plan: &Plan) -> Option<u32> {
    for (e, count) in COUNTS.iter().enumerate() {
        if count_of(plan, e as u32) != Some(*count) {
            return Some(e as u32);
        }
    }
    None
}

/// The cells of some instances, by edge and instance.
const CELLS: [(u32, u64, Option<CellNo>); 7] = [
    (0, 8, Some(CellNo(0))),
    (1, 0, Some(CellNo(1))),
    (1, 7, Some(CellNo(2))),
    (2, 0, Some(CellNo(3))),
    (2, 1, None),
    (2, 300, Some(CellNo(3))),
    (3, 5, Some(CellNo(4))),
];

/// The first of the instances that has another cell.
fn other_cell(plan: &Plan) -> Option<(u32, u64)> {
    for (e, instance, cell) in CELLS {
        if cell_of(plan, e, instance) != cell {
            return Some((e, instance));
        }
    }
    None
}

/// What some jobs read, by edge and job.
const OPERANDS: [(u32, u64, Operand); 5] = [
    (1, 0, Operand::Const(Value::Int(0))),
    (1, 2, Operand::Const(Value::Int(0))),
    (1, 3, Operand::From(0)),
    (1, 8, Operand::From(1)),
    (2, 4, Operand::From(12)),
];

/// The first of the jobs that reads something else.
fn other_operand(plan: &Plan) -> Option<(u32, u64)> {
    for (e, job, operand) in OPERANDS {
        if operand_of(plan, e, job) != Some(operand) {
            return Some((e, job));
        }
    }
    None
}

/// Six jobs each of three tasks and two of S have 89 actions.
const HORIZON: Horizon = Horizon {
    until: 60,
    end: 60,
    jobs: 20,
    events: 149,
};

/// How many jobs there are up to 600,010.
const LIMIT: Limit = Limit {
    what: What::Jobs,
    found: 200_004,
};

/// Fails with the name of the first look-up that gives something else.
fn look_up(plan: &Plan) -> Result<(), Fail> {
    if other_dates(plan).is_some() {
        return Err("other dates".into());
    }
    if other_operand(plan).is_some() {
        return Err("other operands".into());
    }
    if (other_count(plan), other_cell(plan), plan.total()) != (None, None, 5) {
        return Err("other cells".into());
    }
    if Horizon::new(plan, 60) != Ok(HORIZON) || Horizon::new(plan, 600_010) != Err(LIMIT) {
        return Err("other horizons".into());
    }
    Ok(())
}

#[test]
fn look_ups_of_a_fast_and_a_slow_task(rt: HostRuntime) -> Result<(), Fail> {
    let plan = plan_of(rt.alloc(), SAMPLING_PLAN.as_bytes())?;
    look_up(&plan)
}
