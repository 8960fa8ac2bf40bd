//! The machine over plans of a sensor and its actuator: what each event tells, and what the actuator got.

ghost use Rattle.std.specs.Prelude.{◌≡◌, [], true};
ghost use Rattle.prl_plan.specs.Horizons.{IsHorizon};
ghost use Rattle.prl_track.specs.Machine.{Drives};
ghost use Rattle.prl_values.specs.Fitting.{HaveTaskBodies, HaveTypedRows};

use crate::{COPIED_PLAN, plan_served};
use prl_base::{CellNo, EdgeNo, TaskNo, Value};
use prl_body::Bodies;
use prl_core::{Core, Event, Illegal, Rule, Seen, Unfinished};
use prl_flow::Sensors;
use prl_plan::{Horizon, Kind, Plan, plan_is_one};
use std::alloc::Global;
use std::test::Fail;

/// The plan of an actuator that takes 9 and then each value of a sensor one period late.
const LATE_PLAN: &[u8] = b"plan 1
hyperperiod 10
task 0 i sensor period 10 start 0 due 10 wcet 1
task 1 o actuator period 10 start 0 due 10 wcet 1
dates 0 0:10
dates 1 0:10
edge 0 from 0.0 to 1.0 type int period 10 ops fby 9
word 0 prefix 1 9 repeat 0 step 1 1
cells 0 base 0 count 2
";

/// Whether task 1 drives the first actuator.
fn drives(plan: &Plan) -> bool
    ensures { result ≡ true → Drives plan.now 1 0 }
{
    plan_is_one(plan);
    let tasks = plan.graph().tasks.as_slice();
    tasks.len() > 1 && tasks[1].kind == Kind::Actuator(0)
}

/// What an event tells: a letter; task (or the date of a tick), job, port, edge, instance and cell, or 0; and its value.
type Fields = (u8, [u64; 6], Option<Value>);

/// What is told of a half, or of a whole write.
fn cell_fields(kind: u8, task: TaskNo, job: u64, edge: EdgeNo, cell: CellNo) -> Fields {
    let (edge, cell) = (edge.0 as u64, cell.0 as u64);
    (kind, [task.0 as u64, job, 0, edge, 0, cell], None)
}

fn fields(seen: Seen) -> Fields {
    match seen {
        Seen::Ticked(now) => (b't', [now, 0, 0, 0, 0, 0], None),
        Seen::Read {
            task,
            job,
            port,
            edge,
            instance,
            cell,
            value,
        } => {
            let (edge, cell) = (edge.0 as u64, cell.0 as u64);
            let numbers = [task.0 as u64, job, port as u64, edge, instance, cell];
            (b'r', numbers, Some(value))
        }
        Seen::ReadConst {
            task,
            job,
            port,
            value,
        } => {
            let numbers = [task.0 as u64, job, port as u64, 0, 0, 0];
            (b'c', numbers, Some(value))
        }
        Seen::Half {
            task,
            job,
            edge,
            cell,
        } => cell_fields(b'h', task, job, edge, cell),
        Seen::Wrote {
            task,
            job,
            edge,
            cell,
        } => cell_fields(b'w', task, job, edge, cell),
        Seen::Ended { task, job } => (b'e', [task.0 as u64, job, 0, 0, 0, 0], None),
    }
}

/// What the last event of a list told; or the number of the first that is refused, from 1, and the rule that it breaks.
type Told = Result<Option<Fields>, (usize, Rule)>;

/// Does the events of a list, where `t` is a tick, and `0` and `1` are acts of tasks 0 and 1, up to the first that is refused.
fn play(core: &mut Core<'_>, events: &[u8]) -> Told
    requires { Drives core.old.plan 1 0 }
    ensures { Drives core.new.plan 1 0 }
{
    let mut last = None;
    for (k, letter) in events.iter().enumerate() {
        let event = match *letter {
            b't' => Event::Tick,
            b'0' => Event::Act(TaskNo(0)),
            _ => Event::Act(TaskNo(1)),
        };
        match core.step(event) {
            Ok(seen) => last = Some(fields(seen)),
            Err(Illegal { rule }) => return Err((k + 1, rule)),
        }
    }
    Ok(last)
}

#[derive(Clone, Copy)]
struct Outcome {
    told: Told,
    finished: Result<(), Unfinished>,
    next: Option<Event>,
    /// Whether the actuator got just the values that are wanted.
    is_output: bool,
    has_machine: bool,
}

/// Plays a list on a machine.
fn outcome_on(core: &mut Core<'_>, events: &[u8], output: &[Value]) -> Outcome
    requires { Drives core.old.plan 1 0 }
{
    let told = play(core, events);
    Outcome {
        told,
        finished: core.finished(),
        next: core.next(),
        is_output: core.output(0) == output,
        has_machine: core.machine(TaskNo(1)).is_some(),
    }
}

/// Plays a list on a plan with its rows, up to a horizon. No task runs a body.
fn played(
    alloc: Global,
    plan: &Plan,
    sensors: &Sensors,
    horizon: Horizon,
    events: &[u8],
    output: &[Value],
) -> Result<Outcome, Fail>
    requires horizon { IsHorizon plan.now horizon }
    requires bodies { HaveTaskBodies plan.now.graph [] }
    requires rows { HaveTypedRows plan.now.graph horizon.until sensors.now }
{
    if !drives(plan) {
        return Err("another plan".into());
    }
    let bodies = Bodies::none(alloc);
    match Core::new(alloc, plan, &bodies, sensors, horizon) {
        Ok(mut core) => Ok(outcome_on(&mut core, events, output)),
        Err(_) => Err("no memory".into()),
    }
}

const ONE_AND_TWO: [Value; 2] = [Value::Int(1), Value::Int(2)];

/// Plays a list on the plan of a sensor with the rows 1 and 2 and its actuator, up to 20.
fn outcome_of(
    alloc: Global,
    plan: &[u8],
    events: &[u8],
    output: &[Value],
) -> Result<Outcome, Fail> {
    match plan_served(alloc, plan, 1, ONE_AND_TWO.as_slice(), 20) {
        Ok(made) => played(alloc, &made.0, &made.1, made.2, events, output),
        Err(fail) => Err(fail),
    }
}

/// The number of the first of these lists after which another thing is told.
fn other_told(alloc: Global, plan: &[u8], lists: &[(&[u8], Told)]) -> Result<Option<usize>, Fail> {
    for (k, (events, told)) in lists.iter().enumerate() {
        if outcome_of(alloc, plan, events, &[])?.told != *told {
            return Ok(Some(k));
        }
    }
    Ok(None)
}

const ONE: Option<Value> = Some(Value::Int(1));

const NINE: Option<Value> = Some(Value::Int(9));

/// What is told of copies: a write and a read by halves, an end and a tick.
const COPIES: [(&[u8], Told); 6] = [
    (b"0", Ok(Some((b'h', [0, 0, 0, 0, 0, 0], None)))),
    (b"00", Ok(Some((b'w', [0, 0, 0, 0, 0, 0], None)))),
    (b"000", Ok(Some((b'e', [0, 0, 0, 0, 0, 0], None)))),
    (b"000t", Ok(Some((b't', [1, 0, 0, 0, 0, 0], None)))),
    (b"000t1", Ok(Some((b'h', [1, 0, 0, 0, 0, 0], None)))),
    (b"000t11", Ok(Some((b'r', [1, 0, 0, 0, 0, 0], ONE)))),
];

/// What is told of values that come one period late: the constant, then the first instance, while the second is written.
const LATE: [(&[u8], Told); 3] = [
    (b"0001", Ok(Some((b'c', [1, 0, 0, 0, 0, 0], NINE)))),
    (
        b"00011tttttttttt00011",
        Ok(Some((b'r', [1, 1, 0, 0, 0, 0], ONE))),
    ),
    (
        b"00011tttttttttt00",
        Ok(Some((b'w', [0, 1, 0, 0, 0, 1], None))),
    ),
];

#[test]
fn writes_and_reads_are_told(rt: HostRuntime) -> Result<(), Fail> {
    assert!(rt; other_told(rt.alloc(), COPIED_PLAN, COPIES.as_slice())? == None);
    assert!(rt; other_told(rt.alloc(), LATE_PLAN, LATE.as_slice())? == None);
    Ok(())
}

/// What is left to be done, and what comes next.
type Left = (Result<(), Unfinished>, Option<Event>);

const NOTHING: Left = (Ok(()), None);

/// Whether a list leaves this, and the actuator, whose task runs no machine, got just this.
fn leaves(
    alloc: Global,
    plan: &[u8],
    events: &[u8],
    got: &[Value],
    left: Left,
) -> Result<bool, Fail> {
    let made = outcome_of(alloc, plan, events, got)?;
    Ok(made.is_output && made.finished == left.0 && made.next == left.1 && !made.has_machine)
}

#[test]
fn an_actuator_gets_the_values_in_order(rt: HostRuntime) -> Result<(), Fail> {
    let alloc = rt.alloc();
    let whole = b"000t111ttttttttt000t111";
    assert!(rt; leaves(alloc, COPIED_PLAN, whole, ONE_AND_TWO.as_slice(), NOTHING)?);
    let job = Unfinished {
        task: TaskNo(0),
        job: 1,
    };
    let left = (Err(job), Some(Event::Act(TaskNo(1))));
    assert!(rt; leaves(alloc, COPIED_PLAN, b"000t11", &[], left)?);
    let nine_and_one = [Value::Int(9), Value::Int(1)];
    let late = b"00011tttttttttt000111";
    assert!(rt; leaves(alloc, LATE_PLAN, late, nine_and_one.as_slice(), NOTHING)?);
    Ok(())
}
