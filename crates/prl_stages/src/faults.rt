//! Why a stage of a command refuses. Want of memory is no refusal, so the faults of the crates below are told here without it.

use prl_base::{EdgeNo, Label, Limit, Name, Ratio};
use prl_plan::Rule;
use prl_types::TypeFault;

/// A file that a command names.
#[derive(Clone, Copy)]
pub enum InputFile {
    Program,
    Bodies,
    Sensors,
    Schedule,
    Table,
    Cores,
}

/// Why a text is no program of the grammar. Numbers count the bytes of the text from 0.
#[derive(Clone, Copy)]
pub enum GrammarRefusal {
    /// No token begins here.
    BadToken(u32),
    /// No program begins with the tokens up to the one here, or up to the end of the text.
    Unexpected(u32),
    /// The number here is out of its range.
    NumberRange(u32),
    /// A count is past its limit.
    Limit(Limit),
}

/// Why the flows of a program have no clocks, as `ClockFault` of `prl_clock` has it.
#[derive(Drop)]
pub enum ClocksRefusal {
    /// The constraint here, in bytes of the text, contradicts the earlier ones.
    Mismatch(u32),
    /// A number of a clock is past its limit.
    Limit(Limit),
    /// A flow whose clock the constraints leave open.
    Free(Label),
    /// A flow whose period or start, in ticks, is not whole, or that starts below 0.
    NotWhole {
        flow: Label,
        period: Ratio,
        start: Ratio,
    },
}

/// Why a program has no task graph, as `GraphFault` of `prl_graph` has it. A due is the relative deadline that a flow notes.
#[derive(Drop)]
pub enum GraphRefusal {
    /// A flow with a due that binds no task.
    DueOnNonTask(Label),
    /// A flow whose due is not between 1 and its period, in ticks.
    DueRange { flow: Label, due: u32, period: u64 },
    /// A count of tasks, edges, ticks or jobs is past its limit.
    Limit(Limit),
}

/// Why the jobs of a task graph have no encoded dates, as `DateFault` of `prl_dates` has it, with the name of the task for its
/// number. Jobs count from 0, and dates are in ticks.
#[derive(Drop)]
pub enum DatesRefusal {
    /// A chain of jobs that ends in this one ends at `needs` at the earliest, after its deadline `has`.
    Narrow {
        name: Label,
        job: i64,
        needs: i64,
        has: i64,
    },
    /// The chains of jobs that end in this one need longer the more jobs they have.
    Loop {
        name: Label,
        job: i64,
    },
}

/// Why the bodies of imported nodes are refused, as `BodyFault` of `prl_body` has it.
#[derive(Drop)]
pub enum BodiesRefusal {
    /// No text of bodies has this token here, or the number here is out of its range.
    Syntax(u32),
    /// A count is past its limit.
    Limit(Limit),
    /// The body may not have the name here.
    BodyName(u32),
    /// The operator here has an operand of a wrong type, or the statement another type than its left name.
    BodyType(u32),
    /// The body here lacks a statement for an output.
    BodyArity(u32),
    /// An import that main's expansion applies has no body.
    Missing(Name),
}

/// Why the rows of the sensors are refused, as `SensorFault` of `prl_sensors` has it. Records count from 1.
#[derive(Drop)]
pub enum SensorsRefusal {
    /// The record of this number has not three fields.
    Row(u64),
    /// The record of this number names no input of main.
    NoSensor(u64),
    /// The instance of the record of this number is not the next one of its sensor.
    Order(u64),
    /// The value of the record of this number is none of its sensor's type.
    Value(u64),
    /// The input has fewer rows than it needs.
    Short { name: Name, have: u64, need: u64 },
}

/// Why a schedule is no whole run of the program's tasks. Lines count from 1.
#[derive(Drop)]
pub enum ScheduleRefusal {
    /// The line of this number is no event.
    Syntax(u64),
    /// The event of this line is the first that breaks a rule, and this is the first rule that it breaks.
    Illegal { line: u64, rule: Rule },
    /// No event breaks a rule, but this job of the task has not ended.
    Unfinished { name: Label, job: u64 },
}

/// Why no table is made of a plan, as `MakeFault` of `prl_table` has it. Ticks count from 0.
#[derive(Clone, Copy)]
pub enum MakeRefusal {
    /// The run from which a table is cut would go up to this tick, which is above 2147483647.
    TooFar(u64),
    /// That run would have too many jobs or events.
    Limit(Limit),
    /// The jobs that have to run between these ticks ask for `demand` ticks, which is more than there are.
    Overload { from: u64, to: u64, demand: u64 },
    /// The first tick at which the run does not go on as it does a hyperperiod later.
    Unsteady(u64),
}

/// Why a text is no good table of the plan, as `TableFault` of `prl_tables` has it, with the name of the task for its number.
/// Lines count from 1, classes from 0.
#[derive(Drop)]
pub enum TableRefusal {
    /// The line of this number is not of the text.
    Syntax(u64),
    /// The entry of the line of this number is no piece of a job.
    Piece(u64),
    /// The units of this class are not the WCET of its task.
    Units { name: Label, job: u64 },
    /// The entries of these lines have a tick in common.
    Clash { first: u64, second: u64 },
    /// On this edge this class of the consumer does not come after the job that precedes it.
    Order { edge: EdgeNo, job: u64 },
}

/// Why a text does not place the tasks on processors, as `CoresFault` of `prl_cores` has it, with the name of the task for its
/// number. Lines count from 1.
#[derive(Drop)]
pub enum CoresRefusal {
    /// The line of this number is no task and its processor, or is a second line for its task.
    Syntax(u64),
    /// No line is of this task.
    Missing(Label),
}

/// Why a stage refuses.
pub enum Fault {
    /// There is no file of this name.
    Absent(InputFile),
    /// The file has more bytes than it may have.
    TooLong(InputFile),
    /// The program is not of the grammar.
    Grammar(GrammarRefusal),
    /// The names or the types of the program are not right.
    Types(TypeFault),
    /// The bodies of imported nodes are not of their grammar, do not fit, or lack one.
    Bodies(BodiesRefusal),
    /// A cycle of flows has no delay or passes through no application: the label of a flow on it.
    Cycle(Label),
    /// The flows have no clocks.
    Clocks(ClocksRefusal),
    /// The program has no task graph.
    Graph(GraphRefusal),
    /// The jobs of the program have no encoded dates.
    Dates(DatesRefusal),
    /// The rows of the sensors are not right, or too few.
    Sensors(SensorsRefusal),
    /// A count is past its limit.
    Limit(Limit),
    /// The schedule is no whole run.
    Schedule(ScheduleRefusal),
    /// No table is made of the plan.
    Made(MakeRefusal),
    /// The text is no good table of the plan.
    Table(TableRefusal),
    /// The text of processors does not place the tasks.
    Cores(CoresRefusal),
}

impl Drop for Fault {
    fn drop(self) {
        match self {
            Fault::Types(refusal) => drop(refusal),
            Fault::Bodies(refusal) => drop(refusal),
            Fault::Cycle(label) => drop(label),
            Fault::Clocks(refusal) => drop(refusal),
            Fault::Graph(refusal) => drop(refusal),
            Fault::Dates(refusal) => drop(refusal),
            Fault::Sensors(refusal) => drop(refusal),
            Fault::Schedule(refusal) => drop(refusal),
            Fault::Table(refusal) => drop(refusal),
            Fault::Cores(refusal) => drop(refusal),
            Fault::Absent(_)
            | Fault::TooLong(_)
            | Fault::Grammar(_)
            | Fault::Limit(_)
            | Fault::Made(_) => {}
        }
    }
}
