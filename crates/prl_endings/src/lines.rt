//! The line on `err` that tells how a call ended.

ghost use Rattle.std.specs.Prelude.{◌≡◌, [], unwrap_or};
ghost use Rattle.std.specs.Option.{option_map};
ghost use Rattle.prl_endings.specs.ErrorLines.{file_name, grammar_line, types_line, limit_line, bodies_line, sensors_line, clocks_line, graph_line, dates_line, schedule_line, make_line, table_line, cores_line, line_of_fault, line_of, overrun_line};
ghost use Rattle.prl_plan.specs.Jobs.{task_at};
ghost use Rattle.prl_endings.specs.code.Pieces.{line_text};
ghost use Rattle.prl_endings.specs.Statuses.{IsTold};

use crate::endings::Ending;
use crate::pieces::{Line, Piece, denominator, write_line};
use prl_arguments::Command;
use prl_base::{Label, Limit, TaskNo};
use prl_exec::Stopped;
use prl_io::Sink;
use prl_plan::Plan;
use prl_stages::{
    BodiesRefusal, ClocksRefusal, CoresRefusal, DatesRefusal, Fault, GrammarRefusal, GraphRefusal,
    InputFile, MakeRefusal, ScheduleRefusal, SensorsRefusal, Stop, TableRefusal,
};
use prl_types::TypeFault;

fn label_bytes(label: &Option<Label>) -> &[u8]
    ensures { result.now ≡ unwrap_or label.now [] }
{
    match label {
        None => &[],
        Some(label) => label.bytes(),
    }
}

/// The name that the command gives to a file.
fn file_name(command: &Option<Command>, part: InputFile) -> &[u8]
    ensures { result.now ≡ file_name command.now part }
{
    match command {
        None => &[],
        Some(command) => match part {
            InputFile::Program => label_bytes(&command.program),
            InputFile::Bodies => label_bytes(&command.bodies),
            InputFile::Sensors => label_bytes(&command.sensors),
            InputFile::Schedule => label_bytes(&command.schedule),
            InputFile::Table => label_bytes(&command.table),
            InputFile::Cores => label_bytes(&command.cores),
        },
    }
}

/// The line of a limit that is passed.
fn limit_line<'a>(limit: Limit) -> Line<'a>
    ensures { line_text result ≡ limit_line limit }
{
    Line::two(
        Piece::Text(b"4 limit ", limit.what.text().as_bytes()),
        Piece::Number(b" found ", limit.found),
    )
}

/// The line of a fault of the grammar.
fn grammar_line<'a>(fault: GrammarRefusal) -> Line<'a>
    ensures { line_text result ≡ grammar_line fault }
{
    match fault {
        GrammarRefusal::BadToken(at) => Line::numbered(b"1 bad token at ", at as u64),
        GrammarRefusal::Unexpected(at) => Line::numbered(b"2 unexpected at ", at as u64),
        GrammarRefusal::NumberRange(at) => Line::numbered(b"3 number range at ", at as u64),
        GrammarRefusal::Limit(limit) => limit_line(limit),
    }
}

/// The line of a fault of names or types.
fn types_line<'a>(fault: &'a TypeFault) -> Line<'a>
    ensures { line_text result ≡ types_line fault.now }
{
    match fault {
        TypeFault::Twice(name) => Line::named(b"11 twice ", name.bytes()),
        TypeFault::Unknown(name) => Line::named(b"10 unknown ", name.bytes()),
        TypeFault::Undefined(name) => Line::named(b"15 undefined ", name.bytes()),
        TypeFault::Recursive(name) => Line::named(b"16 recursive ", name.bytes()),
        TypeFault::NoMain => Line::plain(b"14 no main"),
        TypeFault::Arity(at) => Line::numbered(b"12 arity at ", *at as u64),
        TypeFault::Mismatch { at, wanted, found } => Line::three(
            Piece::Number(b"13 mismatch at ", *at as u64),
            Piece::Text(b" wanted ", wanted.text().as_bytes()),
            Piece::Text(b" found ", found.text().as_bytes()),
        ),
        TypeFault::TypeFree { node, name } => Line::two(
            Piece::Text(b"17 type free ", node.bytes()),
            Piece::Text(b".", name.bytes()),
        ),
        // No program is refused with this.
        TypeFault::Memory => Line::plain(b""),
    }
}

/// The line of flows without clocks.
fn clocks_line<'a>(fault: &'a ClocksRefusal) -> Line<'a>
    ensures { line_text result ≡ clocks_line fault.now }
{
    match fault {
        ClocksRefusal::Mismatch(at) => Line::numbered(b"40 clock mismatch at ", *at as u64),
        ClocksRefusal::Limit(limit) => limit_line(*limit),
        ClocksRefusal::Free(label) => Line::named(b"41 clock free ", label.bytes()),
        ClocksRefusal::NotWhole {
            flow,
            period,
            start,
        } => Line(
            Piece::Text(b"42 not whole ", flow.bytes()),
            Piece::Signed(b" period ", period.num),
            denominator(period),
            Piece::Signed(b" start ", start.num),
            denominator(start),
            Piece::Nothing,
        ),
    }
}

/// The line of a program without a task graph.
fn graph_line<'a>(fault: &'a GraphRefusal) -> Line<'a>
    ensures { line_text result ≡ graph_line fault.now }
{
    match fault {
        GraphRefusal::DueOnNonTask(label) => Line::named(b"50 due on non-task ", label.bytes()),
        GraphRefusal::DueRange { flow, due, period } => Line::three(
            Piece::Text(b"51 due range ", flow.bytes()),
            Piece::Number(b" due ", *due as u64),
            Piece::Number(b" period ", *period),
        ),
        GraphRefusal::Limit(limit) => limit_line(*limit),
    }
}

/// The line of jobs without encoded dates.
fn dates_line<'a>(fault: &'a DatesRefusal) -> Line<'a>
    ensures { line_text result ≡ dates_line fault.now }
{
    match fault {
        DatesRefusal::Narrow {
            name,
            job,
            needs,
            has,
        } => Line::four(
            Piece::Text(b"60 narrow ", name.bytes()),
            Piece::Signed(b" ", *job),
            Piece::Signed(b" needs ", *needs),
            Piece::Signed(b" has ", *has),
        ),
        DatesRefusal::Loop { name, job } => Line::two(
            Piece::Text(b"61 loop ", name.bytes()),
            Piece::Signed(b" ", *job),
        ),
    }
}

/// The line of a fault of bodies.
fn bodies_line<'a>(fault: &'a BodiesRefusal) -> Line<'a>
    ensures { line_text result ≡ bodies_line fault.now }
{
    match fault {
        BodiesRefusal::Syntax(at) => Line::numbered(b"23 body syntax at ", *at as u64),
        BodiesRefusal::Limit(limit) => limit_line(*limit),
        BodiesRefusal::BodyName(at) => Line::numbered(b"24 body name at ", *at as u64),
        BodiesRefusal::BodyType(at) => Line::numbered(b"22 body type at ", *at as u64),
        BodiesRefusal::BodyArity(at) => Line::numbered(b"21 body arity at ", *at as u64),
        BodiesRefusal::Missing(name) => Line::named(b"20 body missing ", name.bytes()),
    }
}

/// The line of rows that are not right, or too few.
fn sensors_line<'a>(fault: &'a SensorsRefusal) -> Line<'a>
    ensures { line_text result ≡ sensors_line fault.now }
{
    match fault {
        SensorsRefusal::Row(number) => Line::numbered(b"80 row ", *number),
        SensorsRefusal::NoSensor(number) => Line::numbered(b"81 no sensor ", *number),
        SensorsRefusal::Order(number) => Line::numbered(b"82 order ", *number),
        SensorsRefusal::Value(number) => Line::numbered(b"83 value ", *number),
        SensorsRefusal::Short { name, have, need } => Line::three(
            Piece::Text(b"84 short ", name.bytes()),
            Piece::Number(b" ", *have),
            Piece::Number(b" ", *need),
        ),
    }
}

/// The line of a schedule that is no whole run.
fn schedule_line<'a>(fault: &'a ScheduleRefusal) -> Line<'a>
    ensures { line_text result ≡ schedule_line fault.now }
{
    match fault {
        ScheduleRefusal::Syntax(line) => Line::numbered(b"70 schedule syntax line ", *line),
        ScheduleRefusal::Illegal { line, rule } => Line::two(
            Piece::Number(b"71 illegal line ", *line),
            Piece::Text(b" rule ", rule.text().as_bytes()),
        ),
        ScheduleRefusal::Unfinished { name, job } => Line::two(
            Piece::Text(b"72 unfinished ", name.bytes()),
            Piece::Number(b" ", *job),
        ),
    }
}

/// The line of a plan of which no table is made.
fn make_line<'a>(fault: MakeRefusal) -> Line<'a>
    ensures { line_text result ≡ make_line fault }
{
    match fault {
        MakeRefusal::TooFar(tick) => Line::numbered(b"92 too far ", tick),
        MakeRefusal::Limit(limit) => limit_line(limit),
        MakeRefusal::Overload { from, to, demand } => Line::four(
            Piece::Number(b"90 overload ", from),
            Piece::Number(b" ", to),
            Piece::Number(b" demand ", demand),
            Piece::Number(b" has ", to.saturating_sub(from)),
        ),
        MakeRefusal::Unsteady(tick) => Line::numbered(b"91 unsteady at ", tick),
    }
}

/// The line of a text that is no good table.
fn table_line<'a>(fault: &'a TableRefusal) -> Line<'a>
    ensures { line_text result ≡ table_line fault.now }
{
    match fault {
        TableRefusal::Syntax(line) => Line::numbered(b"93 table syntax line ", *line),
        TableRefusal::Piece(line) => Line::numbered(b"94 piece ", *line),
        TableRefusal::Units { name, job } => Line::two(
            Piece::Text(b"95 units ", name.bytes()),
            Piece::Number(b" ", *job),
        ),
        TableRefusal::Clash { first, second } => Line::two(
            Piece::Number(b"96 clash ", *first),
            Piece::Number(b" ", *second),
        ),
        TableRefusal::Order { edge, job } => Line::two(
            Piece::Number(b"97 order edge ", edge.0 as u64),
            Piece::Number(b" job ", *job),
        ),
    }
}

/// The line of a text that does not place the tasks.
fn cores_line<'a>(fault: &'a CoresRefusal) -> Line<'a>
    ensures { line_text result ≡ cores_line fault.now }
{
    match fault {
        CoresRefusal::Syntax(line) => Line::numbered(b"98 core syntax line ", *line),
        CoresRefusal::Missing(name) => Line::named(b"99 core missing ", name.bytes()),
    }
}

/// The line of a fault.
fn fault_line<'a>(command: &'a Option<Command>, fault: &'a Fault) -> Line<'a>
    ensures { line_text result ≡ line_of_fault command.now fault.now }
{
    match fault {
        Fault::Absent(part) => Line::named(b"absent ", file_name(command, *part)),
        Fault::TooLong(part) => Line::named(b"too long ", file_name(command, *part)),
        Fault::Grammar(fault) => grammar_line(*fault),
        Fault::Types(fault) => types_line(fault),
        Fault::Cycle(label) => Line::named(b"30 cycle ", label.bytes()),
        Fault::Clocks(fault) => clocks_line(fault),
        Fault::Graph(fault) => graph_line(fault),
        Fault::Dates(fault) => dates_line(fault),
        Fault::Bodies(fault) => bodies_line(fault),
        Fault::Sensors(fault) => sensors_line(fault),
        Fault::Limit(limit) => limit_line(*limit),
        Fault::Schedule(fault) => schedule_line(fault),
        Fault::Made(fault) => make_line(*fault),
        Fault::Table(fault) => table_line(fault),
        Fault::Cores(fault) => cores_line(fault),
    }
}

/// The name of a task of the plan.
fn task_name(plan: &Plan, task: TaskNo) -> &[u8]
    ensures { result.now ≡ (task_at plan.now.graph task.0).name }
{
    match plan.graph().tasks.as_slice().get(task.0 as usize) {
        Some(task) => task.name.bytes(),
        None => &[],
    }
}

/// The line of a read that was overrun.
fn overrun_line<'a>(name: &'a [u8], stopped: &Stopped) -> Line<'a>
    ensures { line_text result ≡ overrun_line name.now stopped.now }
{
    Line(
        Piece::Text(b"overrun ", name),
        Piece::Number(b" ", stopped.job),
        Piece::Number(b" port ", stopped.port as u64),
        Piece::Number(b" cell ", stopped.cell.0 as u64),
        Piece::Number(b" wanted ", stopped.wanted as u64),
        Piece::Number(b" found ", stopped.found as u64),
    )
}

/// The line that tells how a call ended, where not all is done.
fn ending_line<'a>(command: &'a Option<Command>, ending: &'a Ending) -> Option<Line<'a>>
    ensures { option_map line_text result ≡ line_of command.now ending.now }
{
    match ending {
        Ending::Done(_) => None,
        Ending::Words => Some(Line::plain(b"usage: prelude MODE --OPTION VALUE ..")),
        Ending::Stopped(Stop::Unread(part)) => {
            Some(Line::named(b"read fault ", file_name(command, *part)))
        }
        Ending::Stopped(Stop::Refused(_, fault)) => Some(fault_line(command, fault)),
        Ending::Stopped(Stop::Memory) => Some(Line::plain(b"memory")),
        Ending::Unwritten(_) => Some(Line::plain(b"write fault")),
        Ending::Overrun(plan, stopped) => {
            Some(overrun_line(task_name(plan, stopped.task), stopped))
        }
    }
}

/// Tells on `err` how a call ended: in a line, but where all is done.
pub fn tell<E: Sink>(err: &mut E, command: &Option<Command>, ending: &Ending)
    ensures told { IsTold (E.seen err.old) (E.seen err.new) (line_of command.now ending.now) }
{
    if let Some(line) = ending_line(command, ending) {
        let _ = write_line(err, &line);
    }
}
