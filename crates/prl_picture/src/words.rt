//! The words of a command line, and the range that they ask for.

ghost use Rattle.std.specs.Prelude.{◌<◌, ◌≤◌, IfSome, map};
ghost use Rattle.std.specs.String.{string_bytes};
ghost use Rattle.prl_picture.specs.Pictures.{AreAsked, IsFirst, IsLast};
ghost use Rattle.prl_shapes.specs.Views.{AreTasks};

use crate::defaults::default_end;
use crate::ranges::MAX_UNTIL;
use prl_drawing::{Unit, unit_of};
use prl_io::{number_up_to, value_of};
use prl_plan::Plan;

/// The form of the words.
pub const FORM: &str =
    "prelude_picture --plan FILE [--schedule FILE] [--cores FILE] [--edf TICK | --table FILE] \
    [--task NAME] [--from TICK] [--until TICK] [--tick TIME], or --help";

/// What the options mean.
pub const HELP: &str = "prelude_picture --plan FILE [OPTION VALUE ..] > PICTURE.svg\n\
    Draws a plan, as `prelude plan` writes it: a row for each task, a window for each job.\n\n\
    --plan FILE      the text of the plan\n\
    --schedule FILE  beside it the ticks at which the tasks act in a schedule\n\
    --cores FILE     on the processors of a text of `TASK PROCESSOR` lines, a row for each;\n\
    \x20                the run of --schedule there, or else the dispatched one\n\
    --edf TICK       the run by earliest deadline first of the jobs before TICK\n\
    --table FILE     a static cyclic table, in each hyperperiod of the range\n\
    --task NAME      this task alone, and those that it reads or writes for\n\
    --from TICK      from this tick on; 0 where nothing is said\n\
    --until TICK     jobs that are released before this tick; where nothing is said, those of a\n\
    \x20                hyperperiod, and more until each precedence has an arrow\n\
    --tick TIME      times in this unit: how long a tick is, as 0.1ms, 250us or 1s\n\
    --help           this text\n\n\
    --edf, --table, and --schedule or --cores are not asked for together.\n";

/// The options of the words.
pub static OPTIONS: [&[u8]; 9] = [
    b"--plan",
    b"--schedule",
    b"--cores",
    b"--edf",
    b"--table",
    b"--task",
    b"--from",
    b"--until",
    b"--tick",
];

/// The first tick that the words ask for.
fn first_of(words: &[String]) -> Option<u64>
    ensures small { IfSome result (λ tick. tick ≤ MAX_UNTIL) }
    ensures exact { IfSome result (λ tick. IsFirst (map string_bytes words.now) tick) }
{
    match value_of(b"--from", words) {
        None => Some(0),
        Some(word) => number_up_to(MAX_UNTIL, word),
    }
}

/// The tick after the last one that the words ask for.
fn last_of(words: &[String], plan: &Plan, rows: &[u32], from: u64) -> Option<u64>
    requires from { from ≤ MAX_UNTIL }
    requires rows { AreTasks plan.now rows.now }
    ensures small { IfSome result (λ tick. tick ≤ MAX_UNTIL) }
    ensures exact { IfSome result (λ tick. IsLast plan.now rows.now (map string_bytes words.now) from tick) }
{
    match value_of(b"--until", words) {
        None => Some(default_end(plan, rows, from, value_of(b"--table", words).is_some())),
        Some(word) => number_up_to(MAX_UNTIL, word),
    }
}

/// The range that the words ask for: its first tick, and the tick after its last.
pub(crate) fn range_of(words: &[String], plan: &Plan, rows: &[u32]) -> Option<(u64, u64)>
    requires rows { AreTasks plan.now rows.now }
    ensures asked { IfSome result (λ range. AreAsked plan.now rows.now (map string_bytes words.now) range.0 range.1) }
    ensures some { IfSome result (λ range. range.0 < range.1) }
    ensures small { IfSome result (λ range. range.1 ≤ MAX_UNTIL) }
{
    let from = first_of(words)?;
    let until = last_of(words, plan, rows, from)?;
    if until <= from {
        return None;
    }
    Some((from, until))
}

/// Before which tick jobs are released whose windows are drawn whole: none, where the words tell the end
/// of the range; all, where they name a table; else those of a hyperperiod.
pub(crate) fn whole_before(words: &[String], plan: &Plan, from: u64) -> u64 {
    if value_of(b"--until", words).is_some() {
        return 0;
    }
    if value_of(b"--table", words).is_some() {
        return MAX_UNTIL;
    }
    from.saturating_add(plan.graph().hyper)
}

/// How long a tick is by the words.
pub(crate) fn tick_unit(words: &[String]) -> Option<Unit> {
    match value_of(b"--tick", words) {
        None => Some(Unit::ticks()),
        Some(word) => unit_of(word),
    }
}
