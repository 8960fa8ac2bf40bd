//! The arguments of the command line: the form of its words, and the command that they ask for.

ghost use Rattle.std.specs.Prelude.{◌≡◌, map, IfOk, IfSome, Some, Err, None};
ghost use Rattle.std.specs.Option.{option_map};
ghost use Rattle.std.specs.String.{string_bytes};
ghost use Rattle.prl_arguments.specs.Arguments.{AreInRange, after_front, all_settings, asked_of, asked_of_mode, asked_with, clock_of, command_of, first_option, has, is_value, mode_named, name_of, named_by, named_in, needed, needs, nothing, number_or, own_value, possible, value_from, with_option, with_options, with_value};
ghost use Rattle.prl_arguments.specs.code.Settings.{bytes_of, given_by, named_as, place_of, wanted_by, wanted_command};

use crate::options::are_options_of;
use prl_base::{Label, decimal_of};
use prl_rule::Gate;
use std::alloc::{AllocError, Global};

/// The greatest date up to which a mode may run, in ticks.
pub const MAX_UNTIL: u32 = 2_147_483_647;

/// The most workers that a run may have.
pub const MAX_WORKERS: u32 = 16;

/// The greatest size of a generated program, in lanes.
pub const MAX_SIZE: u32 = 20;

/// How many options there are.
const OPTIONS: usize = 12;

/// What the command is to do.
#[derive(Clone, Copy, PartialEq, Eq)]
pub enum Mode {
    /// Says that the program has a plan, and how large it is.
    Check,
    /// Runs the tasks on several processors, by a schedule or by priorities: writes what the jobs read, and the flows of the
    /// actuators.
    Cores,
    /// Runs the tasks of the program by a static cyclic table, and writes the flows of the actuators.
    Cycle,
    /// Says whether one processor can meet the plan's dates with the WCETs.
    Edf,
    /// Writes the flows of the actuators.
    Flows,
    /// Makes a program from a number, replays and runs it, and writes a summary.
    Generate,
    /// Writes the program's plan.
    Plan,
    /// Writes the program in its printed form.
    Print,
    /// Replays a schedule: writes what the jobs read, and the flows of the actuators.
    Replay,
    /// Runs the tasks of the program on a board, and writes the flows of the actuators.
    Run,
    /// Writes a schedule of the program's plan.
    Schedule,
    /// Writes a static cyclic table of the program's plan.
    Table,
}

/// What an option of the command line gives.
#[derive(Clone, Copy, PartialEq, Eq)]
pub enum Setting {
    /// `--program`: the file of the program.
    Program,
    /// `--bodies`: the file of the bodies of imported nodes.
    Bodies,
    /// `--sensors`: the file of the sensor rows.
    Sensors,
    /// `--schedule`: the file of the schedule.
    Schedule,
    /// `--table`: the file of the static cyclic table.
    Table,
    /// `--cores`: the file that tells which processor each task runs on.
    Cores,
    /// `--node`: the name of the main node.
    Node,
    /// `--until`: the date up to which the mode runs, in ticks.
    Until,
    /// `--workers`: how many threads run the tasks.
    Workers,
    /// `--clock`: whether the clock waits for the jobs that are due.
    Clock,
    /// `--seed`: the number that a program is made from.
    Seed,
    /// `--size`: how many lanes the program has that is made.
    Size,
}

/// What the arguments of a command line ask for. An option that is not given is None, and a number that is
/// not given is 0, but there is one worker then.
pub struct Command {
    pub mode: Mode,
    /// The file of the program.
    pub program: Option<Label>,
    /// The file of the bodies of imported nodes.
    pub bodies: Option<Label>,
    /// The file of the sensor rows.
    pub sensors: Option<Label>,
    /// The file of the schedule.
    pub schedule: Option<Label>,
    /// The file of the static cyclic table.
    pub table: Option<Label>,
    /// The file that tells which processor each task runs on.
    pub cores: Option<Label>,
    /// The name of the main node; where none is given it is the last node of the program.
    pub node: Option<Label>,
    /// The date up to which the mode runs, in ticks.
    pub until: u32,
    /// How many threads run the tasks: 1 to `MAX_WORKERS`.
    pub workers: u32,
    /// Whether the clock waits for the jobs that are due, as it does where nothing is said of it.
    pub clock: Gate,
    /// The number that a program is made from.
    pub seed: u64,
    /// How many lanes the program has that is made: 1 to `MAX_SIZE`.
    pub size: u32,
}

/// Why arguments are no command.
#[derive(Clone, Copy)]
pub enum WordsFault {
    /// The arguments are not of the form of a command.
    Refused,
    Memory,
}

/// The values of options, where they are given, in the order of `SETTINGS`.
#[derive(Clone, Copy)]
struct Given<'a> {
    values: [Option<&'a [u8]>; OPTIONS],
}

/// An option, with its value where that stands in the same word.
pub type Named<'a> = (Setting, Option<&'a [u8]>);

/// The value of an option, and the words after it.
type Taken<'a> = (&'a [u8], &'a [String]);

/// Values of options, and the words after them.
type Read<'a> = (Given<'a>, &'a [String]);

/// The labels that three options give.
type Labels = (Option<Label>, Option<Label>, Option<Label>);

/// All options.
pub(crate) static SETTINGS: [Setting; OPTIONS] = [
    Setting::Program,
    Setting::Bodies,
    Setting::Sensors,
    Setting::Schedule,
    Setting::Table,
    Setting::Cores,
    Setting::Node,
    Setting::Until,
    Setting::Workers,
    Setting::Clock,
    Setting::Seed,
    Setting::Size,
];

/// The mode of a name.
pub fn mode_named(name: &[u8]) -> Option<Mode>
    ensures { result ≡ mode_named name.now }
{
    if name == b"check".as_slice() {
        Some(Mode::Check)
    } else if name == b"cores".as_slice() {
        Some(Mode::Cores)
    } else if name == b"cycle".as_slice() {
        Some(Mode::Cycle)
    } else if name == b"edf".as_slice() {
        Some(Mode::Edf)
    } else if name == b"flows".as_slice() {
        Some(Mode::Flows)
    } else if name == b"generate".as_slice() {
        Some(Mode::Generate)
    } else if name == b"plan".as_slice() {
        Some(Mode::Plan)
    } else if name == b"print".as_slice() {
        Some(Mode::Print)
    } else if name == b"replay".as_slice() {
        Some(Mode::Replay)
    } else if name == b"run".as_slice() {
        Some(Mode::Run)
    } else if name == b"schedule".as_slice() {
        Some(Mode::Schedule)
    } else if name == b"table".as_slice() {
        Some(Mode::Table)
    } else {
        None
    }
}

/// The options that a mode needs.
pub fn needed<'a>(mode: Mode) -> &'a [Setting]
    ensures { result.now ≡ needed mode }
{
    match mode {
        Mode::Check | Mode::Plan | Mode::Print | Mode::Table => &[Setting::Program],
        Mode::Edf | Mode::Schedule => &[Setting::Program, Setting::Until],
        Mode::Flows | Mode::Run => &[Setting::Program, Setting::Sensors, Setting::Until],
        Mode::Cores => &[
            Setting::Program,
            Setting::Sensors,
            Setting::Cores,
            Setting::Until,
        ],
        Mode::Cycle => &[
            Setting::Program,
            Setting::Sensors,
            Setting::Table,
            Setting::Until,
        ],
        Mode::Replay => &[
            Setting::Program,
            Setting::Sensors,
            Setting::Schedule,
            Setting::Until,
        ],
        Mode::Generate => &[Setting::Seed, Setting::Size],
    }
}

/// The options that a mode may have beside those that it needs.
fn possible<'a>(mode: Mode) -> &'a [Setting]
    ensures { result.now ≡ possible mode }
{
    match mode {
        Mode::Generate | Mode::Print => &[],
        Mode::Edf | Mode::Plan | Mode::Schedule | Mode::Table => &[Setting::Node],
        Mode::Check | Mode::Cycle | Mode::Flows | Mode::Replay => {
            &[Setting::Bodies, Setting::Node]
        }
        Mode::Cores => &[Setting::Bodies, Setting::Schedule, Setting::Node],
        Mode::Run => &[
            Setting::Bodies,
            Setting::Node,
            Setting::Workers,
            Setting::Clock,
        ],
    }
}

/// Whether the mode needs the option.
pub(crate) fn needs(mode: Mode, setting: Setting) -> bool
    ensures { result ≡ needs mode setting }
{
    needed(mode).contains(&setting)
}

/// Whether the mode needs the option, or may have it.
pub fn has(mode: Mode, setting: Setting) -> bool
    ensures { result ≡ has mode setting }
{
    needs(mode, setting) || possible(mode).contains(&setting)
}

/// The name of an option, which is written after `--`.
pub fn name_of<'a>(setting: Setting) -> &'a str
    ensures { result.now ≡ name_of setting }
{
    match setting {
        Setting::Program => "program",
        Setting::Bodies => "bodies",
        Setting::Sensors => "sensors",
        Setting::Schedule => "schedule",
        Setting::Table => "table",
        Setting::Cores => "cores",
        Setting::Node => "node",
        Setting::Until => "until",
        Setting::Workers => "workers",
        Setting::Clock => "clock",
        Setting::Seed => "seed",
        Setting::Size => "size",
    }
}

/// What stands after the front, where the text begins with it.
fn after_front<'a>(front: &[u8], text: &'a [u8]) -> Option<&'a [u8]>
    ensures { option_map (λ rest. rest.now) result ≡ after_front front.now text.now }
{
    text.strip_prefix(front)
}

/// What stands after an option in its word: nothing, or `=` and its value.
fn own_value(rest: &[u8]) -> Option<Option<&[u8]>>
    ensures { option_map bytes_of result ≡ own_value rest.now }
{
    match rest {
        [] => Some(None),
        [first, value @ ..] => {
            if *first == b'=' {
                Some(Some(value))
            } else {
                None
            }
        }
    }
}

/// The option, where the word names it.
pub fn named_by<'a>(setting: Setting, word: &'a [u8]) -> Option<Named<'a>>
    ensures { option_map named_as result ≡ named_by setting word.now }
{
    let dashed = after_front(b"--", word)?;
    let rest = after_front(name_of(setting).as_bytes(), dashed)?;
    let value = own_value(rest)?;
    Some((setting, value))
}

/// The one of these options that the word names.
fn named_in<'a>(settings: &[Setting], word: &'a [u8]) -> Option<Named<'a>>
    ensures { option_map named_as result ≡ named_in settings.now word.now }
{
    match settings {
        [] => None,
        [first, rest @ ..] => match named_by(*first, word) {
            Some(named) => Some(named),
            None => named_in(rest, word),
        },
    }
}

/// The option that the word names.
pub fn option_named(word: &[u8]) -> Option<Named<'_>>
    ensures { option_map named_as result ≡ named_in all_settings word.now }
{
    named_in(&SETTINGS, word)
}

/// Where an option stands in `SETTINGS`.
fn place_of(setting: Setting) -> usize
    ensures { result ≡ place_of setting }
{
    setting as usize
}

/// No option is given.
fn nothing<'a>() -> Given<'a>
    ensures { given_by result ≡ nothing }
{
    Given {
        values: [None; OPTIONS],
    }
}

impl<'a> Given<'a> {
    /// The value of an option.
    fn value_of(self, setting: Setting) -> Option<&'a [u8]>
        ensures { bytes_of result ≡ given_by self.entry setting }
    {
        self.values[place_of(setting)]
    }

    /// The values with one more.
    fn with_value(self, setting: Setting, value: &'a [u8]) -> Given<'a>
        ensures { given_by result ≡ with_value (given_by self.entry) setting value.now }
    {
        let mut more = self;
        more.values[place_of(setting)] = Some(value);
        more
    }

    /// The values with one more, where it has the form of a value and the option is not given yet.
    fn with_option(self, setting: Setting, value: &'a [u8]) -> Option<Given<'a>>
        ensures { option_map given_by result ≡ with_option (given_by self.entry) setting value.now }
    {
        if is_value(value) && self.value_of(setting).is_none() {
            Some(self.with_value(setting, value))
        } else {
            None
        }
    }
}

/// Whether the word has the form of a value.
pub fn is_value(word: &[u8]) -> bool
    ensures { result ≡ is_value word.now }
{
    match word {
        [] => false,
        [first, ..] => *first != b'-',
    }
}

/// The value of an option, from its own word or else the next one, and the words after it.
fn value_from<'a>(own: Option<&'a [u8]>, later: &'a [String]) -> Option<Taken<'a>>
    ensures { option_map (λ t. (t.0.now, map string_bytes t.1.now)) result ≡ value_from (bytes_of own.entry) (map string_bytes later.now) }
{
    match own {
        Some(value) => Some((value, later)),
        None => match later {
            [] => None,
            [value, after @ ..] => Some((value.as_bytes(), after)),
        },
    }
}

/// The values with those of the option that stands first, and the words after it.
fn first_option<'a>(given: Given<'a>, word: &'a [u8], later: &'a [String]) -> Option<Read<'a>>
    ensures { option_map (λ r. (given_by r.0, map string_bytes r.1.now)) result ≡ first_option (given_by given.entry) word.now (map string_bytes later.now) }
{
    let (setting, own) = option_named(word)?;
    let (value, after) = value_from(own, later)?;
    let more = given.with_option(setting, value)?;
    Some((more, after))
}

/// The values with those of all options that the words give, which are at most so many. Each is given once, so no more
/// calls stand in one another than there are options.
fn with_options<'a>(most: usize, given: Given<'a>, words: &'a [String]) -> Option<Given<'a>>
    ensures { option_map given_by result ≡ with_options most (given_by given.entry) (map string_bytes words.now) }
{
    match words {
        [] => Some(given),
        [word, later @ ..] => {
            if most == 0 {
                return None;
            }
            let (more, after) = first_option(given, word.as_bytes(), later)?;
            with_options(most - 1, more, after)
        }
    }
}

/// The number that 1 to 20 digits spell, or another one where there is no text.
fn number_or(other: u64, text: Option<&[u8]>) -> Option<u64>
    ensures { result ≡ number_or other (bytes_of text.entry) }
{
    match text {
        None => Some(other),
        Some(text) => {
            let number = decimal_of(text)?;
            if text.len() <= 20 { Some(number) } else { None }
        }
    }
}

/// Whether the clock waits for the jobs that are due.
fn clock_of(text: Option<&[u8]>) -> Option<Gate>
    ensures { result ≡ clock_of (bytes_of text.entry) }
{
    match text {
        None => Some(Gate::Gated),
        Some(text) => {
            if text == b"gated".as_slice() {
                Some(Gate::Gated)
            } else if text == b"free".as_slice() {
                Some(Gate::Free)
            } else {
                None
            }
        }
    }
}

/// A mode, the values of its options, and what some of them spell: what words of the form of a command give.
#[derive(Clone, Copy)]
struct Wanted<'a> {
    mode: Mode,
    given: Given<'a>,
    until: u64,
    workers: u64,
    clock: Gate,
    seed: u64,
    size: u64,
}

/// What the values of a mode's options spell.
fn wanted_with<'a>(mode: Mode, given: Given<'a>) -> Option<Wanted<'a>>
    ensures { option_map wanted_by result ≡ asked_with mode (given_by given.entry) }
{
    let until = number_or(0, given.value_of(Setting::Until))?;
    let workers = number_or(1, given.value_of(Setting::Workers))?;
    let clock = clock_of(given.value_of(Setting::Clock))?;
    let seed = number_or(0, given.value_of(Setting::Seed))?;
    let size = number_or(0, given.value_of(Setting::Size))?;
    Some(Wanted {
        mode,
        given,
        until,
        workers,
        clock,
        seed,
        size,
    })
}

/// What the words after a mode give.
#[tactic(auto, unfolding(crate::specs::Arguments::asked_of_mode))]
fn wanted_of_mode<'a>(mode: Mode, words: &'a [String]) -> Option<Wanted<'a>>
    ensures { option_map wanted_by result ≡ asked_of_mode mode (map string_bytes words.now) }
{
    let given = with_options(words.len(), nothing(), words)?;
    wanted_with(mode, given)
}

/// What the words give, where they have the form of a command.
fn read_wanted<'a>(words: &'a [String]) -> Option<Wanted<'a>>
    ensures { option_map wanted_by result ≡ asked_of (map string_bytes words.now) }
{
    match words {
        [_, mode, rest @ ..] => {
            let mode = mode_named(mode.as_bytes())?;
            wanted_of_mode(mode, rest)
        }
        [_] => None,
        [] => None,
    }
}

/// What the words give, where they are a command.
fn read_command<'a>(alloc: Global, words: &'a [String]) -> Result<Option<Wanted<'a>>, AllocError>
    ensures exact { IfOk result (λ w. option_map wanted_command w ≡ command_of (map string_bytes words.now)) }
    ensures range { IfOk result (λ w. IfSome w (λ wanted. AreInRange wanted.mode wanted.until wanted.workers wanted.size)) }
{
    let Some(wanted) = read_wanted(words) else {
        return Ok(None);
    };
    if are_options_of(alloc, wanted.mode, words)? {
        Ok(Some(wanted))
    } else {
        Ok(None)
    }
}

/// The label that an option gives.
fn label_of(alloc: Global, given: Given<'_>, setting: Setting) -> Result<Option<Label>, AllocError>
    ensures { IfOk result (λ label. label ≡ given_by given.entry setting) }
{
    match given.value_of(setting) {
        None => Ok(None),
        Some(bytes) => Ok(Some(Label::new(alloc, bytes)?)),
    }
}

/// The labels that three options give.
fn labels_of(
    alloc: Global,
    given: Given<'_>,
    one: Setting,
    two: Setting,
    three: Setting,
) -> Result<Labels, AllocError>
    ensures one { IfOk result (λ labels. labels.0 ≡ given_by given.entry one) }
    ensures two { IfOk result (λ labels. labels.1 ≡ given_by given.entry two) }
    ensures three { IfOk result (λ labels. labels.2 ≡ given_by given.entry three) }
{
    let first = label_of(alloc, given, one)?;
    let second = label_of(alloc, given, two)?;
    let third = label_of(alloc, given, three)?;
    Ok((first, second, third))
}

/// The command of what words give.
fn commanded(alloc: Global, wanted: Wanted<'_>) -> Result<Command, AllocError>
    requires { AreInRange wanted.mode wanted.until wanted.workers wanted.size }
    ensures { IfOk result (λ command. command ≡ wanted_command wanted.entry) }
{
    let given = wanted.given;
    let sources = labels_of(
        alloc,
        given,
        Setting::Program,
        Setting::Bodies,
        Setting::Sensors,
    )?;
    let orders = labels_of(
        alloc,
        given,
        Setting::Schedule,
        Setting::Table,
        Setting::Cores,
    )?;
    let node = label_of(alloc, given, Setting::Node)?;
    Ok(Command {
        mode: wanted.mode,
        program: sources.0,
        bodies: sources.1,
        sensors: sources.2,
        schedule: orders.0,
        table: orders.1,
        cores: orders.2,
        node,
        until: wanted.until as u32,
        workers: wanted.workers as u32,
        clock: wanted.clock,
        seed: wanted.seed,
        size: wanted.size as u32,
    })
}

/// The command that the words of a command line ask for. The first word is the program's own name, which is passed over, and
/// the second is the mode. After it come the options, in whatever order and none twice: all that the mode needs, and any
/// of those that it may have. The value of an option stands in the next word, or in its own word after `=`; it is not
/// empty, and `-` is not its first byte. A number has 1 to 20 digits: a date is at most `MAX_UNTIL`, workers are 1 to
/// `MAX_WORKERS`, a size is 1 to `MAX_SIZE`, and a seed is below 2^64. A clock is `gated` or `free`.
pub fn read_words(alloc: Global, words: &[String]) -> Result<Command, WordsFault>
    ensures found { IfOk result (λ command. command_of (map string_bytes words.now) ≡ Some command) }
    ensures range { IfOk result (λ command. AreInRange command.mode command.until command.workers command.size) }
    ensures refused { result ≡ Err WordsFault.Refused → command_of (map string_bytes words.now) ≡ None }
{
    match read_command(alloc, words) {
        Ok(None) => Err(WordsFault::Refused),
        Ok(Some(wanted)) => match commanded(alloc, wanted) {
            Ok(command) => Ok(command),
            Err(_) => Err(WordsFault::Memory),
        },
        Err(_) => Err(WordsFault::Memory),
    }
}

impl Drop for Command {
    fn drop(self) {
        let Command {
            mode: _,
            program,
            bodies,
            sensors,
            schedule,
            table,
            cores,
            node,
            until: _,
            workers: _,
            clock: _,
            seed: _,
            size: _,
        } = self;
        drop(program);
        drop(bodies);
        drop(sensors);
        drop(schedule);
        drop(table);
        drop(cores);
        drop(node);
    }
}
