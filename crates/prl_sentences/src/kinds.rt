//! The kinds of lines that `prelude` writes on `err`.

ghost use Rattle.std.specs.Prelude.{◌≡◌};
ghost use Rattle.std.specs.List.{before_first};
ghost use Rattle.prl_sentences.specs.Kinds.{argument_of, is_gap, is_line_of, rest_of};

use prl_plan::Rule;

/// The files that a line may speak of, or by which more is told of it.
#[derive(Clone, Copy)]
pub enum Part {
    Program,
    Bodies,
    Sensors,
    Schedule,
    Table,
    Cores,
    Plan,
}

/// How a line tells the place of its fault.
#[derive(Clone, Copy)]
pub enum Target {
    /// It tells no place.
    Nowhere,
    /// By the index of a byte of the file.
    Byte(Part),
    /// By the number of a line of the file.
    Line(Part),
    /// By a name that the program has, in a node where one has it.
    Word,
    /// By the name of a node, a sensor or an actuator, or of the task of one: an import is followed by `@` and a number.
    Task,
    /// By the name of a flow: a name of main, or `NODE#N.NAME`.
    Flow,
    /// By `NODE.NAME`.
    Variable,
}

/// What is told beside the place and the sentence, of the files that are named.
#[derive(Clone, Copy)]
pub enum Detail {
    /// Nothing.
    Nothing,
    /// Which word of the command is wrong first.
    Words,
    /// Where in the program a name stands a first and a second time.
    Twice,
    /// What stands at a byte of the file, and what might stand there in its place.
    Unexpected(Part),
    /// How many inputs and outputs a node declares that is named there.
    Numbers,
    /// Which job acts at an event that breaks this rule, and which other one it overtakes.
    Broken(Rule),
    /// How many acts a job has done and has left.
    Left,
    /// The names of the tasks.
    Tasks,
    /// What is wrong in a line of a text of processors.
    Placing,
    /// The flows round a cycle.
    Cycle,
    /// The two clocks of a flow, and where each comes from.
    Clocks,
    /// The chain of jobs that a job waits for.
    Chain,
    /// The jobs round a loop.
    Circle,
    /// The jobs of an interval that is asked for more than it has.
    Overload,
    /// The jobs of a hyperperiod that asks for more than it has.
    Load,
    /// The entries and the jobs that a table's first fault is about.
    Table,
    /// A name that the program declares and that is spelt nearly so.
    Near,
    /// The names of the nodes.
    Nodes,
}

/// What lines of a kind begin and end with, how they tell the place, what is wrong there, and what is told beside.
#[derive(Clone, Copy)]
pub struct Kind {
    pub front: &'static str,
    pub tail: &'static str,
    pub target: Target,
    /// A byte of it that is less than ten stands for the word of the line that has this number, from 0, after its front.
    pub sentence: &'static str,
    pub detail: Detail,
}

/// Whether the text begins and ends as lines of the kind do.
pub(crate) fn is_line_of(kind: &Kind, line: &[u8]) -> bool
    ensures { result ≡ is_line_of kind.now line.now }
{
    line.starts_with(kind.front.as_bytes()) && line.ends_with(kind.tail.as_bytes())
}

/// What stands after the front of a line.
pub fn rest_of<'a>(kind: &Kind, line: &'a [u8]) -> &'a [u8]
    ensures { result.now ≡ rest_of kind.now line.now }
{
    match line.strip_prefix(kind.front.as_bytes()) {
        None => &[],
        Some(rest) => rest,
    }
}

/// The first word after the front of a line.
pub fn argument_of<'a>(kind: &Kind, line: &'a [u8]) -> &'a [u8]
    ensures { result.now ≡ argument_of kind.now line.now }
{
    word_of(rest_of(kind, line))
}

/// What stands before the first blank or line feed.
pub(crate) fn word_of(text: &[u8]) -> &[u8]
    ensures { result.now ≡ before_first is_gap text.now }
{
    for (i, byte) in text.iter().enumerate() {
        if *byte == b' ' || *byte == b'\n' {
            return &text[..i];
        }
    }
    text
}
