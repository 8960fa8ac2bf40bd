//! The files that the words name.

ghost use Rattle.std.specs.Prelude.{◌≡◌, ◌≤◌, codes, map, IfOk, IfErr, IfSome, length, vec_items};
ghost use Rattle.std.specs.Option.{option_map};
ghost use Rattle.std.specs.String.{string_bytes};
ghost use Rattle.prl_io.specs.Pairs.{value_of};
ghost use Rattle.prl_explain.specs.Texts.{AreFew, AreNamed, IsNamed, IsStopOfFile, most_of, option_of, text_in};

use prl_base::Label;
use prl_io::{Files, Stop, read_named, value_of};
use prl_sentences::Part;
use prl_stages::{MAX_BODIES, MAX_CORES, MAX_PROGRAM, MAX_SCHEDULE, MAX_SENSORS, MAX_TABLE};
use std::alloc::{AllocError, Global};

/// The most bytes of a plan's text.
pub const MAX_PLAN: u64 = 33_554_432;

/// The bytes of the files that the words name, None where they name none; and the name of the node that is to be main.
#[derive(Drop)]
pub struct Texts {
    pub program: Option<Vec<u8>>,
    pub bodies: Option<Vec<u8>>,
    pub sensors: Option<Vec<u8>>,
    pub schedule: Option<Vec<u8>>,
    pub table: Option<Vec<u8>>,
    pub cores: Option<Vec<u8>>,
    pub plan: Option<Vec<u8>>,
    pub node: Option<Label>,
}

/// No files, and no name of a node.
#[tactic(auto, using(crate::proofs::Named::few_none))]
pub(crate) fn no_texts() -> Texts
    ensures { AreFew result }
{
    Texts {
        program: None,
        bodies: None,
        sensors: None,
        schedule: None,
        table: None,
        cores: None,
        plan: None,
        node: None,
    }
}

/// The bytes of two files.
type Two = (Option<Vec<u8>>, Option<Vec<u8>>);

/// The bytes of four files.
type Four = (Two, Two);

/// The bytes of three files.
type Three = (Two, Option<Vec<u8>>);

/// The option that names a file.
pub(crate) fn option_of(part: Part) -> &'static [u8]
    ensures { result.now ≡ option_of part }
{
    match part {
        Part::Program => b"--program",
        Part::Bodies => b"--bodies",
        Part::Sensors => b"--sensors",
        Part::Schedule => b"--schedule",
        Part::Table => b"--table",
        Part::Cores => b"--cores",
        Part::Plan => b"--plan",
    }
}

/// The most bytes that a file may have.
fn most_of(part: Part) -> u64
    ensures { result ≡ most_of part }
{
    match part {
        Part::Program => MAX_PROGRAM,
        Part::Bodies => MAX_BODIES,
        Part::Sensors => MAX_SENSORS,
        Part::Schedule => MAX_SCHEDULE,
        Part::Table => MAX_TABLE,
        Part::Cores => MAX_CORES,
        Part::Plan => MAX_PLAN,
    }
}

/// The bytes, where there are some.
fn bytes_of(text: &Option<Vec<u8>>) -> Option<&[u8]>
    ensures { option_map (λ bytes. bytes.now) result ≡ option_map vec_items text.now }
{
    match text {
        None => None,
        Some(bytes) => Some(bytes.as_slice()),
    }
}

/// The bytes of a file, of those that were read.
fn bytes_in(texts: &Texts, part: Part) -> Option<&[u8]>
    ensures { option_map (λ text. text.now) result ≡ text_in texts.now part }
{
    match part {
        Part::Program => bytes_of(&texts.program),
        Part::Bodies => bytes_of(&texts.bodies),
        Part::Sensors => bytes_of(&texts.sensors),
        Part::Schedule => bytes_of(&texts.schedule),
        Part::Table => bytes_of(&texts.table),
        Part::Cores => bytes_of(&texts.cores),
        Part::Plan => bytes_of(&texts.plan),
    }
}

/// The bytes of a file, of those that were read, no more than it may have.
#[tactic(auto, using(crate::proofs::Named::few_from))]
pub(crate) fn text_in(texts: &Texts, part: Part) -> Option<&[u8]>
    requires { AreFew texts.now }
    ensures exact { option_map (λ text. text.now) result ≡ text_in texts.now part }
    ensures few { IfSome result (λ text. length text.now ≤ most_of part) }
{
    bytes_in(texts, part)
}

/// Reads a file that the words name.
#[tactic(auto, using(crate::proofs::Readings::named_is, crate::proofs::Readings::file_stop_is))]
fn read_part<F: Files>(
    alloc: Global,
    files: &mut F,
    words: &[String],
    part: Part,
) -> Result<Option<Vec<u8>>, Stop>
    ensures text { IfOk result (λ text. IsNamed (F.seen files.old).folder (map string_bytes words.now) part (option_map vec_items text)) }
    ensures stop { IfErr result (IsStopOfFile (F.seen files.old) (F.seen files.new) (map string_bytes words.now)) }
    ensures failed { IfOk result (λ _. (F.seen files.new).failed ≡ (F.seen files.old).failed) }
    ensures kept { (F.seen files.new).folder ≡ (F.seen files.old).folder }
{
    let Some(name) = value_of(option_of(part), words) else {
        return Ok(None);
    };
    match read_named(alloc, files, name, most_of(part)) {
        Ok(bytes) => Ok(Some(bytes)),
        Err(stop) => Err(stop),
    }
}

/// Reads two files that the words name.
#[tactic(auto, using(crate::proofs::Stops::stop_from, crate::proofs::Stops::named_from))]
fn read_two<F: Files>(
    alloc: Global,
    files: &mut F,
    words: &[String],
    first: Part,
    second: Part,
) -> Result<Two, Stop>
    ensures one { IfOk result (λ two. IsNamed (F.seen files.old).folder (map string_bytes words.now) first (option_map vec_items two.0)) }
    ensures other { IfOk result (λ two. IsNamed (F.seen files.old).folder (map string_bytes words.now) second (option_map vec_items two.1)) }
    ensures stop { IfErr result (IsStopOfFile (F.seen files.old) (F.seen files.new) (map string_bytes words.now)) }
    ensures failed { IfOk result (λ _. (F.seen files.new).failed ≡ (F.seen files.old).failed) }
    ensures kept { (F.seen files.new).folder ≡ (F.seen files.old).folder }
{
    let one = read_part(alloc, files, words, first)?;
    let other = read_part(alloc, files, words, second)?;
    Ok((one, other))
}

/// The name of the node that is to be main, where the words have one.
fn main_named(alloc: Global, words: &[String]) -> Result<Option<Label>, AllocError>
    ensures { IfOk result (λ name. name ≡ value_of (codes "--node") (map string_bytes words.now)) }
{
    match value_of(b"--node", words) {
        None => Ok(None),
        Some(name) => Ok(Some(Label::new(alloc, name)?)),
    }
}

/// Reads the files of a program and what it is run with.
#[tactic(auto, using(crate::proofs::Stops::stop_from, crate::proofs::Stops::named_from))]
fn read_inputs<F: Files>(alloc: Global, files: &mut F, words: &[String]) -> Result<Four, Stop>
    ensures program { IfOk result (λ t. IsNamed (F.seen files.old).folder (map string_bytes words.now) Part.Program (option_map vec_items t.0.0)) }
    ensures bodies { IfOk result (λ t. IsNamed (F.seen files.old).folder (map string_bytes words.now) Part.Bodies (option_map vec_items t.0.1)) }
    ensures sensors { IfOk result (λ t. IsNamed (F.seen files.old).folder (map string_bytes words.now) Part.Sensors (option_map vec_items t.1.0)) }
    ensures schedule { IfOk result (λ t. IsNamed (F.seen files.old).folder (map string_bytes words.now) Part.Schedule (option_map vec_items t.1.1)) }
    ensures stop { IfErr result (IsStopOfFile (F.seen files.old) (F.seen files.new) (map string_bytes words.now)) }
    ensures failed { IfOk result (λ _. (F.seen files.new).failed ≡ (F.seen files.old).failed) }
    ensures kept { (F.seen files.new).folder ≡ (F.seen files.old).folder }
{
    let front = read_two(alloc, files, words, Part::Program, Part::Bodies)?;
    let rest = read_two(alloc, files, words, Part::Sensors, Part::Schedule)?;
    Ok((front, rest))
}

/// Reads a table, a text of processors and a plan.
#[tactic(auto, using(crate::proofs::Stops::stop_from, crate::proofs::Stops::named_from))]
fn read_plans<F: Files>(alloc: Global, files: &mut F, words: &[String]) -> Result<Three, Stop>
    ensures table { IfOk result (λ t. IsNamed (F.seen files.old).folder (map string_bytes words.now) Part.Table (option_map vec_items t.0.0)) }
    ensures cores { IfOk result (λ t. IsNamed (F.seen files.old).folder (map string_bytes words.now) Part.Cores (option_map vec_items t.0.1)) }
    ensures plan { IfOk result (λ t. IsNamed (F.seen files.old).folder (map string_bytes words.now) Part.Plan (option_map vec_items t.1)) }
    ensures stop { IfErr result (IsStopOfFile (F.seen files.old) (F.seen files.new) (map string_bytes words.now)) }
    ensures failed { IfOk result (λ _. (F.seen files.new).failed ≡ (F.seen files.old).failed) }
    ensures kept { (F.seen files.new).folder ≡ (F.seen files.old).folder }
{
    let front = read_two(alloc, files, words, Part::Table, Part::Cores)?;
    let plan = read_part(alloc, files, words, Part::Plan)?;
    Ok((front, plan))
}

/// Reads all files that the words name.
#[tactic(auto, using(crate::proofs::Stops::stop_from, crate::proofs::Stops::named_from))]
fn read_files<F: Files>(
    alloc: Global,
    files: &mut F,
    words: &[String],
) -> Result<(Four, Three), Stop>
    ensures program { IfOk result (λ t. IsNamed (F.seen files.old).folder (map string_bytes words.now) Part.Program (option_map vec_items t.0.0.0)) }
    ensures bodies { IfOk result (λ t. IsNamed (F.seen files.old).folder (map string_bytes words.now) Part.Bodies (option_map vec_items t.0.0.1)) }
    ensures sensors { IfOk result (λ t. IsNamed (F.seen files.old).folder (map string_bytes words.now) Part.Sensors (option_map vec_items t.0.1.0)) }
    ensures schedule { IfOk result (λ t. IsNamed (F.seen files.old).folder (map string_bytes words.now) Part.Schedule (option_map vec_items t.0.1.1)) }
    ensures table { IfOk result (λ t. IsNamed (F.seen files.old).folder (map string_bytes words.now) Part.Table (option_map vec_items t.1.0.0)) }
    ensures cores { IfOk result (λ t. IsNamed (F.seen files.old).folder (map string_bytes words.now) Part.Cores (option_map vec_items t.1.0.1)) }
    ensures plan { IfOk result (λ t. IsNamed (F.seen files.old).folder (map string_bytes words.now) Part.Plan (option_map vec_items t.1.1)) }
    ensures stop { IfErr result (IsStopOfFile (F.seen files.old) (F.seen files.new) (map string_bytes words.now)) }
    ensures failed { IfOk result (λ _. (F.seen files.new).failed ≡ (F.seen files.old).failed) }
    ensures kept { (F.seen files.new).folder ≡ (F.seen files.old).folder }
{
    let inputs = read_inputs(alloc, files, words)?;
    let plans = read_plans(alloc, files, words)?;
    Ok((inputs, plans))
}

/// Reads all files that the words name.
#[tactic(auto, using(crate::proofs::Named::named_all, crate::proofs::Named::few_all))]
pub(crate) fn read_texts<F: Files>(
    alloc: Global,
    files: &mut F,
    words: &[String],
) -> Result<Texts, Stop>
    ensures texts { IfOk result (AreNamed (F.seen files.old).folder (map string_bytes words.now)) }
    ensures few { IfOk result AreFew }
    ensures stop { IfErr result (IsStopOfFile (F.seen files.old) (F.seen files.new) (map string_bytes words.now)) }
    ensures failed { IfOk result (λ _. (F.seen files.new).failed ≡ (F.seen files.old).failed) }
    ensures kept { (F.seen files.new).folder ≡ (F.seen files.old).folder }
{
    let (inputs, plans) = read_files(alloc, files, words)?;
    let node = main_named(alloc, words)?;
    let ((program, bodies), (sensors, schedule)) = inputs;
    let ((table, cores), plan) = plans;
    Ok(Texts {
        program,
        bodies,
        sensors,
        schedule,
        table,
        cores,
        plan,
        node,
    })
}
