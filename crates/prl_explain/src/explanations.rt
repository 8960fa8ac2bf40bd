//! The explanation of a line: the line, the place of its fault, the line of the source with a mark, what is wrong there, and what
//! more the named files tell.

ghost use Rattle.std.specs.Prelude.{◌≡◌, ◌++◌, ◌≤◌, ◌<◌, ◌^◌, Some, drop, map, IfOk, IfErr, IfSome, OnOk, length};
ghost use Rattle.std.specs.Option.{option_map};
ghost use Rattle.std.specs.Bool.{OnFalse, OnTrue};
ghost use Rattle.std.specs.String.{string_bytes};
ghost use Rattle.prl_sentences.specs.Kinds.{IsLineOf};
ghost use Rattle.prl_sentences.specs.Sentences.{sentence_text};
ghost use Rattle.prl_explain.specs.Explanations.{Answers, asks_help, IsAnswer, IsByFile, IsByNamed, IsByPart, IsFront, IsOfKind, IsStop, IsTextAt, help_text, marked, marked_line, needs_files, part_of, place_text, shown_text};
ghost use Rattle.prl_shown.specs.Shown.{shown};
ghost use Rattle.prl_explain.specs.Texts.{AreFew, AreNamed, IsStopOfFile};

use crate::texts::{Texts, no_texts, option_of, read_texts, text_in};
use crate::told::detail_of;
use prl_arguments::{before_dashes, from_dashes};
use prl_base::push_number;
use prl_hints::hint_told;
use prl_io::{Files, Sink, Stop, after_name, are_pairs, finish, value_of};
use prl_sentences::{Detail, Kind, Part, Target, argument_of, line_kind, push_sentence, rest_of};
use prl_shown::{push_shown, shown};
use prl_spots::{line_front, line_rest, place_of, push_lead, spot_of};
use std::alloc::{AllocError, Global};

/// The form of the words.
const FORM: &str = "prelude_explain [--program FILE] [--bodies FILE] [--sensors FILE] \
    [--schedule FILE] [--table FILE] [--cores FILE] [--plan FILE] [--node NAME] [-- WORD ..], or --help";

/// The version of the program.
pub const VERSION: &str = "0.1.0";

/// What the options mean.
pub const HELP: &str = "prelude_explain [OPTION VALUE ..] [-- WORD ..] < LINE\n\
    Explains a line that `prelude` wrote on `err`: where it is, what is wrong, what would mend it.\n\n\
    --program FILE   the program\n\
    --bodies FILE    the bodies of its imported nodes\n\
    --sensors FILE   the rows of its sensors\n\
    --schedule FILE  the schedule\n\
    --table FILE     the static cyclic table\n\
    --cores FILE     the text of processors\n\
    --plan FILE      the text of the plan; where none is named, the plan is the program's\n\
    --node NAME      the main node; where none is named, the last one\n\
    --help           this text\n\
    -- WORD ..       the words after `prelude` of the command that was refused\n\n\
    Name the files that the command had: the more there are, the more is told. Of `usage` is told\n\
    which word is wrong, where the words are given.\n\n\
    The modes of `prelude`, each option with one value, in any order; those in brackets may be left out:\n\n\
    print --program FILE\n\
    check --program FILE [--bodies FILE] [--node NAME]\n\
    plan --program FILE [--node NAME]\n\
    schedule --program FILE --until DATE [--node NAME]\n\
    edf --program FILE --until DATE [--node NAME]\n\
    table --program FILE [--node NAME]\n\
    flows --program FILE --sensors FILE --until DATE [--bodies FILE] [--node NAME]\n\
    replay --program FILE --sensors FILE --schedule FILE --until DATE [--bodies \
    FILE] [--node NAME]\n\
    run --program FILE --sensors FILE --until DATE [--bodies FILE] [--node NAME] \
    [--workers COUNT] [--clock gated|free]\n\
    cycle --program FILE --sensors FILE --table FILE --until DATE [--bodies FILE] \
    [--node NAME]\n\
    cores --program FILE --sensors FILE --cores FILE --until DATE [--bodies FILE] \
    [--schedule FILE] [--node NAME]\n\
    generate --seed NUMBER --size LANES\n";

/// Why there is no explanation.
const NO_LINE: &str = "standard input is not one line of prelude";

/// The options of the words.
static OPTIONS: [&[u8]; 8] = [
    b"--program",
    b"--bodies",
    b"--sensors",
    b"--schedule",
    b"--table",
    b"--cores",
    b"--plan",
    b"--node",
];

/// Whether the words ask for what the options mean.
fn asks_help(words: &[String]) -> bool
    ensures { result ≡ asks_help (map string_bytes words.now) }
{
    match words {
        [word] => word.as_bytes() == b"--help".as_slice(),
        _ => false,
    }
}

/// The file in which a place is told.
fn part_of(target: Target) -> Option<Part>
    ensures { result ≡ part_of target }
{
    match target {
        Target::Nowhere => None,
        Target::Byte(part) => Some(part),
        Target::Line(part) => Some(part),
        Target::Word | Target::Task | Target::Flow | Target::Variable => Some(Part::Program),
    }
}

/// Appends the place of a byte of a file: the file's name, the line and the column.
fn push_place(text: &mut Vec<u8>, name: &[u8], source: &[u8], at: usize) -> Result<(), AllocError>
    requires { at ≤ length source.now }
    ensures { OnOk result (text.new.items ≡ text.old.items ++ place_text name.now source.now at) }
{
    let place = place_of(source, at);
    text.extend_from_slice(name)?;
    text.push(b':')?;
    push_number(text, place.line)?;
    text.push(b':')?;
    push_number(text, place.column)?;
    text.push(b'\n')?;
    Ok(())
}

/// Appends a line, which begins so and goes on so, and below it a mark under what goes on.
fn push_marked_line(text: &mut Vec<u8>, front: &[u8], rest: &[u8]) -> Result<(), AllocError>
    ensures { OnOk result (text.new.items ≡ text.old.items ++ marked_line front.now rest.now) }
{
    text.extend_from_slice(front)?;
    push_shown(text, true, rest)?;
    text.push(b'\n')?;
    push_lead(text, front)?;
    text.extend_from_slice(b"^\n")
}

/// Appends the line in which a byte of a file stands, and below it a mark under the byte.
fn push_marked(
    alloc: Global,
    text: &mut Vec<u8>,
    source: &[u8],
    at: usize,
) -> Result<(), AllocError>
    requires { at ≤ length source.now }
    ensures { OnOk result (text.new.items ≡ text.old.items ++ marked source.now at) }
{
    let front = shown(alloc, true, line_front(source, at))?;
    push_marked_line(text, &front, line_rest(source, at))
}

/// The explanation with the place of a byte of a file.
fn with_place(
    alloc: Global,
    kind: &Kind,
    line: &[u8],
    name: &[u8],
    source: &[u8],
    at: usize,
) -> Result<Vec<u8>, AllocError>
    requires { at ≤ length source.now }
    ensures { IfOk result (λ text. text.items ≡ shown_text kind.now line.now name.now source.now at) }
{
    let mut text = Vec::from_slice(alloc, line)?;
    push_place(&mut text, name, source, at)?;
    push_marked(alloc, &mut text, source, at)?;
    push_sentence(&mut text, kind, line)?;
    Ok(text)
}

/// The explanation with the place of a byte of a file, and a hint at what stands there, where one may be given.
#[tactic(auto, using(crate::proofs::Sayings::hinted_is))]
fn with_hint(
    alloc: Global,
    kind: &Kind,
    line: &[u8],
    name: &[u8],
    source: &[u8],
    at: usize,
) -> Result<Vec<u8>, AllocError>
    requires { at ≤ length source.now }
    ensures { IfOk result (λ text. IsTextAt kind.now line.now name.now source.now (Some at) text.items) }
{
    let mut text = with_place(alloc, kind, line, name, source, at)?;
    let hint = hint_told(alloc, kind.front, source, at)?;
    text.extend_from_slice(&hint)?;
    Ok(text)
}

/// The explanation without a place.
fn without_place(alloc: Global, kind: &Kind, line: &[u8]) -> Result<Vec<u8>, AllocError>
    ensures { IfOk result (λ text. text.items ≡ line.now ++ sentence_text kind.now line.now) }
{
    let mut text = Vec::from_slice(alloc, line)?;
    push_sentence(&mut text, kind, line)?;
    Ok(text)
}

/// The explanation of a line of a kind by a file.
fn by_file(
    alloc: Global,
    kind: &Kind,
    line: &[u8],
    name: &[u8],
    source: &[u8],
) -> Result<Vec<u8>, AllocError>
    requires { length source.now < 2 ^ 32 }
    ensures { IfOk result (λ text. IsByFile kind.now line.now name.now source.now text.items) }
{
    match spot_of(alloc, source, kind.target, argument_of(kind, line))? {
        None => without_place(alloc, kind, line),
        Some(at) => with_hint(alloc, kind, line, name, source, at),
    }
}

/// The line with its place, where the file in which it tells one is there, and its sentence.
fn by_named(
    alloc: Global,
    kind: &Kind,
    line: &[u8],
    name: Option<&[u8]>,
    source: Option<&[u8]>,
) -> Result<Vec<u8>, AllocError>
    requires { IfSome source (λ bytes. length bytes.now < 2 ^ 32) }
    ensures { IfOk result (λ text. IsByNamed kind.now line.now (option_map (λ bytes. bytes.now) name.entry)
        (option_map (λ bytes. bytes.now) source.entry) text.items) }
{
    let Some(name) = name else {
        return without_place(alloc, kind, line);
    };
    match source {
        None => without_place(alloc, kind, line),
        Some(source) => by_file(alloc, kind, line, name, source),
    }
}

/// The line with its place, where the words name the file in which it tells one, and its sentence.
#[tactic(auto, using(crate::proofs::Named::below))]
fn by_part(
    alloc: Global,
    words: &[String],
    texts: &Texts,
    kind: &Kind,
    line: &[u8],
    part: Part,
) -> Result<Vec<u8>, AllocError>
    requires { AreFew texts.now }
    ensures { IfOk result (λ text. IsByPart kind.now line.now (map string_bytes words.now) texts.now (Some part) text.items) }
{
    let name = value_of(option_of(part), words);
    by_named(alloc, kind, line, name, text_in(texts, part))
}

/// The line with its place and its sentence.
fn front_of(
    alloc: Global,
    words: &[String],
    texts: &Texts,
    kind: &Kind,
    line: &[u8],
) -> Result<Vec<u8>, AllocError>
    requires { AreFew texts.now }
    ensures { IfOk result (λ text. IsFront kind.now line.now (map string_bytes words.now) texts.now text.items) }
{
    match part_of(kind.target) {
        None => without_place(alloc, kind, line),
        Some(part) => by_part(alloc, words, texts, kind, line, part),
    }
}

/// The explanation of a line of a kind.
#[tactic(auto, using(crate::proofs::Sayings::of_kind_is))]
fn of_kind(
    alloc: Global,
    words: &[String],
    command: Option<&[String]>,
    texts: &Texts,
    kind: &Kind,
    line: &[u8],
) -> Result<Vec<u8>, AllocError>
    requires { AreFew texts.now }
    ensures { IfOk result (λ text. IsOfKind (map string_bytes words.now) (option_map (λ rest. map string_bytes rest.now) command.entry) texts.now kind.now line.now text.items) }
{
    let mut text = front_of(alloc, words, texts, kind, line)?;
    let detail = detail_of(alloc, texts, command, kind.detail, rest_of(kind, line))?;
    text.extend_from_slice(&detail)?;
    Ok(text)
}

/// Whether files are needed for what is told of a line of a kind: it tells a place, or something beside that is not of the
/// command's words.
fn needs_files(kind: &Kind) -> bool
    ensures { result ≡ needs_files kind.now.target kind.now.detail }
{
    match (kind.target, kind.detail) {
        (Target::Nowhere, Detail::Nothing) | (Target::Nowhere, Detail::Words) => false,
        _ => true,
    }
}

/// Reads the files that the words name, where they are needed.
fn needed_texts<F: Files>(
    alloc: Global,
    files: &mut F,
    words: &[String],
    kind: &Kind,
) -> Result<Texts, Stop>
    ensures texts { IfOk result (λ texts. OnTrue (needs_files kind.now.target kind.now.detail) (AreNamed (F.seen files.old).folder (map string_bytes words.now) texts)) }
    ensures few { IfOk result AreFew }
    ensures stop { IfErr result (IsStopOfFile (F.seen files.old) (F.seen files.new) (map string_bytes words.now)) }
    ensures failed { IfOk result (λ _. (F.seen files.new).failed ≡ (F.seen files.old).failed) }
    ensures kept { (F.seen files.new).folder ≡ (F.seen files.old).folder }
{
    if needs_files(kind) {
        read_texts(alloc, files, words)
    } else {
        Ok(no_texts())
    }
}

/// The explanation of a line of a kind, by the files that the words name.
#[tactic(auto, using(crate::proofs::Sayings::explained))]
fn by_words<F: Files>(
    alloc: Global,
    words: &[String],
    command: Option<&[String]>,
    kind: &Kind,
    line: &[u8],
    files: &mut F,
) -> Result<Vec<u8>, Stop>
    requires { IsLineOf kind.now line.now }
    ensures text { IfOk result (λ text. IsAnswer (F.seen files.old).folder (map string_bytes words.now) (option_map (λ rest. map string_bytes rest.now) command.entry) line.now text.items) }
    ensures stop { IfErr result (IsStopOfFile (F.seen files.old) (F.seen files.new) (map string_bytes words.now)) }
    ensures kept { (F.seen files.new).folder ≡ (F.seen files.old).folder }
{
    let texts = needed_texts(alloc, files, words, kind)?;
    let text = of_kind(alloc, words, command, &texts, kind, line)?;
    Ok(shown(alloc, true, &text)?)
}

/// What the options mean, behind the program's name and version.
#[tactic(auto, unfolding(crate::specs::Explanations::help_text))]
fn help(alloc: Global) -> Result<Vec<u8>, AllocError>
    ensures { IfOk result (λ text. text.items ≡ help_text) }
{
    let mut text = Vec::from_slice(alloc, b"prelude_explain ")?;
    text.extend_from_slice(VERSION.as_bytes())?;
    text.push(b'\n')?;
    text.extend_from_slice(HELP.as_bytes())?;
    Ok(text)
}

/// The explanation of a line, by the files that the words name and by those of the command that was refused; what the options
/// mean, where there are no words and the text is no line.
#[tactic(auto, using(crate::proofs::Sayings::helped))]
fn explanation<F: Files>(
    alloc: Global,
    words: &[String],
    command: Option<&[String]>,
    line: &[u8],
    files: &mut F,
) -> Result<Vec<u8>, Stop>
    ensures text { IfOk result (λ text. IsAnswer (F.seen files.old).folder (map string_bytes words.now) (option_map (λ rest. map string_bytes rest.now) command.entry) line.now text.items) }
    ensures stop { IfErr result (IsStop (F.seen files.old) (F.seen files.new) (map string_bytes words.now)) }
    ensures kept { (F.seen files.new).folder ≡ (F.seen files.old).folder }
{
    if !are_pairs(&OPTIONS, words) {
        return Err(Stop::Words(FORM));
    }
    match (line_kind(line), words) {
        (Some(kind), _) => by_words(alloc, words, command, &kind, line, files),
        (None, []) => Ok(help(alloc)?),
        (None, _) => Err(Stop::Refused(NO_LINE)),
    }
}

/// What the words ask for: what the options mean, or the explanation of a line by these words before `--` and the command behind
/// it.
fn answer<F: Files>(
    alloc: Global,
    words: &[String],
    own: &[String],
    command: Option<&[String]>,
    line: &[u8],
    files: &mut F,
) -> Result<Vec<u8>, Stop>
    ensures text { OnFalse (asks_help (map string_bytes words.now))
        (IfOk result (λ text. IsAnswer (F.seen files.old).folder (map string_bytes own.now) (option_map (λ rest. map string_bytes rest.now) command.entry) line.now text.items)) }
    ensures stop { IfErr result (IsStop (F.seen files.old) (F.seen files.new) (map string_bytes own.now)) }
{
    if asks_help(words) {
        return Ok(help(alloc)?);
    }
    explanation(alloc, own, command, line, files)
}

/// Explains a line that `prelude` wrote on `err`: the explanation goes to `out`, and at every status but 0 one line goes to
/// `err`. The first word is the program's own name, which is passed over; behind `--` stand the words of the command that was
/// refused. Where `--help` is the only other word, `out` gets what the options mean; so too where there is no other word and the
/// text is no line of `prelude`.
pub fn explain<F: Files, S: Sink, E: Sink>(
    alloc: Global,
    words: &[String],
    line: &[u8],
    files: &mut F,
    out: &mut S,
    err: &mut E,
) -> u8
    ensures { Answers (drop 1 (map string_bytes words.now)) line.now
        (F.seen files.old) (F.seen files.new) (S.seen out.old) (S.seen out.new)
        (E.seen err.old) (E.seen err.new) result }
{
    let words = after_name(words);
    let own = before_dashes(words);
    let command = from_dashes(words);
    let outcome = answer(alloc, words, own, command, line, files);
    finish(out, err, &outcome)
}
