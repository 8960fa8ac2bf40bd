//! The options of the words.

ghost use Rattle.std.specs.Prelude.{◌≡◌, ◌≤◌, ◌++◌, ◌∷◌, [], IfNone, IfOk, IfSome, OnOk, Some, codes, cond, false, map};
ghost use Rattle.std.specs.String.{string_bytes};
ghost use Rattle.prl_base.specs.Decimals.{decimal_of};
ghost use Rattle.prl_times.specs.Options.{are_apart, asks_json, file_of, has, has_value, is_command, is_for_ever, is_json, other_words, with_values};
ghost use Rattle.prl_times.specs.Refused.{IsNoNumberUpTo};

use prl_base::decimal_of;
use prl_io::{are_pairs, value_of};
use std::alloc::{AllocError, Global};

/// The form of the words.
pub(crate) const FORM: &str =
    "prelude_times --plan FILE [--sensor NAME] [--actuator NAME] [--until TICK or --for-ever] [--limit AGE] [--json], \
    or --plan FILE --chain NAME,NAME,.. [--limit AGE] [--json], \
    or --plan FILE --skew NAME,NAME --actuator NAME [--limit AGE] [--json], or --help";

/// What the options mean.
pub(crate) const HELP: &str = "prelude_times --plan FILE [OPTION VALUE ..] [--json]\n\
    Tells how old the values of sensors are where the actuators of a plan use them, over all jobs,\n\
    in ticks: the worst age, from the release of the sensor's job to the deadline of the actuator's;\n\
    the worst reaction to a change at the sensor; the worst age once all has settled; the best age.\n\n\
    --plan FILE      the text of the plan, as `prelude plan` writes it\n\
    --sensor NAME    this sensor alone\n\
    --actuator NAME  this actuator alone\n\
    --until TICK     and how soon the jobs before TICK end by earliest deadline first: by task the\n\
    \x20                worst response and the least slack, or an overload\n\
    --for-ever       and whether one processor has the time for all jobs: by task the worst response\n\
    \x20                and the least slack, or what an overload or a load that is too much is made of\n\
    --chain NAMES    the age of the first task's values at the last, along these tasks, as a,b,c\n\
    --skew A,B       how far apart in time the values of two sensors are in one job of --actuator\n\
    --limit AGE      status 1 where an age, or a skew, is above AGE, with those that are\n\
    --json           as JSON; it stands where an option may\n\
    --help           this text\n";

/// Whether a word asks for JSON.
fn is_json(word: &String) -> bool
    ensures { result ≡ is_json (string_bytes word.now) }
{
    word.as_bytes() == b"--json".as_slice()
}

/// Whether a word asks for what holds for ever.
fn is_for_ever(word: &String) -> bool
    ensures { result ≡ is_for_ever (string_bytes word.now) }
{
    word.as_bytes() == b"--for-ever".as_slice()
}

/// Whether a word that stands where an option may is followed by a value.
fn has_value(word: &String) -> bool
    ensures { result ≡ has_value (string_bytes word.now) }
{
    !(is_json(word) || is_for_ever(word))
}

/// Whether the words ask for JSON, where an option may stand.
pub(crate) fn asks_json(words: &[String]) -> bool
    ensures { result ≡ asks_json (map string_bytes words.now) }
{
    match words {
        [] => false,
        [word] => is_json(word),
        [word, _, rest @ ..] => is_json(word) || asks_json(rest),
    }
}

/// Appends a copy of a word.
fn push_word(words: &mut Vec<String>, alloc: Global, word: &String) -> Result<(), AllocError>
    ensures { OnOk result (map string_bytes words.new.items ≡ map string_bytes words.old.items ++ string_bytes word.now ∷ []) }
{
    words.push(String::from_str(alloc, word.as_str())?)?;
    Ok(())
}

/// Appends copies of some words.
fn push_words(words: &mut Vec<String>, alloc: Global, more: &[String]) -> Result<(), AllocError>
    ensures { OnOk result (map string_bytes words.new.items ≡ map string_bytes words.old.items ++ map string_bytes more.now) }
{
    match more {
        [] => Ok(()),
        [word, rest @ ..] => {
            push_word(words, alloc, word)?;
            push_words(words, alloc, rest)
        }
    }
}

/// Appends the value of a word that asks for ever.
fn push_yes(words: &mut Vec<String>, alloc: Global) -> Result<(), AllocError>
    ensures { OnOk result (map string_bytes words.new.items ≡ map string_bytes words.old.items ++ codes "yes" ∷ []) }
{
    words.push(String::from_str(alloc, "yes")?)?;
    Ok(())
}

/// Appends a copy of a word, and a value behind it if it asks for ever.
fn push_valued(
    valued: &mut Vec<String>,
    alloc: Global,
    word: &String,
    asks: bool,
) -> Result<(), AllocError>
    ensures { OnOk result (map string_bytes valued.new.items ≡ map string_bytes valued.old.items ++ cond asks (string_bytes word.now ∷ codes "yes" ∷ []) (string_bytes word.now ∷ [])) }
{
    push_word(valued, alloc, word)?;
    if asks {
        push_yes(valued, alloc)?;
    }
    Ok(())
}

/// Appends copies of some words, with a value behind each that asks for ever where an option may stand. The first of them is a value, or it
/// is not.
fn push_values(
    valued: &mut Vec<String>,
    alloc: Global,
    value: bool,
    words: &[String],
) -> Result<(), AllocError>
    ensures { OnOk result (map string_bytes valued.new.items ≡ map string_bytes valued.old.items ++ with_values value (map string_bytes words.now)) }
{
    match words {
        [] => Ok(()),
        [word, rest @ ..] => {
            push_valued(valued, alloc, word, !value && is_for_ever(word))?;
            push_values(valued, alloc, !value && has_value(word), rest)
        }
    }
}

/// The words with a value behind each that asks for ever.
pub(crate) fn with_values(alloc: Global, words: &[String]) -> Result<Vec<String>, AllocError>
    ensures { IfOk result (λ valued. map string_bytes valued.items ≡ with_values false (map string_bytes words.now)) }
{
    let mut valued = Vec::new(alloc);
    push_values(&mut valued, alloc, false, words)?;
    Ok(valued)
}

/// Appends copies of some words without the first that asks for JSON.
fn push_others(others: &mut Vec<String>, alloc: Global, words: &[String]) -> Result<(), AllocError>
    ensures { OnOk result (map string_bytes others.new.items ≡ map string_bytes others.old.items ++ other_words (map string_bytes words.now)) }
{
    match words {
        [] => Ok(()),
        [word] => {
            if is_json(word) {
                return Ok(());
            }
            push_word(others, alloc, word)
        }
        [word, value, rest @ ..] => {
            if is_json(word) {
                push_word(others, alloc, value)?;
                return push_words(others, alloc, rest);
            }
            push_word(others, alloc, word)?;
            push_word(others, alloc, value)?;
            push_others(others, alloc, rest)
        }
    }
}

/// The words without the first that asks for JSON.
pub(crate) fn other_words(alloc: Global, words: &[String]) -> Result<Vec<String>, AllocError>
    ensures { IfOk result (λ others. map string_bytes others.items ≡ other_words (map string_bytes words.now)) }
{
    let mut others = Vec::new(alloc);
    push_others(&mut others, alloc, words)?;
    Ok(others)
}

/// Whether the words have an option.
pub(crate) fn has(option: &[u8], words: &[String]) -> bool
    ensures { result ≡ has option.now (map string_bytes words.now) }
{
    value_of(option, words).is_some()
}

/// The name of the plan's file; no bytes where the words name none.
pub(crate) fn file_of(words: &[String]) -> &[u8]
    ensures { result.now ≡ file_of (map string_bytes words.now) }
{
    match value_of(b"--plan", words) {
        Some(name) => name,
        None => b"",
    }
}

/// Whether the words ask for one thing: for a chain or a skew alone, or for neither, and for one run.
fn are_apart(words: &[String]) -> bool
    ensures { result ≡ are_apart (map string_bytes words.now) }
{
    let chain = has(b"--chain", words);
    let skew = has(b"--skew", words);
    let sensor = has(b"--sensor", words);
    let actuator = has(b"--actuator", words);
    let until = has(b"--until", words);
    let ever = has(b"--for-ever", words);
    !(chain && (skew || sensor || actuator || until))
        && !(skew && (sensor || until))
        && !(ever && (chain || skew || until))
}

/// Whether the words ask for something of a plan.
pub(crate) fn is_command(words: &[String]) -> bool
    ensures { result ≡ is_command (map string_bytes words.now) }
{
    let options: [&[u8]; 8] = [
        b"--plan",
        b"--sensor",
        b"--actuator",
        b"--until",
        b"--chain",
        b"--skew",
        b"--limit",
        b"--for-ever",
    ];
    are_pairs(&options, words) && are_apart(words) && has(b"--plan", words)
}

/// The number that a word writes, where it is at most this one.
pub(crate) fn number_in(word: &[u8], most: u64) -> Option<u64>
    ensures some { IfSome result (λ n. (n ≤ most) × (decimal_of word.now ≡ Some n)) }
    ensures none { IfNone result (IsNoNumberUpTo most word.now) }
{
    let number = decimal_of(word)?;
    if number <= most { Some(number) } else { None }
}
