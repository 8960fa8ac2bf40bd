//! The options of the words.

ghost use Rattle.std.specs.Prelude.{◌≡◌, ◌++◌, ◌∷◌, [], IfOk, OnOk, map};
ghost use Rattle.std.specs.String.{string_bytes};
ghost use Rattle.prl_frame.specs.Options.{asks_json, file_of, has, is_command, is_json, other_words};

use prl_io::{are_pairs, value_of};
use std::alloc::{AllocError, Global};

/// The form of the words.
pub(crate) const FORM: &str = "prelude_frame --plan FILE --table FILE [--json], or --help";

/// What the options mean.
pub(crate) const HELP: &str = "prelude_frame --plan FILE --table FILE [--json]\n\
    Tells the frame of a static cyclic table: what a target runs in each hyperperiod, tick by tick,\n\
    with the job of each slot, the hyperperiod from which it holds, and the idle times.\n\n\
    --plan FILE   the text of the plan, as `prelude plan` writes it\n\
    --table FILE  the table, as `prelude table` writes it\n\
    --json        as JSON; it stands where an option may\n\
    --help        this text\n";

/// Whether a word asks for JSON.
fn is_json(word: &String) -> bool
    ensures { result ≡ is_json (string_bytes word.now) }
{
    word.as_bytes() == b"--json".as_slice()
}

/// Whether the words ask for JSON, where an option may stand.
pub(crate) fn asks_json(words: &[String]) -> bool
    ensures { result ≡ asks_json (map string_bytes words.now) }
{
    match words {
        [] => false,
        [word] => is_json(word),
        [word, _, rest @ ..] => is_json(word) || asks_json(rest),
    }
}

/// Appends a copy of a word.
fn push_word(words: &mut Vec<String>, alloc: Global, word: &String) -> Result<(), AllocError>
    ensures { OnOk result (map string_bytes words.new.items ≡ map string_bytes words.old.items ++ string_bytes word.now ∷ []) }
{
    words.push(String::from_str(alloc, word.as_str())?)?;
    Ok(())
}

/// Appends copies of some words.
fn push_words(words: &mut Vec<String>, alloc: Global, more: &[String]) -> Result<(), AllocError>
    ensures { OnOk result (map string_bytes words.new.items ≡ map string_bytes words.old.items ++ map string_bytes more.now) }
{
    match more {
        [] => Ok(()),
        [word, rest @ ..] => {
            push_word(words, alloc, word)?;
            push_words(words, alloc, rest)
        }
    }
}

/// Appends copies of some words without the first that asks for JSON.
fn push_others(others: &mut Vec<String>, alloc: Global, words: &[String]) -> Result<(), AllocError>
    ensures { OnOk result (map string_bytes others.new.items ≡ map string_bytes others.old.items ++ other_words (map string_bytes words.now)) }
{
    match words {
        [] => Ok(()),
        [word] => {
            if is_json(word) {
                return Ok(());
            }
            push_word(others, alloc, word)
        }
        [word, value, rest @ ..] => {
            if is_json(word) {
                push_word(others, alloc, value)?;
                return push_words(others, alloc, rest);
            }
            push_word(others, alloc, word)?;
            push_word(others, alloc, value)?;
            push_others(others, alloc, rest)
        }
    }
}

/// The words without the first that asks for JSON.
pub(crate) fn other_words(alloc: Global, words: &[String]) -> Result<Vec<String>, AllocError>
    ensures { IfOk result (λ others. map string_bytes others.items ≡ other_words (map string_bytes words.now)) }
{
    let mut others = Vec::new(alloc);
    push_others(&mut others, alloc, words)?;
    Ok(others)
}

/// Whether the words have an option.
fn has(option: &[u8], words: &[String]) -> bool
    ensures { result ≡ has option.now (map string_bytes words.now) }
{
    value_of(option, words).is_some()
}

/// The name of the file that an option has; no bytes where the words have it not.
pub(crate) fn file_of<'w>(option: &[u8], words: &'w [String]) -> &'w [u8]
    ensures { result.now ≡ file_of option.now (map string_bytes words.now) }
{
    match value_of(option, words) {
        Some(name) => name,
        None => b"",
    }
}

/// Whether the words ask for the frame of a table.
pub(crate) fn is_command(words: &[String]) -> bool
    ensures { result ≡ is_command (map string_bytes words.now) }
{
    let options: [&[u8]; 2] = [b"--plan", b"--table"];
    are_pairs(&options, words) && has(b"--plan", words) && has(b"--table", words)
}
