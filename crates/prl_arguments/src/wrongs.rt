//! What is wrong first in the words of a command line.

ghost use Rattle.std.specs.Prelude.{◌≡◌, is_some, map};
ghost use Rattle.std.specs.Option.{option_map};
ghost use Rattle.std.specs.String.{string_bytes};
ghost use Rattle.prl_arguments.specs.Arguments.{clock_of, is_in, number_spelled, range_of};
ghost use Rattle.prl_arguments.specs.code.Settings.{bytes_of, named_as};
ghost use Rattle.prl_arguments.specs.Wrong.{NoValue, is_named, is_right, is_spelled, missing, named_sight, own_sight, seen, shown, sight_of, step_of, value_fault, walked, wrong_after, wrong_of};

use crate::arguments::{
    MAX_SIZE, MAX_UNTIL, MAX_WORKERS, Mode, Named, Setting, has, is_value, mode_named, named_by,
    needed, option_named,
};
use prl_base::decimal_of;

/// What is wrong in words that are no command.
#[derive(Clone, Copy)]
pub enum Wrong<'a> {
    /// There is no word.
    NoMode,
    /// The first word is no mode.
    NoSuchMode(&'a [u8]),
    /// An option has to stand there, and the word is none.
    NoOption(&'a [u8]),
    /// The mode has not the option.
    NotTaken(Setting),
    /// A later word is the same option.
    Again(Setting),
    /// The option has no value.
    NoValue(Setting),
    /// The option may not have this value.
    BadValue(Setting, &'a [u8]),
    /// The mode needs the option.
    Missing(Setting),
}

/// What a word is, where an option has to stand.
#[derive(Clone, Copy)]
pub enum Look<'a> {
    /// Something is wrong there.
    Faulty(Wrong<'a>),
    /// An option with its value.
    Done,
    /// An option that wants a value.
    Wants(Setting),
}

/// Whether a text spells a number of 1 to 20 digits.
fn is_number(value: &[u8]) -> bool
    ensures { result ≡ is_some (number_spelled value.now) }
{
    match decimal_of(value) {
        None => false,
        Some(_) => value.len() <= 20,
    }
}

/// Whether a text is `gated` or `free`.
fn is_clock(value: &[u8]) -> bool
    ensures { result ≡ is_some (clock_of (Some value.now)) }
{
    value == b"gated".as_slice() || value == b"free".as_slice()
}

/// Whether the value is a number, or `gated` or `free`, where the option wants one.
fn is_spelled(setting: Setting, value: &[u8]) -> bool
    ensures { result ≡ is_spelled setting value.now }
{
    match setting {
        Setting::Until | Setting::Workers | Setting::Seed | Setting::Size => is_number(value),
        Setting::Clock => is_clock(value),
        _ => true,
    }
}

/// The least and the greatest number that an option may give, where it has a range.
fn range_of(setting: Setting) -> Option<(u64, u64)>
    ensures { result ≡ range_of setting }
{
    match setting {
        Setting::Until => Some((0, u64::from(MAX_UNTIL))),
        Setting::Workers => Some((1, u64::from(MAX_WORKERS))),
        Setting::Size => Some((1, u64::from(MAX_SIZE))),
        _ => None,
    }
}

/// Whether a text is a number of the range, where there is one.
fn is_in(range: Option<(u64, u64)>, text: &[u8]) -> bool
    ensures { result ≡ is_in range text.now }
{
    match range {
        None => true,
        Some((least, most)) => match decimal_of(text) {
            None => false,
            Some(number) => least <= number && number <= most,
        },
    }
}

/// Whether the option may have the value.
fn is_right(setting: Setting, value: &[u8]) -> bool
    ensures { result ≡ is_right setting value.now }
{
    is_spelled(setting, value) && is_in(range_of(setting), value)
}

/// What is wrong with the value of an option.
fn value_fault(setting: Setting, value: &[u8]) -> Option<Wrong<'_>>
    ensures { option_map shown result ≡ value_fault setting value.now }
{
    if !is_value(value) {
        return Some(Wrong::NoValue(setting));
    }
    if is_right(setting, value) {
        None
    } else {
        Some(Wrong::BadValue(setting, value))
    }
}

/// Whether one of the words is the option.
fn is_named(setting: Setting, words: &[String]) -> bool
    ensures { result ≡ is_named setting (map string_bytes words.now) }
{
    match words {
        [] => false,
        [word, rest @ ..] => {
            named_by(setting, word.as_bytes()).is_some() || is_named(setting, rest)
        }
    }
}

/// What an option is, by the value that stands in its own word.
fn own_sight(setting: Setting, own: Option<&[u8]>) -> Look<'_>
    ensures { seen result ≡ own_sight setting (bytes_of own.entry) }
{
    match own {
        None => Look::Wants(setting),
        Some(value) => match value_fault(setting, value) {
            None => Look::Done,
            Some(wrong) => Look::Faulty(wrong),
        },
    }
}

/// What a word is that names an option, or none.
fn named_sight<'a>(
    mode: Mode,
    word: &'a [u8],
    later: &[String],
    named: Option<Named<'a>>,
) -> Look<'a>
    ensures { seen result ≡ named_sight mode word.now (map string_bytes later.now) (option_map named_as named.entry) }
{
    let Some((setting, own)) = named else {
        return Look::Faulty(Wrong::NoOption(word));
    };
    if !has(mode, setting) {
        return Look::Faulty(Wrong::NotTaken(setting));
    }
    if is_named(setting, later) {
        return Look::Faulty(Wrong::Again(setting));
    }
    own_sight(setting, own)
}

/// What a word is, where an option has to stand and these words come later.
fn sight_of<'a>(mode: Mode, word: &'a [u8], later: &[String]) -> Look<'a>
    ensures { seen result ≡ sight_of mode word.now (map string_bytes later.now) }
{
    named_sight(mode, word, later, option_named(word))
}

/// What a word is, where this option wants a value, or where an option has to stand, and these words come later.
fn step_of<'a>(mode: Mode, wants: Option<Setting>, word: &'a [u8], later: &[String]) -> Look<'a>
    ensures { seen result ≡ step_of mode wants word.now (map string_bytes later.now) }
{
    match wants {
        Some(setting) => own_sight(setting, Some(word)),
        None => sight_of(mode, word, later),
    }
}

/// What is wrong where no words are left and this option wants a value.
fn left_without<'a>(wants: Option<Setting>) -> Option<Wrong<'a>>
    ensures { option_map shown result ≡ option_map NoValue wants }
{
    match wants {
        None => None,
        Some(setting) => Some(Wrong::NoValue(setting)),
    }
}

/// What is wrong first in the words after a mode, where this option wants a value.
fn walked<'a>(mode: Mode, wants: Option<Setting>, words: &'a [String]) -> Option<Wrong<'a>>
    ensures { option_map shown result ≡ walked mode wants (map string_bytes words.now) }
{
    match words {
        [] => left_without(wants),
        [word, later @ ..] => match step_of(mode, wants, word.as_bytes(), later) {
            Look::Faulty(wrong) => Some(wrong),
            Look::Done => walked(mode, None, later),
            Look::Wants(setting) => walked(mode, Some(setting), later),
        },
    }
}

/// The first of these options that no word is.
fn missing<'a>(settings: &[Setting], words: &[String]) -> Option<Wrong<'a>>
    ensures { option_map shown result ≡ missing settings.now (map string_bytes words.now) }
{
    match settings {
        [] => None,
        [first, rest @ ..] => {
            if is_named(*first, words) {
                missing(rest, words)
            } else {
                Some(Wrong::Missing(*first))
            }
        }
    }
}

/// What is wrong first in the words after this one, which names a mode, or none.
fn wrong_after<'a>(mode: Option<Mode>, word: &'a [u8], rest: &'a [String]) -> Option<Wrong<'a>>
    ensures { option_map shown result ≡ wrong_after mode word.now (map string_bytes rest.now) }
{
    let Some(mode) = mode else {
        return Some(Wrong::NoSuchMode(word));
    };
    match walked(mode, None, rest) {
        Some(wrong) => Some(wrong),
        None => missing(needed(mode), rest),
    }
}

/// What is wrong first in the words of a command line, of which the program's own name is none.
pub(crate) fn wrong_of(words: &[String]) -> Option<Wrong<'_>>
    ensures { option_map shown result ≡ wrong_of (map string_bytes words.now) }
{
    match words {
        [] => Some(Wrong::NoMode),
        [word, rest @ ..] => wrong_after(mode_named(word.as_bytes()), word.as_bytes(), rest),
    }
}
