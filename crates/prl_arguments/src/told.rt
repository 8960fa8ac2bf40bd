//! Which word of a command line is wrong, in words.

ghost use Rattle.std.specs.Prelude.{◌≡◌, ◌++◌, IfOk, OnOk, drop, map};
ghost use Rattle.std.specs.List.{flat_map};
ghost use Rattle.std.specs.String.{string_bytes};
ghost use Rattle.prl_arguments.specs.Arguments.{name_of};
ghost use Rattle.prl_arguments.specs.Wrong.{shown, wrong_of};
ghost use Rattle.prl_arguments.specs.WrongTexts.{command_text, fault_text, fault_told, first_of, form_of, option_in, said, text_by, wanted_text, word_in, words_text};

use crate::arguments::{Setting, WordsFault, name_of, read_words};
use crate::wrongs::{Wrong, wrong_of};
use std::alloc::{AllocError, Global};

/// What is told of what is wrong, where `#` stands for the word of the mode, `*` for the wrong word, `@` for the name of the
/// option, and `~` for what the option wants.
fn form_of(wrong: &Wrong<'_>) -> &'static str
    ensures { result.now ≡ form_of (shown wrong.now) }
{
    match wrong {
        Wrong::NoMode => "No word stands after the program's name: a mode has to.\n",
        Wrong::NoSuchMode(_) => "The first wrong word is `*`: it is no mode.\n",
        Wrong::NoOption(_) => {
            "The first wrong word is `*`: an option has to stand there, and it is none.\n"
        }
        Wrong::NotTaken(_) => "The first wrong word is `--@`: it is no option of mode `#`.\n",
        Wrong::Again(_) => "The first wrong word is `--@`: it stands there twice.\n",
        Wrong::NoValue(_) => {
            "The first wrong word is `--@`: its value is not there, which is no empty word and \
                does not begin with `-`.\n"
        }
        Wrong::BadValue(_, _) => "The first wrong word is `*`: `--@` wants ~.\n",
        Wrong::Missing(_) => {
            "Each word is right, and one is missing: mode `#` needs `--@` too.\n"
        }
    }
}

/// The wrong word, where it is told.
fn word_in<'a>(wrong: &Wrong<'a>) -> &'a [u8]
    ensures { result.now ≡ word_in (shown wrong.now) }
{
    match wrong {
        Wrong::NoSuchMode(word) => word,
        Wrong::NoOption(word) => word,
        Wrong::BadValue(_, word) => word,
        _ => &[],
    }
}

/// The option, where one is told.
fn option_in(wrong: &Wrong<'_>) -> Option<Setting>
    ensures { result ≡ option_in (shown wrong.now) }
{
    match wrong {
        Wrong::NotTaken(setting) => Some(*setting),
        Wrong::Again(setting) => Some(*setting),
        Wrong::NoValue(setting) => Some(*setting),
        Wrong::BadValue(setting, _) => Some(*setting),
        Wrong::Missing(setting) => Some(*setting),
        _ => None,
    }
}

/// The name of the option, where one is told.
fn name_in(wrong: &Wrong<'_>) -> &'static str
    ensures { result.now ≡ text_by name_of (option_in (shown wrong.now)) }
{
    match option_in(wrong) {
        None => "",
        Some(setting) => name_of(setting),
    }
}

/// What an option wants.
fn wanted_text(setting: Setting) -> &'static str
    ensures { result.now ≡ wanted_text setting }
{
    match setting {
        Setting::Until => "a date from 0 to 2147483647",
        Setting::Workers => "a number from 1 to 16",
        Setting::Seed => "a number from 0 to 18446744073709551615",
        Setting::Size => "a number from 1 to 20",
        Setting::Clock => "`gated` or `free`",
        _ => "a word",
    }
}

/// What the option wants, where one is told.
fn wanted_in(wrong: &Wrong<'_>) -> &'static str
    ensures { result.now ≡ text_by wanted_text (option_in (shown wrong.now)) }
{
    match option_in(wrong) {
        None => "",
        Some(setting) => wanted_text(setting),
    }
}

/// Appends a byte of what is told, or what it stands for.
fn push_said(told: &mut Vec<u8>, mode: &[u8], wrong: &Wrong<'_>, byte: u8) -> Result<(), AllocError>
    ensures { OnOk result (told.new.items ≡ told.old.items ++ said mode.now (shown wrong.now) byte) }
{
    if byte == b'#' {
        told.extend_from_slice(mode)
    } else if byte == b'*' {
        told.extend_from_slice(word_in(wrong))
    } else if byte == b'@' {
        told.extend_from_slice(name_in(wrong).as_bytes())
    } else if byte == b'~' {
        told.extend_from_slice(wanted_in(wrong).as_bytes())
    } else {
        told.extend_from_slice(&[byte])
    }
}

/// Appends the bytes of what is told, and what some of them stand for.
fn push_form(
    told: &mut Vec<u8>,
    mode: &[u8],
    wrong: &Wrong<'_>,
    form: &[u8],
) -> Result<(), AllocError>
    ensures { OnOk result (told.new.items ≡ told.old.items ++ flat_map (said mode.now (shown wrong.now)) form.now) }
{
    for byte in form {
        push_said(told, mode, wrong, *byte)?;
    }
    Ok(())
}

/// Appends what is wrong, by the word of the mode.
fn push_wrong(told: &mut Vec<u8>, mode: &[u8], wrong: &Wrong<'_>) -> Result<(), AllocError>
    ensures { OnOk result (told.new.items ≡ told.old.items ++ fault_text mode.now (shown wrong.now)) }
{
    push_form(told, mode, wrong, form_of(wrong).as_bytes())
}

/// Appends that the words are a command.
#[tactic(auto, unfolding(crate::specs::WrongTexts::command_text))]
fn push_command(told: &mut Vec<u8>) -> Result<(), AllocError>
    ensures { OnOk result (told.new.items ≡ told.old.items ++ command_text) }
{
    told.extend_from_slice(
        b"These words are a command, which was not refused: give the words of the one that was.\n",
    )
}

/// The words after the first.
fn after_first(words: &[String]) -> &[String]
    ensures { map string_bytes result.now ≡ drop 1 (map string_bytes words.now) }
{
    match words {
        [] => words,
        [_, rest @ ..] => rest,
    }
}

/// The first of the words; no bytes where there is none.
fn first_of(words: &[String]) -> &[u8]
    ensures { result.now ≡ first_of (map string_bytes words.now) }
{
    match words {
        [] => &[],
        [word, ..] => word.as_bytes(),
    }
}

/// Appends what is wrong in the words of no command, of which the first is the mode.
fn push_refused(told: &mut Vec<u8>, words: &[String]) -> Result<(), AllocError>
    ensures { OnOk result (told.new.items ≡ told.old.items ++ fault_told (first_of (map string_bytes words.now)) (wrong_of (map string_bytes words.now))) }
{
    match wrong_of(words) {
        None => Ok(()),
        Some(wrong) => push_wrong(told, first_of(words), &wrong),
    }
}

/// Appends what is told of words of which the first is not read.
fn push_told(alloc: Global, told: &mut Vec<u8>, words: &[String]) -> Result<(), AllocError>
    ensures { OnOk result (told.new.items ≡ told.old.items ++ words_text (map string_bytes words.now)) }
{
    match read_words(alloc, words) {
        Ok(_) => push_command(told),
        Err(WordsFault::Memory) => Err(AllocError),
        Err(WordsFault::Refused) => push_refused(told, after_first(words)),
    }
}

/// What is told of the words of a command line, of which the first is not read: which one is
/// wrong first and why, or that they are a command.
pub fn words_told(alloc: Global, words: &[String]) -> Result<Vec<u8>, AllocError>
    ensures { IfOk result (λ told. told.items ≡ words_text (map string_bytes words.now)) }
{
    let mut told = Vec::new(alloc);
    push_told(alloc, &mut told, words)?;
    Ok(told)
}
