//! What `clap` decides of a command line: whether the mode has each option and has each that it needs, and whether the
//! date, the workers and the size are in their ranges.

ghost use Rattle.std.specs.Prelude.{◌≡◌, IfOk, drop, false, fold, map};
ghost use Rattle.std.specs.String.{string_bytes};
ghost use Rattle.clap.specs.Words.{app_of, new_app, rule_of};
ghost use Rattle.prl_arguments.specs.Arguments.{range_of};
ghost use Rattle.prl_arguments.specs.code.Options.{app_of_mode, faults_of, is_taken, no_options, option_rule, parser_by, with_setting};

use crate::arguments::{
    MAX_SIZE, MAX_UNTIL, MAX_WORKERS, Mode, SETTINGS, Setting, has, name_of, needs,
};
use clap::builder::ValueParser;
use clap::error::ErrorKind;
use clap::{Arg, ArgAction, Command};
use std::alloc::{AllocError, Global};

/// The values of an option: a number in its range, or any text.
fn parser_of<'a>(setting: Setting) -> ValueParser<'a>
    ensures { result ≡ parser_by (range_of setting) }
{
    match setting {
        Setting::Until => ValueParser::unsigned(0, MAX_UNTIL as u64),
        Setting::Workers => ValueParser::unsigned(1, MAX_WORKERS as u64),
        Setting::Size => ValueParser::unsigned(1, MAX_SIZE as u64),
        _ => ValueParser::string(),
    }
}

/// An option of a mode.
fn option<'a>(alloc: Global, mode: Mode, setting: Setting) -> Arg<'a>
    ensures rule { rule_of result ≡ option_rule mode setting }
    ensures local { result.global ≡ false }
{
    let name = name_of(setting);
    Arg::new(alloc, name)
        .long(name)
        .action(ArgAction::Set)
        .required(needs(mode, setting))
        .value_parser(parser_of(setting))
}

/// A command with one more option, where the mode has it.
fn with_setting<'a>(
    alloc: Global,
    command: Command<'a>,
    mode: Mode,
    setting: Setting,
) -> Result<Command<'a>, AllocError>
    ensures { IfOk result (λ c. app_of c ≡ with_setting mode (app_of command.entry) setting) }
{
    if has(mode, setting) {
        command.arg(option(alloc, mode, setting))
    } else {
        Ok(command)
    }
}

/// A command with no options, and no help. The words have been tested for options that repeat.
fn no_options<'a>(alloc: Global) -> Command<'a>
    ensures { app_of result ≡ no_options }
{
    Command::new(alloc, "prelude")
        .disable_help_flag(true)
        .args_override_self(true)
}

/// A command with those of these options that the mode has.
fn with_settings<'a>(
    alloc: Global,
    command: Command<'a>,
    mode: Mode,
    settings: &[Setting],
) -> Result<Command<'a>, AllocError>
    ensures { IfOk result (λ c. app_of c ≡ fold (with_setting mode) (app_of command.entry) settings.now) }
{
    match settings {
        [] => Ok(command),
        [first, rest @ ..] => {
            let more = with_setting(alloc, command, mode, *first)?;
            with_settings(alloc, more, mode, rest)
        }
    }
}

/// The command of a mode.
fn command_of<'a>(alloc: Global, mode: Mode) -> Result<Command<'a>, AllocError>
    ensures { IfOk result (λ c. app_of c ≡ app_of_mode mode) }
{
    with_settings(alloc, no_options(alloc), mode, &SETTINGS)
}

/// The words after the first.
fn after_first(words: &[String]) -> &[String]
    ensures { result.now ≡ drop 1 words.now }
{
    match words {
        [] => words,
        [_, rest @ ..] => rest,
    }
}

/// Whether `clap` takes the options of the words: the first word is not read, and the second is the mode.
pub fn are_options_of(alloc: Global, mode: Mode, words: &[String]) -> Result<bool, AllocError>
    ensures { IfOk result (λ yes. yes ≡ is_taken (faults_of mode (drop 1 (map string_bytes words.now)))) }
{
    match command_of(alloc, mode)?.try_get_matches_from(after_first(words)) {
        Ok(_) => Ok(true),
        Err(error) => {
            if error.kind() == ErrorKind::OutOfMemory {
                Err(AllocError)
            } else {
                Ok(false)
            }
        }
    }
}
