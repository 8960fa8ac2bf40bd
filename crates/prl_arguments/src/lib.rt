//! The arguments of the command line: the modes of the command, their options, and the command that a list of words asks
//! for; and of words that are refused, looked through from the first on, which one is wrong, and why. It stands on
//! `prl_base`, on `prl_rule` for the gate of a run, and on `clap`.
#![tactic(auto)]

mod arguments;
mod dashes;
mod laws;
mod options;
mod told;
mod wrongs;

pub use arguments::{
    Command, MAX_SIZE, MAX_UNTIL, MAX_WORKERS, Mode, Named, Setting, WordsFault, has, is_value,
    mode_named, name_of, named_by, needed, option_named, read_words,
};
pub use dashes::{before_dashes, from_dashes};
pub use laws::commands_are_in_range;
pub use prl_rule::Gate;
pub use told::words_told;
pub use wrongs::{Look, Wrong};
