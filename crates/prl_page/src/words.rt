//! The words of a command line.

use prl_io::{are_pairs, value_of};

/// The form of the words.
pub(crate) const FORM: &str = "prelude_page --program FILE [--node NAME] [--tick TIME] \
    [--bodies FILE] [--sensors FILE --until TICK], or --help";

/// What the options mean.
pub(crate) const HELP: &str = "prelude_page --program FILE [OPTION VALUE ..] > PAGE.html\n\
    Writes one file of HTML about a program: its text, its plan, what one processor does in a\n\
    hyperperiod, how old the values of sensors are at the actuators, and its flows. The file needs\n\
    no network and no script. Each part is what one of the programs writes, and tells its words.\n\n\
    --program FILE  the program; its plan is asked for\n\
    --node NAME     its main node; the last one where nothing is said\n\
    --tick TIME     times on the axes: how long a tick is, as 0.1ms, 250us or 1s\n\
    --bodies FILE   the bodies of its imported nodes\n\
    --sensors FILE  the rows of its sensors: with --until the page has the flows\n\
    --until TICK    the flows before this tick\n\
    --help          this text\n";

/// The options of the words.
static OPTIONS: [&[u8]; 6] = [
    b"--program",
    b"--node",
    b"--tick",
    b"--bodies",
    b"--sensors",
    b"--until",
];

/// Whether the words are pairs of an option and its value, with a program, and with both of `--sensors` and `--until` or neither.
fn are_words(words: &[String]) -> bool {
    are_pairs(&OPTIONS, words)
        && value_of(b"--program", words).is_some()
        && value_of(b"--sensors", words).is_some() == value_of(b"--until", words).is_some()
}

/// What the words ask for.
#[derive(Clone, Copy)]
pub(crate) struct Asked<'a> {
    pub program: &'a str,
    pub node: Option<&'a str>,
    pub tick: Option<&'a str>,
    pub bodies: Option<&'a str>,
    pub sensors: Option<&'a str>,
    pub until: Option<&'a str>,
}

/// The word after the first option of this name.
fn word_after<'a>(words: &'a [String], option: &str) -> Option<&'a str> {
    match words {
        [] => None,
        [_] => None,
        [word, value, rest @ ..] => {
            if word.as_str() == option {
                Some(value.as_str())
            } else {
                word_after(rest, option)
            }
        }
    }
}

/// What the words ask for, if they have the form.
pub(crate) fn asked_of(words: &[String]) -> Option<Asked<'_>> {
    if !are_words(words) {
        return None;
    }
    Some(Asked {
        program: word_after(words, "--program")?,
        node: word_after(words, "--node"),
        tick: word_after(words, "--tick"),
        bodies: word_after(words, "--bodies"),
        sensors: word_after(words, "--sensors"),
        until: word_after(words, "--until"),
    })
}
