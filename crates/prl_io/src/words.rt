//! The words of a command line that come in pairs, an option and its value.

ghost use Rattle.std.specs.Prelude.{◌≡◌, ◌≤◌, ◌&&◌, ◌==◌, IfSome, Some, drop, map, not};
ghost use Rattle.std.specs.Option.{option_map};
ghost use Rattle.std.specs.String.{string_bytes};
ghost use Rattle.prl_base.specs.Decimals.{decimal_of};
ghost use Rattle.prl_io.specs.Pairs.{are_pairs, asks_help, is_option, is_pair, is_value, value_of};

use prl_base::decimal_of;

/// The words after the program's own name.
pub fn after_name(words: &[String]) -> &[String]
    ensures { result.now ≡ drop 1 words.now }
{
    match words {
        [] => words,
        [_, rest @ ..] => rest,
    }
}

/// The word after the first option of this name.
pub fn value_of<'a>(option: &[u8], words: &'a [String]) -> Option<&'a [u8]>
    ensures { option_map (λ value. value.now) result ≡ value_of option.now (map string_bytes words.now) }
{
    match words {
        [] => None,
        [_] => None,
        [word, value, rest @ ..] => {
            if word.as_bytes() == option {
                Some(value.as_bytes())
            } else {
                value_of(option, rest)
            }
        }
    }
}

/// Whether a word is one of the options.
fn is_option(word: &[u8], options: &[&[u8]]) -> bool
    ensures { result ≡ is_option word.now (map (λ option. option.now) options.now) }
{
    match options {
        [] => false,
        [first, rest @ ..] => *first == word || is_option(word, rest),
    }
}

/// Whether a word has the form of a value: it is not empty, and does not begin with `-`.
fn is_value(word: &[u8]) -> bool
    ensures { result ≡ is_value word.now }
{
    match word {
        [] => false,
        [first, ..] => *first != b'-',
    }
}

/// Whether a word is one of the options, which the rest does not have, and the next one has the form of a value.
fn is_pair(options: &[&[u8]], word: &[u8], value: &[u8], rest: &[String]) -> bool
    ensures { result ≡ is_pair (map (λ option. option.now) options.now) word.now value.now (map string_bytes rest.now) }
{
    is_option(word, options) && is_value(value) && value_of(word, rest).is_none()
}

/// Whether the words are pairs of one of the options and its value, no option twice.
pub fn are_pairs(options: &[&[u8]], words: &[String]) -> bool
    ensures { result ≡ are_pairs (map (λ option. option.now) options.now) (map string_bytes words.now) }
{
    match words {
        [] => true,
        [_] => false,
        [word, value, rest @ ..] => {
            is_pair(options, word.as_bytes(), value.as_bytes(), rest) && are_pairs(options, rest)
        }
    }
}

/// Whether the words ask for what the options mean.
pub fn asks_help(words: &[String]) -> bool
    ensures { result ≡ asks_help (map string_bytes words.now) }
{
    match words {
        [word] => word.as_bytes() == b"--help".as_slice(),
        _ => false,
    }
}

/// The number that a word writes, where it is at most this one.
pub fn number_up_to(most: u64, word: &[u8]) -> Option<u64>
    ensures small { IfSome result (λ number. number ≤ most) }
    ensures exact { IfSome result (λ number. decimal_of word.now ≡ Some number) }
{
    match decimal_of(word) {
        None => None,
        Some(number) => { if number <= most { Some(number) } else { None } }
    }
}
