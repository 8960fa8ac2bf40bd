//! The words of a command that stand after `--`.

ghost use Rattle.std.specs.Prelude.{◌≡◌, ◌≤◌, length, map};
ghost use Rattle.std.specs.List.{position_or_len};
ghost use Rattle.std.specs.Option.{option_map};
ghost use Rattle.std.specs.String.{string_bytes};
ghost use Rattle.prl_arguments.specs.Dashes.{are_dashes, before_dashes, from_dashes};

/// Whether the word is `--`.
fn are_dashes(word: &[u8]) -> bool
    ensures { result ≡ are_dashes word.now }
{
    word == b"--".as_slice()
}

/// How many words there are up to the first `--` or the end.
fn dashes_at(words: &[String]) -> usize
    ensures exact { result ≡ position_or_len are_dashes (map string_bytes words.now) }
    ensures within { result ≤ length words.now }
{
    match words {
        [] => 0,
        [word, rest @ ..] => {
            if are_dashes(word.as_bytes()) {
                0
            } else {
                1 + dashes_at(rest)
            }
        }
    }
}

/// The words before the first `--`.
pub fn before_dashes(words: &[String]) -> &[String]
    ensures { map string_bytes result.now ≡ before_dashes (map string_bytes words.now) }
{
    &words[..dashes_at(words)]
}

/// The words from the first `--` on, which stands in the place of the program's name; None
/// where there is none.
pub fn from_dashes(words: &[String]) -> Option<&[String]>
    ensures { option_map (λ rest. map string_bytes rest.now) result ≡ from_dashes (map string_bytes words.now) }
{
    match words {
        [] => None,
        [word, rest @ ..] => {
            if are_dashes(word.as_bytes()) {
                Some(words)
            } else {
                from_dashes(rest)
            }
        }
    }
}
