//! The lines of a text.

ghost use Rattle.std.specs.Prelude.{◌≡◌, ◌≤◌, ◌==◌, length};
ghost use Rattle.std.specs.List.{position_or_len};
ghost use Rattle.std.specs.Option.{option_map};
ghost use Rattle.prl_base.specs.Lines.{is_line_feed, cut_line};

/// How many bytes there are up to the first of this value, or the end.
pub fn len_before(text: &[u8], byte: u8) -> usize
    ensures exact { result ≡ position_or_len (λ b. b == byte) text.now }
    ensures within { result ≤ length text.now }
{
    for (i, b) in text.iter().enumerate() {
        if *b == byte {
            return i;
        }
    }
    text.len()
}

/// How many bytes there are up to a line feed or the end.
pub fn line_len(text: &[u8]) -> usize
    ensures exact { result ≡ position_or_len is_line_feed text.now }
    ensures within { result ≤ length text.now }
{
    len_before(text, b'\n')
}

/// The first line of the text, and what stands after its line feed; None where there is no line feed.
pub fn cut_line(text: &[u8]) -> Option<(&[u8], &[u8])>
    ensures { option_map (λ cut. (cut.0.now, cut.1.now)) result ≡ cut_line text.now }
{
    let at = line_len(text);
    if at < text.len() {
        Some((&text[..at], &text[at + 1..]))
    } else {
        None
    }
}
