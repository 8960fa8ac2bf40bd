//! Lines with their holes filled, their repetitions written out, and characters by number: `{=}` and `{=NAME}`, `{*N TEXT}`
//! and `{-N TEXT}`, `{%HEX}`.

use crate::drafts::Draft;

/// The text for each hole of a name.
#[derive(Drop)]
pub struct Filling<'a> {
    pub name: &'a str,
    pub text: String,
}

/// Adds the line with this end. One that is a repetition alone is that many lines.
pub fn add_lines(out: &mut Draft, line: &str, end: &str, fillings: &[Filling<'_>]) {
    match line.split_once('}') {
        Some((mark, "")) if mark.starts_with("{*") || mark.starts_with("{-") => {
            add_repeat(out, mark, end);
        }
        _ => {
            add_text(out, line, fillings);
            out.add(end);
        }
    }
}

/// Adds the text.
pub fn add_text(out: &mut Draft, text: &str, fillings: &[Filling<'_>]) {
    match text.split_once('{') {
        None => out.add(text),
        Some((first, rest)) => {
            out.add(first);
            for part in rest.split('{') {
                add_part(out, part, fillings);
            }
        }
    }
}

/// Adds what follows a `{` up to the next.
fn add_part(out: &mut Draft, part: &str, fillings: &[Filling<'_>]) {
    if !part.starts_with(['=', '*', '-', '%']) {
        out.add("{");
        return out.add(part);
    }
    match part.split_once('}') {
        Some((mark, rest)) => {
            add_mark(out, mark, fillings);
            out.add(rest);
        }
        None => out.refuse("no end of a hole or repetition"),
    }
}

/// Adds what a hole, a character's number or a repetition between `{` and `}` stands for.
fn add_mark(out: &mut Draft, mark: &str, fillings: &[Filling<'_>]) {
    if let Some(name) = mark.strip_prefix('=') {
        return add_hole(out, name, fillings);
    }
    match mark.strip_prefix('%') {
        Some(digits) => add_numbered_char(out, digits),
        None => add_repeat(out, mark, ""),
    }
}

/// Adds the newest text for holes of this name; the hole as it stands where there is none.
fn add_hole(out: &mut Draft, name: &str, fillings: &[Filling<'_>]) {
    for filling in fillings.iter().rev() {
        if filling.name == name {
            return out.add(filling.text.as_str());
        }
    }
    out.add("{=");
    out.add(name);
    out.add("}");
}

/// Adds the character of a hexadecimal number.
fn add_numbered_char(out: &mut Draft, digits: &str) {
    let letter = match u32::from_str_radix(digits, 16) {
        Ok(number) => char::from_u32(number),
        Err(_) => None,
    };
    match letter {
        Some(letter) => out.add_char(letter),
        None => out.refuse("no character"),
    }
}

/// Adds the text of `*N TEXT` or `-N TEXT` so many times, with this end each time.
fn add_repeat(out: &mut Draft, mark: &str, end: &str) {
    let falls = mark.starts_with('-');
    match mark.trim_start_matches(['{', '*', '-']).split_once(' ') {
        Some((digits, text)) => match digits.parse::<u64>() {
            Ok(count) => add_times(out, text, end, count, falls),
            Err(_) => out.refuse("no number of times"),
        },
        None => out.refuse("a repetition without a text"),
    }
}

/// Adds the text so many times, with numbers that rise or fall.
fn add_times(out: &mut Draft, text: &str, end: &str, count: u64, falls: bool) {
    for place in 0..count {
        let number = if falls {
            count.saturating_sub(place).saturating_sub(1)
        } else {
            place
        };
        add_numbered(out, text, number);
        out.add(end);
    }
}

/// Adds the text with the number for each `#`, and the next one for each `$`.
fn add_numbered(out: &mut Draft, text: &str, number: u64) {
    for letter in text.chars() {
        match letter {
            '#' => out.add_number(number),
            '$' => out.add_number(number.saturating_add(1)),
            other => out.add_char(other),
        }
    }
}
