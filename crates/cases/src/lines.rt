//! Lines of a text, and what begins them.

use crate::report::Report;

/// The lines of a text.
pub fn lines_of<'a>(report: &mut Report, text: &'a str) -> Vec<&'a str> {
    let mut lines = Vec::new(report.alloc);
    for line in text.lines() {
        report.put(&mut lines, line);
    }
    lines
}

/// What the last line that begins so says.
pub fn said<'a>(lines: &[&'a str], start: &str) -> Option<&'a str> {
    let mut found = None;
    for line in lines {
        if let Some(rest) = line.strip_prefix(start) {
            found = Some(rest);
        }
    }
    found
}

/// The first so many lines.
pub fn front<'a>(lines: &'a [&'a str], count: usize) -> &'a [&'a str] {
    lines.get(..count).unwrap_or(lines)
}

/// The lines behind the first so many.
pub fn behind<'a>(lines: &'a [&'a str], count: usize) -> &'a [&'a str] {
    lines.get(count..).unwrap_or(&[])
}

/// The lines without the empty ones at their end.
pub fn trimmed<'a>(lines: &'a [&'a str]) -> &'a [&'a str] {
    let mut count = 0usize;
    for (k, line) in lines.iter().enumerate() {
        if !line.is_empty() {
            count = k.saturating_add(1);
        }
    }
    front(lines, count)
}
