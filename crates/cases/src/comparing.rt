//! Whether a text is the one that is wanted.

use crate::drafts::Draft;
use crate::report::Report;

/// The character that stands for any text in a text that is wanted. It is none that a text may have.
pub const GAP: char = '\u{ffff}';

/// The character that stands at both ends of texts that are compared. It is none that a text may have.
const END: char = '\u{fffe}';

/// Whether the text is the one that is wanted, with any text for each `GAP`.
pub fn is_made_of(report: &mut Report, text: &str, wanted: &str) -> bool {
    let wanted = framed(report, wanted);
    let framed = framed(report, text);
    let pieces = pieces_of(report, wanted.as_str());
    !text.contains(END) && are_in_order(framed.as_str(), &pieces)
}

/// The pieces between gaps.
fn pieces_of<'a>(report: &mut Report, text: &'a str) -> Vec<&'a str> {
    let mut pieces = Vec::new(report.alloc);
    for piece in text.split(GAP) {
        report.put(&mut pieces, piece);
    }
    pieces
}

/// The text between two `END`.
fn framed(report: &mut Report, text: &str) -> String {
    let mut draft = Draft::new(report.alloc);
    draft.add_char(END);
    draft.add(text);
    draft.add_char(END);
    report.take(draft)
}

/// Whether the pieces stand in the text one behind another.
fn are_in_order(text: &str, pieces: &[&str]) -> bool {
    let mut rest = text;
    for piece in pieces {
        match rest.split_once(*piece) {
            Some((_, after)) => rest = after,
            None => return false,
        }
    }
    true
}
