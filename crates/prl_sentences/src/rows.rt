//! The kind that a row of a table tells. A row has three parts with a bar between: what lines of the kind begin with, what they
//! end with, and the sentence. The number at their front, or their first word, tells what else is known of the kind.

ghost use Rattle.std.specs.Prelude.{IfSome};
ghost use Rattle.prl_sentences.specs.Kinds.{IsLineOf};

use crate::kinds::{Detail, Kind, Part, Target, is_line_of, word_of};
use prl_base::{decimal_of, line_len};
use prl_plan::Rule;

/// How a line of this number tells the place of its fault.
fn target_of(number: u64) -> Target {
    match number {
        1 | 2 | 3 | 12 | 13 | 40 => Target::Byte(Part::Program),
        10 | 11 | 15 => Target::Word,
        16 | 20 | 60 | 61 | 72 | 84 | 95 | 99 => Target::Task,
        17 => Target::Variable,
        21 | 22 | 23 | 24 => Target::Byte(Part::Bodies),
        30 | 41 | 42 | 50 | 51 => Target::Flow,
        70 | 71 => Target::Line(Part::Schedule),
        80 | 81 | 82 | 83 => Target::Line(Part::Sensors),
        93 | 94 | 96 => Target::Line(Part::Table),
        98 => Target::Line(Part::Cores),
        _ => Target::Nowhere,
    }
}

/// The rule by whose name such a line ends.
fn rule_of(tail: &str) -> Rule {
    match tail {
        " rule L1\n" => Rule::L1,
        " rule L2\n" => Rule::L2,
        " rule L3\n" => Rule::L3,
        _ => Rule::L4,
    }
}

/// What is told beside of a line of this number that ends so.
fn detail_of(number: u64, tail: &str) -> Detail {
    match number {
        2 => Detail::Unexpected(Part::Program),
        10 => Detail::Near,
        11 => Detail::Twice,
        12 => Detail::Numbers,
        14 => Detail::Nodes,
        23 => Detail::Unexpected(Part::Bodies),
        30 => Detail::Cycle,
        40 => Detail::Clocks,
        60 => Detail::Chain,
        61 => Detail::Circle,
        70 => Detail::Tasks,
        71 => Detail::Broken(rule_of(tail)),
        72 => Detail::Left,
        90 => Detail::Overload,
        91 => Detail::Load,
        93 | 94 | 95 | 96 | 97 => Detail::Table,
        98 => Detail::Placing,
        _ => Detail::Nothing,
    }
}

/// How a line with no number tells the place of its fault, and what is told beside, by what it begins with.
fn unnumbered(front: &str) -> (Target, Detail) {
    match front {
        "overrun " => (Target::Task, Detail::Nothing),
        "overload " => (Target::Nowhere, Detail::Overload),
        "usage: prelude MODE --OPTION VALUE .." => (Target::Nowhere, Detail::Words),
        _ => (Target::Nowhere, Detail::Nothing),
    }
}

/// How a line tells the place of its fault, and what is told beside, by what it begins and ends with.
fn facts_of(front: &str, tail: &str) -> (Target, Detail) {
    match decimal_of(word_of(front.as_bytes())) {
        Some(number) => (target_of(number), detail_of(number, tail)),
        None => unnumbered(front),
    }
}

/// The kind that a row tells.
fn kind_in(row: &'static str) -> Kind {
    let (front, rest) = row.split_once('|').unwrap_or((row, ""));
    let (tail, sentence) = rest.split_once('|').unwrap_or((rest, ""));
    let (target, detail) = facts_of(front, tail);
    Kind {
        front,
        tail,
        target,
        sentence,
        detail,
    }
}

/// The first of the kinds whose line the text is.
pub(crate) fn kind_of(rows: &'static [&'static str], line: &[u8]) -> Option<Kind>
    ensures { IfSome result (λ kind. IsLineOf kind line.now) }
{
    if line_len(line) + 1 != line.len() {
        return None;
    }
    for row in rows {
        let kind = kind_in(row);
        if is_line_of(&kind, line) {
            return Some(kind);
        }
    }
    None
}
