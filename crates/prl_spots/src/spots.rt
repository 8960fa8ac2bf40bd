//! The byte of a file that a line speaks of.

ghost use Rattle.std.specs.Prelude.{◌≡◌, ◌<◌, ◌≤◌, ◌^◌, IfOk, IfSome, length};
ghost use Rattle.prl_spots.specs.Spots.{byte_at, IsLineAt, IsSpot};

use crate::names::{Asked, before, behind, flow_asked, named_at};
use crate::places::line_start;
use prl_base::decimal_of;
use prl_sentences::Target;
use std::alloc::{AllocError, Global};

/// The index that a number writes, where it is one of the text or its end.
pub(crate) fn byte_at(text: &[u8], number: &[u8]) -> Option<usize>
    ensures exact { result ≡ byte_at text.now number.now }
    ensures inside { IfSome result (λ at. at ≤ length text.now) }
{
    match decimal_of(number) {
        None => None,
        Some(at) => {
            if at <= text.len() as u64 {
                Some(at as usize)
            } else {
                None
            }
        }
    }
}

/// Where the line begins whose number this writes.
fn line_at(text: &[u8], number: &[u8]) -> Option<usize>
    ensures exact { IsLineAt text.now number.now result }
    ensures inside { IfSome result (λ at. at ≤ length text.now) }
{
    match decimal_of(number) {
        None => None,
        Some(line) => line_start(text, line),
    }
}

/// The byte of the file that the argument of a line tells, which lies in the file or at its end.
pub fn spot_of(
    alloc: Global,
    text: &[u8],
    target: Target,
    argument: &[u8],
) -> Result<Option<usize>, AllocError>
    requires { length text.now < 2 ^ 32 }
    ensures spot { IfOk result (IsSpot target argument.now text.now) }
    ensures inside { IfOk result (λ found. IfSome found (λ at. at ≤ length text.now)) }
{
    match target {
        Target::Nowhere => Ok(None),
        Target::Byte(_) => Ok(byte_at(text, argument)),
        Target::Line(_) => Ok(line_at(text, argument)),
        Target::Word => named_at(alloc, text, Asked::Used(argument)),
        Target::Task => named_at(alloc, text, Asked::Declared(before(argument, b'@'))),
        Target::Flow => named_at(alloc, text, flow_asked(argument)),
        Target::Variable => {
            let node = before(argument, b'.');
            named_at(alloc, text, Asked::InNode(node, behind(argument, b'.')))
        }
    }
}
