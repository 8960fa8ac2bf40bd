//! The kind of a line.

ghost use Rattle.std.specs.Prelude.{IfSome};
ghost use Rattle.prl_sentences.specs.Kinds.{IsLineOf};

use crate::call_table::call_rows;
use crate::kinds::Kind;
use crate::program_table::program_rows;
use crate::rows::kind_of;
use crate::run_table::run_rows;

/// The kind of a line of a program or of what it is run with.
fn program_line_kind(line: &[u8]) -> Option<Kind>
    ensures { IfSome result (λ kind. IsLineOf kind line.now) }
{
    match kind_of(program_rows(), line) {
        Some(kind) => Some(kind),
        None => kind_of(run_rows(), line),
    }
}

/// The kind of a line that `prelude` writes on `err`, with its line feed; None where the text is not one such line.
pub fn line_kind(line: &[u8]) -> Option<Kind>
    ensures { IfSome result (λ kind. IsLineOf kind line.now) }
{
    match kind_of(call_rows(), line) {
        Some(kind) => Some(kind),
        None => program_line_kind(line),
    }
}
