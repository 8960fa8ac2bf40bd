//! The ranges of numbers, and the constants that they write.

ghost use Rattle.std.specs.Prelude.{◌≡◌, false};
ghost use Rattle.prl_lex.specs.Numbers.{negative, positive};
ghost use Rattle.prl_lex.specs.Ranges.{is_fault, out_of_range};

use crate::syntax::Syntax;
use crate::terminals::Terminal;
use prl_base::{MAX_POSITIVE, Value};

/// The constant that a number without a sign writes. One past the greatest counts as that.
pub fn positive(number: u64) -> Value
    ensures { result ≡ positive number }
{
    Value::Int(number.min(MAX_POSITIVE) as i64)
}

/// The constant that a number after a minus writes. One past the greatest size counts as that.
pub fn negative(number: u64) -> Value
    ensures { result ≡ negative number }
{
    if number == 0 {
        return Value::Int(0);
    }
    Value::Int(-((number - 1).min(MAX_POSITIVE) as i64) - 1)
}

/// Whether the token is a number out of its range.
fn is_fault<S: Syntax>(inside: bool, last: u8, terminal: &Terminal) -> bool
    ensures { result ≡ is_fault S.texts.ranges inside last terminal.now }
{
    terminal.class() == 1 && !S::fits(inside, last, terminal.value())
}

/// The place of the first number out of its range.
pub fn out_of_range<S: Syntax>(terminals: &[Terminal]) -> Option<u32>
    ensures { result ≡ out_of_range S.texts.ranges false 0 terminals.now }
{
    let mut inside = false;
    let mut last = 0;
    'each: for terminal in terminals {
        if is_fault::<S>(inside, last, terminal) {
            return Some(terminal.at().at);
        }
        last = terminal.class();
        inside = S::inside_after(inside, last);
    }
    None
}
