//! Ranges of numbers. What stands before a number tells its range.

ghost use Rattle.std.specs.Prelude.{◌≡◌};
ghost use Rattle.prl_bodytext.specs.Ranges.{greatest};

use crate::words::{Fixed, class_of};
use prl_base::{MAX_NEGATIVE, MAX_POSITIVE};

/// The greatest number, where a register is being declared or not, and after a token of the class.
pub fn greatest(declares: bool, last: u8) -> u64
    ensures { result ≡ greatest declares last }
{
    if declares && last == class_of(Fixed::Minus) {
        MAX_NEGATIVE
    } else {
        MAX_POSITIVE
    }
}
