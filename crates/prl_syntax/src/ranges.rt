//! Ranges of numbers. What stands before a number tells its range.

ghost use Rattle.std.specs.Prelude.{◌≡◌};
ghost use Rattle.prl_syntax.specs.Ranges.{greatest, in_range, is_count, is_part};

use crate::words::{Fixed, class_of};
use prl_base::{MAX_NEGATIVE, MAX_PART, MAX_POSITIVE};

/// Whether a count is next, in a rate or not, and after a token of the class.
fn is_count(in_rate: bool, last: u8) -> bool
    ensures { result ≡ is_count in_rate last }
{
    (last == class_of(Fixed::Open) && in_rate)
        || last == class_of(Fixed::Wcet)
        || last == class_of(Fixed::Up)
        || last == class_of(Fixed::Down)
        || last == class_of(Fixed::Slash)
}

/// Whether a numerator or a due is next, in a rate or not, and after a token of the class.
fn is_part(in_rate: bool, last: u8) -> bool
    ensures { result ≡ is_part in_rate last }
{
    in_rate || last == class_of(Fixed::Due) || last == class_of(Fixed::Shift)
}

/// The greatest number of a constant, after a token of the class.
fn greatest(last: u8) -> u64
    ensures { result ≡ greatest last }
{
    if last == class_of(Fixed::Minus) {
        MAX_NEGATIVE
    } else {
        MAX_POSITIVE
    }
}

/// Whether the number is in its range, in a rate or not, and after a token of the class.
pub fn is_in_range(in_rate: bool, last: u8, number: u64) -> bool
    ensures { result ≡ in_range in_rate last number }
{
    if is_count(in_rate, last) {
        return 1 <= number && number <= MAX_PART;
    }
    if is_part(in_rate, last) {
        return number <= MAX_PART;
    }
    number <= greatest(last)
}
