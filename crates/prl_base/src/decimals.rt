//! Decimal numbers as texts spell them.

ghost use Rattle.std.specs.Prelude.{◌≡◌, ◌+◌, ◌*◌, ◌<◌, ◌^◌, IsTrue, SomeIff};
ghost use Rattle.std.specs.Char.{digit_value, is_ascii_digit};
ghost use Rattle.std.specs.List.{list_all};
ghost use Rattle.std.specs.Str.Parse.{digits_value};
ghost use Rattle.prl_base.specs.Decimals.{are_digits, decimal_of, integer_of, positive, negative};

/// The greatest integer of the language: 2^63 - 1.
pub const MAX_POSITIVE: u64 = 9_223_372_036_854_775_807;

/// The least integer of the language, without its sign: 2^63.
pub const MAX_NEGATIVE: u64 = 9_223_372_036_854_775_808;

fn are_all_digits(bytes: &[u8]) -> bool
    ensures { result ≡ list_all is_ascii_digit bytes.now }
{
    bytes.iter().all(|byte| byte.is_ascii_digit())
}

/// Whether the text is one decimal digit or more, and nothing else.
pub fn are_digits(text: &[u8]) -> bool
    ensures { result ≡ are_digits text.now }
{
    match text {
        [] => false,
        [first, rest @ ..] => first.is_ascii_digit() && are_all_digits(rest),
    }
}

/// The number with one digit more at its end.
fn next_value(number: u64, digit: u8) -> Option<u64>
    requires { IsTrue (is_ascii_digit digit) }
    ensures { SomeIff result (number * 10 + digit_value digit < 2 ^ 64) (number * 10 + digit_value digit) }
{
    number.checked_mul(10)?.checked_add(u64::from(digit - b'0'))
}

/// The number that digits spell, where it is below 2^64.
fn value_of(digits: &[u8]) -> Option<u64>
    requires { IsTrue (list_all is_ascii_digit digits.now) }
    ensures { SomeIff result (digits_value 10 digits.now < 2 ^ 64) (digits_value 10 digits.now) }
{
    let mut number: u64 = 0;
    for digit in digits {
        number = next_value(number, *digit)?;
    }
    Some(number)
}

/// The number that decimal digits spell, leading zeros allowed. None where there is no digit, where
/// another byte stands among them, and where the number is above 2^64 - 1.
pub fn decimal_of(text: &[u8]) -> Option<u64>
    ensures { result ≡ decimal_of text.now }
{
    if are_digits(text) {
        value_of(text)
    } else {
        None
    }
}

/// The integer of 64 bits of this size. None where it is above 2^63 - 1.
pub fn positive(size: u64) -> Option<i64>
    ensures { result ≡ positive size }
{
    if size <= MAX_POSITIVE {
        Some(size as i64)
    } else {
        None
    }
}

/// The negative of this size as an integer of 64 bits. None where the size is above 2^63.
pub fn negative(size: u64) -> Option<i64>
    ensures { result ≡ negative size }
{
    if size == 0 {
        Some(0)
    } else if size <= MAX_NEGATIVE {
        Some(-((size - 1) as i64) - 1)
    } else {
        None
    }
}

/// The integer of 64 bits that a text spells: digits, leading zeros allowed, after at most one `-`. None
/// for any other text, and where the integer is out of range.
pub fn integer_of(text: &[u8]) -> Option<i64>
    ensures { result ≡ integer_of text.now }
{
    match text.split_first() {
        None => None,
        Some((first, rest)) => {
            if *first == b'-' {
                negative(decimal_of(rest)?)
            } else {
                positive(decimal_of(text)?)
            }
        }
    }
}
