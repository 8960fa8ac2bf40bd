//! Sums of ratios whose partial sums may have more bits than a ratio has: up to 95.

ghost use Rattle.std.specs.Prelude.{◌≡◌, ◌<◌, ◌≤◌, ◌^◌, ◌*◌, ◌+◌, ◌*ℤ◌, ◌+ℤ◌, pos, nat_abs};
ghost use Rattle.std.specs.Int.{IsGcd};
ghost use borrow.Author.Differences.{up, down};
ghost use Rattle.prl_base.specs.Reductions.{IsReduction, signed};

use prl_base::{MAX_PART, Past, Ratio, gcd};

/// The greatest common divisor; of 0 and 0 it is 0.
fn wide_gcd(a: u128, b: u128) -> u128
    ensures { IsGcd a b result }
{
    let mut x = a;
    let mut y = b;
    while y > u64::MAX as u128 {
        let rest = x % y;
        x = y;
        y = rest;
    }
    if y == 0 {
        return x;
    }
    gcd(y as u64, (x % y) as u64) as u128
}

/// How far a number is above 0 and below it.
fn parts(a: i64) -> (u128, u128)
    requires { nat_abs a < 2 ^ 31 }
    ensures above { result.0 ≡ up a }
    ensures below { result.1 ≡ down a }
    ensures small { (result.0 < 2 ^ 31) × (result.1 < 2 ^ 31) }
{
    if a < 0 {
        (0, a.unsigned_abs() as u128)
    } else {
        (a as u128, 0)
    }
}

/// The product of three numbers of 31 bits.
fn product(a: u128, b: u128, c: u128) -> u128
    requires a { a < 2 ^ 31 }
    requires b { b < 2 ^ 31 }
    requires c { c < 2 ^ 31 }
    ensures value { result ≡ a * b * c }
    ensures small { result < 2 ^ 93 }
{
    a * b * c
}

/// The number of this size and sign.
fn with_sign(negative: bool, size: u64) -> i64
    requires { size < 2 ^ 31 }
    ensures { result ≡ signed negative size }
{
    if negative {
        -(size as i64)
    } else {
        size as i64
    }
}

/// A fraction of this sign in lowest terms.
fn reduced(negative: bool, size: u128, den: u128) -> Result<Ratio, Past>
    requires { 1 ≤ den }
    ensures { IsReduction (signed negative size) (pos den) result }
{
    let divisor = wide_gcd(size, den);
    let top = size / divisor;
    let bottom = den / divisor;
    if top > MAX_PART as u128 || bottom > MAX_PART as u128 {
        return Err(Past);
    }
    Ok(Ratio {
        num: with_sign(negative, top as u64),
        den: bottom as u64,
    })
}

/// The sum of `a / d` and the product of `b / e` and `c / f` in lowest terms.
fn sum_of_parts(a: i64, b: i64, c: i64, d: u128, e: u128, f: u128) -> Result<Ratio, Past>
    requires a { nat_abs a < 2 ^ 31 }
    requires b { nat_abs b < 2 ^ 31 }
    requires c { nat_abs c < 2 ^ 31 }
    requires d { (1 ≤ d) × (d < 2 ^ 31) }
    requires e { (1 ≤ e) × (e < 2 ^ 31) }
    requires f { (1 ≤ f) × (f < 2 ^ 31) }
    ensures { IsReduction (a *ℤ pos (e * f) +ℤ b *ℤ c *ℤ pos d) (pos (d * e * f)) result }
{
    let (a_above, a_below) = parts(a);
    let (b_above, b_below) = parts(b);
    let (c_above, c_below) = parts(c);
    let den = product(d, e, f);
    let plus = product(a_above, e, f) + product(b_above, c_above, d) + product(b_below, c_below, d);
    let minus = product(a_below, e, f)
        + product(b_above, c_below, d)
        + product(b_below, c_above, d);
    if plus < minus {
        reduced(true, minus - plus, den)
    } else {
        reduced(false, plus - minus, den)
    }
}

/// The sum `base + slope * by` in lowest terms, where a part of the product may be past the limit.
/// It takes no memory.
pub fn sum_of(base: Ratio, slope: Ratio, by: Ratio) -> Result<Ratio, Past>
    ensures { IsReduction (base.num *ℤ pos (slope.den * by.den) +ℤ slope.num *ℤ by.num *ℤ pos base.den) (pos (base.den * slope.den * by.den)) result }
{
    sum_of_parts(
        base.num,
        slope.num,
        by.num,
        base.den as u128,
        slope.den as u128,
        by.den as u128,
    )
}
