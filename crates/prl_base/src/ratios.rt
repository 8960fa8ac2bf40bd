//! Ratios of whole numbers.

ghost use Rattle.std.specs.Prelude.{◌≡◌, ◌≢◌, ◌<◌, ◌≤◌, ◌^◌, ◌*◌, ◌*ℤ◌, ◌+ℤ◌, ℤ, pos, nat_abs, Some};
ghost use Rattle.std.specs.Int.{IsGcd};
ghost use Rattle.prl_base.specs.Ratios.{Fraction};
ghost use Rattle.prl_base.specs.Reductions.{IsReducedForm, IsReduction, signed};

use std::fmt;
use std::marker::Model;

/// The size that neither part of a ratio may pass: 2^31 - 1.
pub const MAX_PART: u64 = 2_147_483_647;

/// A result whose reduced numerator (without its sign) or denominator is past 2^31 - 1.
#[derive(Clone, Copy)]
pub struct Past;

/// A reduced ratio. Its denominator is at least 1, and neither part is past 2^31 - 1 in size.
/// Contracts see a `Fraction`.
#[derive(Clone, Copy, PartialEq, Eq)]
pub struct Ratio {
    pub num: i64,
    pub den: u64,
}

impl Model for Ratio {
    ghost use Rattle.prl_base.specs.Ratios.{Fraction, IsSmallFraction};

    ghost Value = { Fraction };

    ghost view = { λ r. record { num = r.num; den = r.den } };

    ghost invariant = { λ r. IsSmallFraction (record { num = r.num; den = r.den }) };

    ghost inverse = { λ f. record { num = f.num; den = f.den } };
}

impl Ratio {
    /// The ratio `num / den`. It takes no memory.
    pub fn new(num: i64, den: u64) -> Result<Ratio, Past>
        requires { 1 ≤ den }
        ensures { IsReduction num (pos den) result }
    {
        let divisor = gcd(size(num), den);
        let top = size(num) / divisor;
        let bottom = den / divisor;
        if top > MAX_PART || bottom > MAX_PART {
            return Err(Past);
        }
        Ok(Ratio {
            num: with_sign(num < 0, top),
            den: bottom,
        })
    }

    /// The sum. It takes no memory.
    pub fn add(self, other: Ratio) -> Result<Ratio, Past>
        ensures { IsReduction (self.num *ℤ pos other.den +ℤ other.num *ℤ pos self.den) (pos (self.den * other.den)) result }
    {
        let top = sum(self.over(other), other.over(self));
        Ratio::new(top, self.common_den(other))
    }

    /// The product. It takes no memory.
    pub fn mul(self, other: Ratio) -> Result<Ratio, Past>
        ensures { IsReduction (self.num *ℤ other.num) (pos (self.den * other.den)) result }
    {
        let top = product(self.num, other.num);
        Ratio::new(top, self.common_den(other))
    }

    /// The quotient by a ratio that is not 0. It takes no memory.
    pub fn div(self, other: Ratio) -> Result<Ratio, Past>
        requires { other.num ≢ pos 0 }
        ensures { IsReduction (self.num *ℤ pos other.den) (other.num *ℤ pos self.den) result }
    {
        let top = self.over(other);
        let bottom = other.over(self);
        if bottom < 0 {
            Ratio::new(-top, size(bottom))
        } else {
            Ratio::new(top, size(bottom))
        }
    }

    /// The numerator over the product of both denominators.
    fn over(self, other: Ratio) -> i64
        ensures value { result ≡ self.num *ℤ pos other.den }
        ensures size { nat_abs result < 2 ^ 62 }
    {
        product(self.num, other.den as i64)
    }

    /// The product of both denominators.
    fn common_den(self, other: Ratio) -> u64
        ensures value { result ≡ self.den * other.den }
        ensures positive { 1 ≤ result }
    {
        self.den * other.den
    }

    /// The lowest terms of a ratio are unique.
    pub fn law_of_lowest_terms()
        ensures { (top bottom : ℤ) (f g : Fraction) → bottom ≢ pos 0
            → IsReducedForm top bottom f → IsReducedForm top bottom g → f ≡ g }
    {}
}

/// The greatest common divisor; of 0 and 0 it is 0.
pub fn gcd(a: u64, b: u64) -> u64
    ensures { IsGcd a b result }
{
    let mut x = a;
    let mut y = b;
    while y != 0 {
        let rest = x % y;
        x = y;
        y = rest;
    }
    x
}

/// The number without its sign.
fn size(a: i64) -> u64
    ensures { result ≡ nat_abs a }
{
    a.unsigned_abs()
}

/// The sum of two numbers of at most 62 bits and a sign.
fn sum(a: i64, b: i64) -> i64
    requires a { nat_abs a < 2 ^ 62 }
    requires b { nat_abs b < 2 ^ 62 }
    ensures { result ≡ a +ℤ b }
{
    a + b
}

/// The number of this size and sign.
fn with_sign(negative: bool, size: u64) -> i64
    requires { size < 2 ^ 31 }
    ensures { result ≡ signed negative size }
{
    if negative {
        -(size as i64)
    } else {
        size as i64
    }
}

/// The product of two numbers of at most 31 bits and a sign.
fn product(a: i64, b: i64) -> i64
    requires a { nat_abs a < 2 ^ 31 }
    requires b { nat_abs b < 2 ^ 31 }
    ensures value { result ≡ a *ℤ b }
    ensures size { nat_abs result < 2 ^ 62 }
{
    a * b
}

/// As `3/2`, and as `-10` where the denominator is 1.
impl fmt::Display for Ratio {
    ghost use Rattle.prl_base.specs.Texts.{fraction_text};

    ghost output = { λ ratio. Some (fraction_text ratio) };

    fn fmt<W: fmt::Write>(&self, f: &mut fmt::Formatter<W>) -> fmt::Result {
        let num = self.num;
        let den = self.den;
        if den == 1 {
            write!(f, "{num}")
        } else {
            write!(f, "{num}/{den}")
        }
    }
}
