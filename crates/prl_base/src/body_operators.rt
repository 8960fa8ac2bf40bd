//! The operators of bodies, and their values.

ghost use Rattle.std.specs.Prelude.{◌≡◌, ◌+ℤ◌, ◌-ℤ◌, ◌*ℤ◌, neg_ℤ};
ghost use Rattle.prl_base.specs.BodyOperators.{number_of, truth_of, wrapped, quotient, remainder, result_of, prefixed};

use crate::values::Value;

/// An operator between two operands.
#[derive(Clone, Copy)]
pub enum Operator {
    /// `or`
    Or,
    /// `xor`: exactly one is true.
    Xor,
    /// `and`
    And,
    /// `=`
    Equal,
    /// `<>`
    Unequal,
    /// `<`
    Less,
    /// `<=`
    AtMost,
    /// `>`
    Greater,
    /// `>=`
    AtLeast,
    /// `+`
    Plus,
    /// `-`
    Minus,
    /// `*`
    Times,
    /// `/`
    Over,
    /// `%`
    Modulo,
}

/// An operator before its operand.
#[derive(Clone, Copy)]
pub enum Prefix {
    /// `not`
    Not,
    /// `-`
    Negated,
}

/// The number; 0 for a truth value.
fn number_of(value: Value) -> i64
    ensures { result ≡ number_of value }
{
    match value {
        Value::Int(number) => number,
        Value::Bool(_) => 0,
    }
}

/// The truth value; false for a number.
pub fn truth_of(value: Value) -> bool
    ensures { result ≡ truth_of value }
{
    match value {
        Value::Int(_) => false,
        Value::Bool(truth) => truth,
    }
}

fn sum(a: i64, b: i64) -> i64
    ensures { result ≡ wrapped (a +ℤ b) }
{
    a.wrapping_add(b)
}

fn difference(a: i64, b: i64) -> i64
    ensures { result ≡ wrapped (a -ℤ b) }
{
    a.wrapping_sub(b)
}

fn product(a: i64, b: i64) -> i64
    ensures { result ≡ wrapped (a *ℤ b) }
{
    a.wrapping_mul(b)
}

fn negation(a: i64) -> i64
    ensures { result ≡ wrapped (neg_ℤ a) }
{
    a.wrapping_neg()
}

/// The quotient, toward zero; 0 where the divisor is 0. The least number by -1 is the least number.
fn quotient(a: i64, b: i64) -> i64
    ensures { result ≡ quotient a b }
{
    if b == 0 { 0 } else { a.wrapping_div(b) }
}

/// What the quotient leaves.
fn remainder(a: i64, b: i64) -> i64
    ensures { result ≡ remainder a b }
{
    difference(a, product(quotient(a, b), b))
}

impl Operator {
    /// The value of the operator between two values.
    pub fn between(self, left: Value, right: Value) -> Value
        ensures { result ≡ result_of self left right }
    {
        match self {
            Operator::Or => Value::Bool(truth_of(left) || truth_of(right)),
            Operator::Xor => Value::Bool(truth_of(left) != truth_of(right)),
            Operator::And => Value::Bool(truth_of(left) && truth_of(right)),
            Operator::Equal => Value::Bool(left == right),
            Operator::Unequal => Value::Bool(left != right),
            Operator::Less => Value::Bool(number_of(left) < number_of(right)),
            Operator::AtMost => Value::Bool(number_of(left) <= number_of(right)),
            Operator::Greater => Value::Bool(number_of(left) > number_of(right)),
            Operator::AtLeast => Value::Bool(number_of(left) >= number_of(right)),
            Operator::Plus => Value::Int(sum(number_of(left), number_of(right))),
            Operator::Minus => Value::Int(difference(number_of(left), number_of(right))),
            Operator::Times => Value::Int(product(number_of(left), number_of(right))),
            Operator::Over => Value::Int(quotient(number_of(left), number_of(right))),
            Operator::Modulo => Value::Int(remainder(number_of(left), number_of(right))),
        }
    }
}

impl Prefix {
    /// The value of the operator before a value.
    pub fn before(self, value: Value) -> Value
        ensures { result ≡ prefixed self value }
    {
        match self {
            Prefix::Not => Value::Bool(!truth_of(value)),
            Prefix::Negated => Value::Int(negation(number_of(value))),
        }
    }
}
