//! The values that operators make, by their numbers.

ghost use Rattle.std.specs.Prelude.{◌≡◌, ◌≤◌, length, Some};
ghost use Rattle.prl_base.specs.Operators.{after_constant};
ghost use Rattle.prl_flow.specs.Instances.{HasInstance, instance_of_operator, value_from};

use prl_base::{Op, Value};

/// The value of instance `n` of the operator's result, from the first values of the flow that it
/// stands on.
pub fn instance_of_operator(op: Op, of: &[Value], n: usize) -> Value
    requires { HasInstance op (length of.now) n }
    ensures { instance_of_operator op of.now n ≡ Some result }
{
    match op {
        Op::Fby(first) => after_constant(first, of, n),
        Op::Cons(first) => after_constant(first, of, n),
        Op::Tail => of[n + 1],
        Op::Up(factor) => of[n / factor as usize],
        Op::Down(factor) => of[factor as usize * n],
        Op::Shift(_) => of[n],
    }
}

/// The constant first, and then the values of the flow.
fn after_constant(first: Value, of: &[Value], n: usize) -> Value
    requires { n ≤ length of.now }
    ensures { value_from of.now (after_constant first n) ≡ Some result }
{
    if n == 0 { first } else { of[n - 1] }
}
