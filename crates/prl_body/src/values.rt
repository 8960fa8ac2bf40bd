//! The value of an expression.

ghost use Rattle.std.specs.Prelude.{◌≡◌};
ghost use Rattle.prl_body.specs.Codes.{expression_of};
ghost use Rattle.prl_base.specs.BodyOperators.{truth_of};
ghost use Rattle.prl_body.specs.Values.{variable_value, prefixed_times, value};

use crate::codes::{Code, Variable};
use prl_base::{Prefix, Value, truth_of};

/// The value of the input or the register; 0 where there is none of this number.
fn variable_value(inputs: &[Value], registers: &[Value], variable: Variable) -> Value
    ensures { result ≡ variable_value inputs.now registers.now variable }
{
    let (values, at) = match variable {
        Variable::Input(at) => (inputs, at),
        Variable::Register(at) => (registers, at),
    };
    match values.get(at) {
        Some(value) => *value,
        None => Value::Int(0),
    }
}

/// The value with the operator before it so many times.
fn prefixed_times(prefix: Prefix, times: usize, value: Value) -> Value
    ensures { result ≡ prefixed_times prefix times value }
{
    let mut value = value;
    for _ in 0..times {
        value = prefix.before(value);
    }
    value
}

/// The value of the expression for these inputs and registers.
pub fn value_of(code: &Code, inputs: &[Value], registers: &[Value]) -> Value
    ensures { result ≡ value inputs.now registers.now (expression_of code.now) }
{
    match code {
        Code::Const(value) => *value,
        Code::Name(variable) => variable_value(inputs, registers, *variable),
        Code::Run { prefix, times, of } => {
            prefixed_times(*prefix, *times, value_of(of, inputs, registers))
        }
        Code::Series { first, rights } => {
            let mut value = value_of(first, inputs, registers);
            for pair in rights {
                value = pair
                    .operator
                    .between(value, value_of(&pair.right, inputs, registers));
            }
            value
        }
        Code::If {
            test,
            chosen,
            other,
        } => {
            if truth_of(value_of(test, inputs, registers)) {
                value_of(chosen, inputs, registers)
            } else {
                value_of(other, inputs, registers)
            }
        }
    }
}
