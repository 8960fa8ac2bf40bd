//! The types of operators: of their operands, and of their results.

ghost use Rattle.std.specs.Prelude.{◌≡◌};
ghost use Rattle.prl_base.specs.BodyTypes.{is_same_type, are_allowed, operand_type, result_type, prefix_type};

use crate::body_operators::{Operator, Prefix};
use crate::values::Ty;

impl Operator {
    /// The type of its operands; none where it takes two of any one type.
    pub fn operand_type(self) -> Option<Ty>
        ensures { result ≡ operand_type self }
    {
        match self {
            Operator::Or | Operator::Xor | Operator::And => Some(Ty::Bool),
            Operator::Equal | Operator::Unequal => None,
            Operator::Less | Operator::AtMost | Operator::Greater | Operator::AtLeast => {
                Some(Ty::Int)
            }
            Operator::Plus
            | Operator::Minus
            | Operator::Times
            | Operator::Over
            | Operator::Modulo => Some(Ty::Int),
        }
    }

    /// The type of its result.
    pub fn result_type(self) -> Ty
        ensures { result ≡ result_type self }
    {
        match self {
            Operator::Plus
            | Operator::Minus
            | Operator::Times
            | Operator::Over
            | Operator::Modulo => Ty::Int,
            Operator::Or | Operator::Xor | Operator::And => Ty::Bool,
            Operator::Equal | Operator::Unequal => Ty::Bool,
            Operator::Less | Operator::AtMost | Operator::Greater | Operator::AtLeast => Ty::Bool,
        }
    }

    /// Whether operands of these types fit the operator.
    pub fn allows(self, left: Ty, right: Ty) -> bool
        ensures { result ≡ are_allowed (operand_type self) left right }
    {
        match self.operand_type() {
            None => is_same_type(left, right),
            Some(ty) => is_same_type(left, ty) && is_same_type(right, ty),
        }
    }
}

impl Prefix {
    /// The type of its operand and of its result.
    pub fn ty(self) -> Ty
        ensures { result ≡ prefix_type self }
    {
        match self {
            Prefix::Not => Ty::Bool,
            Prefix::Negated => Ty::Int,
        }
    }
}

/// Whether the two types are the same.
pub fn is_same_type(a: Ty, b: Ty) -> bool
    ensures { result ≡ is_same_type a b }
{
    a == b
}
