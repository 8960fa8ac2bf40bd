//! Why a text of bodies is refused.

ghost use Rattle.std.specs.Prelude.{◌≡◌};
ghost use Rattle.prl_body.specs.declared.faults.BodyFault.TheVariants.{Memory};

use prl_base::{Limit, Name};
use std::alloc::{AllocError, AllocFailed};

/// Why bodies are refused. Numbers count the bytes of the text from 0.
#[derive(Drop)]
pub enum BodyFault {
    /// A token that no text of the grammar has there, or a number out of range; number 23.
    Syntax(u32),
    /// A name is too long, or parentheses stand too deep; number 4.
    Limit(Limit),
    /// A name that the body may not have there; number 24.
    BodyName(u32),
    /// An operator with an operand of a wrong type, or a statement of another type than its left name;
    /// number 22.
    BodyType(u32),
    /// A body with an output that has no statement; number 21.
    BodyArity(u32),
    /// A used import without a body; number 20.
    Missing(Name),
    Memory,
}

impl From<AllocError> for BodyFault {
    ghost from_gives = { λ _ e. e ≡ Memory };

    fn from(_error: AllocError) -> BodyFault {
        BodyFault::Memory
    }
}

impl<T: Drop> From<AllocFailed<T>> for BodyFault {
    ghost from_gives = { λ _ e. e ≡ Memory };

    fn from(_error: AllocFailed<T>) -> BodyFault {
        BodyFault::Memory
    }
}
