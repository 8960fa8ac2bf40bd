//! Why names, arity or types of a program are refused.

ghost use Rattle.std.specs.Prelude.{◌≡◌};
ghost use Rattle.prl_types.specs.declared.faults.TypeFault.TheVariants.{Memory};
ghost use Rattle.prl_types.specs.Typing.{of_names};

use prl_base::{Name, Ty};
use prl_names::NameFault;
use std::alloc::AllocError;

/// Why a program is refused. `check_names_types` says in which order the faults are looked for.
#[derive(Drop)]
pub enum TypeFault {
    /// A name that is declared or defined a second time; number 11.
    Twice(Name),
    /// A name that is used and stands for nothing, or an input or output of main without a device; number 10.
    Unknown(Name),
    /// An output or a local without an equation; number 15.
    Undefined(Name),
    /// A node that applies itself through a cycle of applications; number 16.
    Recursive(Name),
    /// The program has no node at all, or no node has the name that was asked for; number 14.
    NoMain,
    /// Where an operator, an application's name or an equation stands whose flows are too few or too many; number 12.
    Arity(u32),
    /// Where the first type rule comes from that contradicts the earlier ones, and the types that these give its two
    /// sides; number 13.
    Mismatch { at: u32, wanted: Ty, found: Ty },
    /// A flow of a node whose type the rules leave open; number 17.
    TypeFree { node: Name, name: Name },
    Memory,
}

impl From<AllocError> for TypeFault {
    ghost from_gives = { λ _ e. e ≡ Memory };

    fn from(_error: AllocError) -> TypeFault {
        TypeFault::Memory
    }
}

impl From<NameFault> for TypeFault {
    ghost from_gives = { λ fault e. e ≡ of_names fault };

    fn from(fault: NameFault) -> TypeFault {
        match fault {
            NameFault::Twice(name) => TypeFault::Twice(name),
            NameFault::Unknown(name) => TypeFault::Unknown(name),
            NameFault::Undefined(name) => TypeFault::Undefined(name),
            NameFault::Recursive(name) => TypeFault::Recursive(name),
            NameFault::NoMain => TypeFault::NoMain,
            NameFault::Memory => TypeFault::Memory,
        }
    }
}
