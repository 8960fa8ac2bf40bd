//! Strictly periodic clocks, and the operators on flows.

ghost use Rattle.std.specs.Prelude.{◌≡◌};
ghost use Rattle.prl_base.specs.Operators.{delays};

use crate::{Ratio, Value};

/// The greatest factor of `*^` and `/^`: 2^31 - 1.
pub const MAX_FACTOR: u64 = 2_147_483_647;

/// A strictly periodic clock, in ticks: the dates `start`, `start + period`, `start + 2 * period`
/// and so on. A clock of the language has a period of at least 1 (`IsClock` in contracts).
#[derive(Clone, Copy)]
pub struct Clock {
    pub period: u64,
    pub start: u64,
}

/// An operator on one flow. Pagetti, Forget, Boniol, Cordovil and Lesens, "Multi-task implementation
/// of multi-periodic synchronous programs" (2011), has the operators; the dates that each of them reads
/// are `OperatorByDate` in the crate of flows, the clocks of their results `IsResultClock`, their ranges
/// `IsOperatorFor`.
#[derive(Clone, Copy, PartialEq, Eq)]
pub enum Op {
    /// `c fby x`: one period late, the constant first.
    Fby(Value),
    /// `c :: x`: the constant one period before the first value of `x`.
    Cons(Value),
    /// `tail x`: without the first value.
    Tail,
    /// `x *^ k`: each value `k` times.
    Up(u32),
    /// `x /^ k`: the first of each `k` values.
    Down(u32),
    /// `x ~> q`: later by `q` periods.
    Shift(Ratio),
}

impl Op {
    /// Whether the result has only values of earlier dates.
    pub fn delays(&self) -> bool
        ensures { result ≡ delays self.now }
    {
        match self {
            Op::Fby(_) => true,
            Op::Cons(_) => false,
            Op::Tail => false,
            Op::Up(_) => false,
            Op::Down(_) => false,
            Op::Shift(by) => by.num > 0,
        }
    }
}
