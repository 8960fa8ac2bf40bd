//! Which number of a flow the operators take to a number of the flow that is made of it.

ghost use Rattle.std.specs.Prelude.{◌≡◌, ◌<◌, ◌^◌};
ghost use Rattle.prl_plan.specs.Vocabulary.{reader_before, HasFactor};

use prl_base::Op;

/// The first number that the operator takes to `p` or higher.
pub fn reader_before(op: &Op, p: u64) -> u64
    requires factor { HasFactor op.now }
    requires fits { reader_before op.now p < 2 ^ 64 }
    ensures { result ≡ reader_before op.now p }
{
    match *op {
        Op::Up(k) => u64::from(k) * p,
        Op::Down(k) => p.div_ceil(u64::from(k)),
        Op::Shift(_) => p,
        Op::Tail => p.saturating_sub(1),
        Op::Fby(_) | Op::Cons(_) => p + 1,
    }
}
