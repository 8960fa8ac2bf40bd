//! After how many jobs the jobs that precede them come again, each as much later as the others.

ghost use Rattle.std.specs.Prelude.{◌≡◌, ◌<◌, ◌≤◌, ◌^◌, ℤ, pos, IfSome};
ghost use Rattle.prl_plan.specs.Ranges.{HasFactor, PrecedingFits};
ghost use Rattle.prl_dates.specs.code.Turns.{StepsBy, IsTurnUnder};

use prl_base::{Op, gcd};

/// So many jobs later the job that precedes is so many jobs later.
#[derive(Clone, Copy)]
pub(crate) struct Turn {
    pub jobs: u64,
    pub higher: u64,
}

/// The turn with one more operator at the producer's end; nothing where its numbers do not fit.
fn turn_under(turn: Turn, op: &Op) -> Option<Turn>
    requires { HasFactor op.now }
    ensures { IfSome result (IsTurnUnder op.now turn) }
{
    let Turn { jobs, higher } = turn;
    match *op {
        Op::Up(k) => {
            let common = gcd(u64::from(k), higher);
            Some(Turn {
                jobs: jobs.checked_mul(u64::from(k) / common)?,
                higher: higher / common,
            })
        }
        Op::Down(k) => Some(Turn {
            jobs,
            higher: higher.checked_mul(u64::from(k))?,
        }),
        _ => Some(turn),
    }
}

/// The turn of these operators; nothing where its numbers do not fit.
fn turn_over(ops: &[Op]) -> Option<Turn>
    requires { (n : ℤ) × PrecedingFits ops.now n }
    ensures some { IfSome result (λ turn. 1 ≤ turn.jobs) }
    ensures steps { IfSome result (λ turn. StepsBy ops.now turn.jobs turn.higher) }
{
    let mut turn = Turn { jobs: 1, higher: 1 };
    for op in ops {
        turn = turn_under(turn, op)?;
    }
    Some(turn)
}

/// The turn of these operators, where it is shorter than so many jobs.
pub(crate) fn turn_within(ops: &[Op], jobs: u64) -> Turn
    requires some { 1 ≤ jobs }
    requires fits { (n : ℤ) × PrecedingFits ops.now n }
    ensures some { 1 ≤ result.jobs }
    ensures within { result.jobs ≤ jobs }
    ensures small { result.higher < 2 ^ 63 }
    ensures steps { result.jobs < jobs → StepsBy ops.now result.jobs result.higher }
{
    match turn_over(ops) {
        Some(turn) if turn.jobs < jobs && turn.higher < 1 << 63 => turn,
        _ => Turn { jobs, higher: 0 },
    }
}
