//! What rates and operators say of clocks.

ghost use Rattle.std.specs.Prelude.{◌≡◌, ◌≤◌, ◌<◌, ◌++◌, ℕ, List, [], ◌∷◌, length, pos, IfErr, IfOk, OnErr, OnOk, true, false};
ghost use Rattle.prl_base.specs.Operators.{IsOperatorFor};
ghost use Rattle.prl_base.specs.declared.ratios.TheConstants.{MAX_PART};
ghost use Rattle.prl_base.specs.declared.values.Ty.{Ty};
ghost use Rattle.prl_ast.specs.InRange.{IsRate};
ghost use Rattle.prl_clock.specs.Constraints.{Placed, rated, timing_of_operator, timing_of_rate};
ghost use Rattle.prl_flow.specs.Standings.{over_one, same_clock};
ghost use Rattle.prl_clock.specs.code.Rates.{IsReducedTiming, IsTimingPast};
ghost use Rattle.prl_clock.specs.code.Standings.{IsLink, IsRefused, IsSolved};

use crate::standings::Standings;
use crate::steps::Refusal;
use crate::timings::over;
use prl_ast::Rate;
use prl_base::{Op, Past, Ratio};
use prl_flow::Timing;

/// A whole number as a ratio.
fn whole(number: u32) -> Ratio
    requires { number ≤ MAX_PART }
    ensures { result ≡ over_one number }
{
    Ratio {
        num: i64::from(number),
        den: 1,
    }
}

/// One of so many parts.
fn part(count: u32) -> Ratio
    requires some { 1 ≤ count }
    requires small { count ≤ MAX_PART }
    ensures { result ≡ record { num = pos 1; den = count } }
{
    Ratio {
        num: 1,
        den: u64::from(count),
    }
}

/// The rate's period and start in ticks.
fn clock_of(rate: &Rate) -> Result<Timing, Past>
    requires { IsRate rate.now }
    ensures timing { IfOk result (IsReducedTiming (timing_of_rate rate.now)) }
    ensures past { OnErr result (IsTimingPast (timing_of_rate rate.now)) }
{
    let period = whole(rate.period);
    let start = period.mul(rate.phase)?;
    Ok(Timing { period, start })
}

/// Whether the clock is that of the rate.
fn has_rate(rate: &Rate, clock: Timing) -> bool
    requires { IsRate rate.now }
    ensures yes { result ≡ true → IsReducedTiming (timing_of_rate rate.now) clock }
    ensures no { result ≡ false → IsReducedTiming (timing_of_rate rate.now) clock → ⊥ }
{
    match clock_of(rate) {
        Ok(timing) => timing == clock,
        Err(Past) => false,
    }
}

/// Takes the constraint that flow `x` has the rate.
pub fn rate_flow(standings: &mut Standings, x: usize, rate: &Rate) -> Result<(), Refusal>
    requires solved { (cs : List Placed) × IsSolved cs standings.old }
    requires rate { IsRate rate.now }
    requires x { x < length standings.old }
    ensures count { OnOk result (length standings.new ≡ length standings.old) }
    ensures solved { (cs : List Placed) (at : ℕ) → IsSolved cs standings.old
        → OnOk result (IsSolved (cs ++ record { constraint = rated x (timing_of_rate rate.now); at = at } ∷ []) standings.new) }
    ensures refused { (cs : List Placed) (at : ℕ) → IsSolved cs standings.old
        → IfErr result (IsRefused (cs ++ record { constraint = rated x (timing_of_rate rate.now); at = at } ∷ [])) }
{
    let standing = standings.at(x);
    match standing.clock {
        Some(known) => {
            if has_rate(rate, known) {
                Ok(())
            } else {
                Err(Refusal::Mismatch)
            }
        }
        None => {
            let clock = clock_of(rate)?;
            let root = over(clock, standing.over)?;
            standings.time(standing.root, &root)?;
            Ok(())
        }
    }
}

/// Two flows of one clock.
pub fn same_clock() -> Timing
    ensures timing { result ≡ same_clock }
    ensures link { IsLink result }
{
    Timing {
        period: whole(1),
        start: whole(0),
    }
}

/// The operator's result over the flow that it stands on.
pub fn timing_of_operator(op: &Op) -> Timing
    requires { (ty : Ty) × IsOperatorFor ty op.now }
    ensures timing { result ≡ timing_of_operator op.now }
    ensures link { IsLink result }
{
    let one = whole(1);
    let zero = whole(0);
    match op {
        Op::Fby(_) => Timing {
            period: one,
            start: zero,
        },
        Op::Cons(_) => Timing {
            period: one,
            start: Ratio { num: -1, den: 1 },
        },
        Op::Tail => Timing {
            period: one,
            start: one,
        },
        Op::Up(count) => Timing {
            period: part(*count),
            start: zero,
        },
        Op::Down(count) => Timing {
            period: whole(*count),
            start: zero,
        },
        Op::Shift(by) => Timing {
            period: one,
            start: *by,
        },
    }
}
