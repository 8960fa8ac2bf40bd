//! Clocks as periods and starts, and what rates and operators make of them.

ghost use Rattle.std.specs.Prelude.{◌≡◌, IfSome, pos};
ghost use Rattle.prl_clock.specs.Constraints.{timing_of_operator};
ghost use Rattle.prl_flow.specs.Standings.{over_one, same_clock};
ghost use Rattle.prl_clashes.specs.Links.{IsOver, IsRateTiming};

use prl_ast::Rate;
use prl_base::{MAX_PART, Op, Ratio};
use prl_clock::Timing;

/// A whole number as a ratio; None past the limit of its parts.
fn whole(number: u32) -> Option<Ratio>
    ensures { IfSome result (λ ratio. ratio ≡ over_one number) }
{
    if u64::from(number) > MAX_PART {
        return None;
    }
    Some(Ratio {
        num: i64::from(number),
        den: 1,
    })
}

/// One of so many parts; None for no parts, and past the limit.
fn part(count: u32) -> Option<Ratio>
    ensures { IfSome result (λ ratio. ratio ≡ record { num = pos 1; den = count }) }
{
    if count == 0 || u64::from(count) > MAX_PART {
        return None;
    }
    Some(Ratio {
        num: 1,
        den: u64::from(count),
    })
}

/// The clock that a rate declares; None past the limit of its parts.
pub(crate) fn rate_timing(rate: &Rate) -> Option<Timing>
    ensures { IfSome result (IsRateTiming rate.now) }
{
    let period = whole(rate.period)?;
    match period.mul(rate.phase) {
        Ok(start) => Some(Timing { period, start }),
        Err(_) => None,
    }
}

/// One clock.
pub(crate) fn same_clock() -> Timing
    ensures { result ≡ same_clock }
{
    Timing {
        period: Ratio { num: 1, den: 1 },
        start: Ratio { num: 0, den: 1 },
    }
}

/// An operator's result over the flow that it stands on; None past the limit of its parts.
pub(crate) fn timing_of_operator(op: &Op) -> Option<Timing>
    ensures { IfSome result (λ timing. timing ≡ timing_of_operator op.now) }
{
    let one = Ratio { num: 1, den: 1 };
    let zero = Ratio { num: 0, den: 1 };
    let less = Ratio { num: -1, den: 1 };
    match op {
        Op::Fby(_) => Some(Timing {
            period: one,
            start: zero,
        }),
        Op::Cons(_) => Some(Timing {
            period: one,
            start: less,
        }),
        Op::Tail => Some(Timing {
            period: one,
            start: one,
        }),
        Op::Up(count) => Some(Timing {
            period: part(*count)?,
            start: zero,
        }),
        Op::Down(count) => Some(Timing {
            period: whole(*count)?,
            start: zero,
        }),
        Op::Shift(by) => Some(Timing {
            period: one,
            start: *by,
        }),
    }
}

/// The clock of what is `link` over a flow of this clock; None past the limit of its parts.
pub(crate) fn over(link: &Timing, timing: &Timing) -> Option<Timing>
    ensures { IfSome result (IsOver link.now timing.now) }
{
    let Ok(period) = link.period.mul(timing.period) else {
        return None;
    };
    let Ok(shift) = link.start.mul(timing.period) else {
        return None;
    };
    match timing.start.add(shift) {
        Ok(start) => Some(Timing { period, start }),
        Err(_) => None,
    }
}

/// What may be the clock of a flow over which another one of this clock is `link`. Nothing is
/// promised of it.
fn guessed(link: &Timing, timing: &Timing) -> Option<Timing> {
    if link.period.num == 0 {
        return None;
    }
    let Ok(period) = timing.period.div(link.period) else {
        return None;
    };
    let Ok(shift) = link.start.mul(period) else {
        return None;
    };
    let less = Ratio::new(shift.num.checked_neg()?, shift.den).ok()?;
    match timing.start.add(less) {
        Ok(start) => Some(Timing { period, start }),
        Err(_) => None,
    }
}

/// The clock of a flow over which another one of this clock is `link`; None past the limit of
/// its parts.
pub(crate) fn under(link: &Timing, timing: &Timing) -> Option<Timing>
    ensures { IfSome result (λ found. IsOver link.now found timing.now) }
{
    let found = guessed(link, timing)?;
    let again = over(link, &found)?;
    if again == *timing { Some(found) } else { None }
}
