//! Timings of flows over one another.

ghost use Rattle.std.specs.Prelude.{◌≡◌, ◌≢◌, ◌↔◌, IsTrue, IfOk, OnErr, Some, neg_ℤ, pos, true, false};
ghost use Rattle.prl_ast.specs.InRange.{IfThere};
ghost use Rattle.prl_flow.specs.declared.standings.Timing.{Timing};
ghost use Rattle.prl_clock.specs.code.Composition.{HasParts, IsComposed, IsComposedPast, IsOverPast, IsSmallTiming};

use crate::fractions::sum_of;
use prl_base::{Past, Ratio};
use prl_flow::Timing;

/// The same with the other sign.
fn negated(ratio: Ratio) -> Ratio
    ensures num { result.num ≡ neg_ℤ ratio.num }
    ensures den { result.den ≡ ratio.den }
{
    Ratio {
        num: -ratio.num,
        den: ratio.den,
    }
}

/// A flow over a third one, from that flow over a second and the second over the third.
pub fn composed(first: Timing, second: Timing) -> Result<Timing, Past>
    ensures composed { IfOk result (IsComposed first second) }
    ensures small { IfOk result IsSmallTiming }
    ensures past { OnErr result (IsComposedPast first second) }
{
    let period = first.period.mul(second.period)?;
    let start = sum_of(second.start, first.start, second.period)?;
    Ok(Timing { period, start })
}

/// A second flow over a third one, from a first flow over the third and the first over the second.
pub fn over(whole: Timing, first: Timing) -> Result<Timing, Past>
    requires { first.period.num ≢ pos 0 }
    ensures composed { IfOk result (λ second. IsComposed first second whole) }
    ensures small { IfOk result IsSmallTiming }
    ensures past { OnErr result (IsOverPast first whole) }
{
    let period = whole.period.div(first.period)?;
    let start = sum_of(whole.start, negated(first.start), period)?;
    Ok(Timing { period, start })
}

/// Whether a flow that is `link` over a second one, which is `second` over a third, is `whole`
/// over the third.
pub fn fits(link: Timing, second: Timing, whole: Timing) -> bool
    requires link { HasParts link }
    requires second { HasParts second }
    requires whole { IsSmallTiming whole }
    ensures yes { result ≡ true → IsComposed link second whole }
    ensures no { result ≡ false → IsComposed link second whole → ⊥ }
{
    match composed(link, second) {
        Ok(timing) => timing == whole,
        Err(Past) => false,
    }
}

/// Whether the clocks of two flows, the first of which is `link` over the second, agree where both
/// are there.
pub fn agree(link: Timing, second: Option<Timing>, first: Option<Timing>) -> bool
    requires link { HasParts link }
    requires second { IfThere HasParts second }
    requires first { IfThere IsSmallTiming first }
    ensures yes { result ≡ true → (s t : Timing) → second ≡ Some s → first ≡ Some t → IsComposed link s t }
    ensures no { result ≡ false → (s : Timing) × (t : Timing) × (second ≡ Some s) × (first ≡ Some t) × (IsComposed link s t → ⊥) }
{
    match second {
        Some(known) => match first {
            Some(clock) => fits(link, known, clock),
            None => true,
        },
        None => true,
    }
}
