//! Where a tick stands in a picture.

ghost use Rattle.std.specs.Prelude.{◌≡◌, ◌<◌, ◌^◌};
ghost use Rattle.prl_drawing.specs.Scales.{is_seen, IsScale, x_of, x_within};

/// Where the first tick stands, in tenths of a pixel.
pub const LEFT: u64 = 1_600;

/// How wide all ticks are together, in tenths of a pixel.
pub const WIDTH: u64 = 10_000;

/// What ticks are drawn, and how wide.
#[derive(Clone, Copy)]
pub struct Scale {
    /// The first tick.
    pub from: u64,
    /// The jobs that are released at this tick or later are not drawn.
    pub until: u64,
    /// How many ticks the width stands for.
    pub span: u64,
}

/// Where a tick stands, in tenths of a pixel: a tick before the first one stands where that does.
pub fn x_of(scale: Scale, tick: u64) -> u64
    requires tick { tick < 2 ^ 34 }
    requires span { 0 < scale.span }
    ensures { result ≡ x_of scale tick }
{
    LEFT + tick.saturating_sub(scale.from) * WIDTH / scale.span
}

/// Where a tick stands; one behind the last stands where that does.
pub fn x_within(scale: Scale, tick: u64) -> u64
    requires range { IsScale scale }
    ensures { result ≡ x_within scale tick }
{
    x_of(scale, tick.min(scale.from + scale.span))
}

/// Whether some ticks of an interval are drawn.
pub fn is_seen(scale: Scale, from: u64, to: u64) -> bool
    requires from { scale.from < 2 ^ 32 }
    requires span { scale.span < 2 ^ 33 }
    ensures { result ≡ is_seen scale from to }
{
    scale.from < to && from < scale.from + scale.span
}
