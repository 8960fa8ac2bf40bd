//! Where a row stands in a picture, and its colour.

ghost use Rattle.std.specs.Prelude.{◌≡◌, ◌%◌, ◌<◌, ◌^◌};
ghost use Rattle.prl_drawing.specs.Rows.{row_of};

/// How far the first row is from the top, in tenths of a pixel.
pub const TOP: u64 = 1_000;

/// How high a row is.
pub const ROW: u64 = 420;

/// How far a window is below the top of its row.
pub const GAP: u64 = 60;

/// How many colours there are.
pub const COLOURS: u64 = 8;

/// How far a row is from the top.
pub fn row_of(row: u32) -> u64
    ensures exact { result ≡ row_of row }
    ensures small { result < 2 ^ 42 }
{
    TOP + u64::from(row) * ROW
}

/// The colour of a task.
pub fn colour_of(task: u32) -> u64
    ensures { result ≡ task % COLOURS }
{
    u64::from(task) % COLOURS
}
