//! Rows that are above a limit.

ghost use Rattle.std.specs.Prelude.{◌≡◌, ◌++◌, ◌∷◌, [], IfOk, OnOk, cond};
ghost use Rattle.prl_times.specs.Limits.{is_above, is_far, is_old, rows_above};

use prl_ages::{SkewVerdict, Verdict};
use prl_timetext::Row;
use std::alloc::{AllocError, Global};

/// Whether an age is above a limit, or not known.
fn is_old(limit: u64, verdict: Verdict) -> bool
    ensures { result ≡ is_old limit verdict }
{
    match verdict {
        Verdict::Never => false,
        Verdict::Late(_) => true,
        Verdict::Known(ages) => limit < ages.used.ticks,
    }
}

/// Whether a skew is above a limit, or not known.
fn is_far(limit: u64, verdict: SkewVerdict) -> bool
    ensures { result ≡ is_far limit verdict }
{
    match verdict {
        SkewVerdict::Apart => false,
        SkewVerdict::TooMany(_) => true,
        SkewVerdict::Greatest(skew) => limit < skew.ticks,
    }
}

/// Whether a row tells an age or a skew that is above a limit, or not known.
fn is_above(limit: u64, row: &Row) -> bool
    ensures { result ≡ is_above limit row.now }
{
    match *row {
        Row::Load { .. } => false,
        Row::Age { verdict, .. } => is_old(limit, verdict),
        Row::Chain { verdict, .. } => is_old(limit, verdict),
        Row::Skew { verdict, .. } => is_far(limit, verdict),
        Row::Task { .. } => false,
        Row::Overload { .. } => false,
        Row::ForEver(_) => false,
    }
}

/// Appends a row, if it is above a limit.
fn push_above(above: &mut Vec<Row>, limit: u64, row: &Row) -> Result<(), AllocError>
    ensures { OnOk result (above.new.items ≡ above.old.items ++ cond (is_above limit row.now) (row.now ∷ []) []) }
{
    if is_above(limit, row) {
        above.push(*row)?;
    }
    Ok(())
}

/// The rows that are above a limit.
pub(crate) fn above(alloc: Global, limit: u64, rows: &[Row]) -> Result<Vec<Row>, AllocError>
    ensures { IfOk result (λ above. above.items ≡ rows_above limit rows.now) }
{
    let mut above = Vec::new(alloc);
    for row in rows {
        push_above(&mut above, limit, row)?;
    }
    Ok(above)
}
