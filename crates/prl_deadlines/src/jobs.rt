//! What the dates of single jobs say at a moment, all in ticks.

ghost use Rattle.std.specs.Prelude.{◌-◌, ◌<◌, ◌≤◌};
ghost use Rattle.std.specs.Bool.{OnTrue, OnFalse};

/// Whether a job that is released at `release` and due at `deadline` goes before one that is due at `other`: at `now` it is
/// released, and it is due earlier.
pub fn goes_before(release: u64, deadline: u64, other: u64, now: u64) -> bool
    ensures yes { OnTrue result ((release ≤ now) × (deadline < other)) }
    ensures no { OnFalse result (release ≤ now → other ≤ deadline) }
{
    release <= now && deadline < other
}

/// Whether a job that is due at `deadline` is due at the tick after `now`, or was before.
pub fn is_due(deadline: u64, now: u64) -> bool
    requires { 1 ≤ deadline }
    ensures yes { OnTrue result (deadline - 1 ≤ now) }
    ensures no { OnFalse result (now < deadline - 1) }
{
    deadline - 1 <= now
}
