//! Where one table of dates is above another, and how late a job may end before another one.

ghost use Rattle.std.specs.Prelude.{◌≡◌, ◌+◌, ◌-◌, ◌<◌, ◌≤◌, ◌^◌, ℕ, length, MatchOption, slice_index};

/// The first of `count` places from an index on at which one table is above the other.
pub fn above_in(high: &[u64], low: &[u64], first: u64, count: u64) -> Option<u64>
    requires high { first + count ≤ length high.now }
    requires low { first + count ≤ length low.now }
    ensures { MatchOption result ((p : ℕ) → p < count → slice_index high.now (first + p) ≤ slice_index low.now (first + p))
        (λ n. (n < count) × (slice_index low.now (first + n) < slice_index high.now (first + n))
        × ((p : ℕ) → p < n → slice_index high.now (first + p) ≤ slice_index low.now (first + p))) }
{
    for p in 0..count {
        let index = (first + p) as usize;
        if high[index] > low[index] {
            return Some(p);
        }
    }
    None
}

/// The latest end of a job after which a later one still has the time of its WCET: the later one is to end by `end`, counted
/// from its own release, which comes `gap` ticks after that of the job.
pub fn latest_end(end: u64, gap: u64, wcet: u64) -> u64
    requires fits { end + gap < 2 ^ 64 }
    requires room { wcet ≤ end + gap }
    ensures { result ≡ end + gap - wcet }
{
    let by = end + gap;
    by - wcet
}
