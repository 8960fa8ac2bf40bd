//! The least number of cells that fit, by division.

ghost use Rattle.std.specs.Prelude.{◌≡◌, ◌+◌, ◌<◌, ◌≤◌, ◌^◌, ◌↔◌, ℕ, length, slice_index};
ghost use Rattle.prl_plan.specs.declared.limits.TheConstants.{MAX_HYPER};
ghost use Rattle.prl_numbers.specs.Counts.{at_turn, AreReleased, IsLeastTurn};

/// How many of the releases, which do not fall, are before the date.
fn count_before(releases: &[u64], date: u64) -> usize
    requires { (x y : ℕ) → x ≤ y → y < length releases.now → slice_index releases.now x ≤ slice_index releases.now y }
    ensures within { result ≤ length releases.now }
    ensures before { (x : ℕ) → x < result → slice_index releases.now x < date }
    ensures after { (x : ℕ) → result ≤ x → x < length releases.now → date ≤ slice_index releases.now x }
{
    let mut low = 0;
    let mut high = releases.len();
    while low < high {
        let middle = low + (high - low) / 2;
        if releases[middle] < date {
            low = middle + 1;
        } else {
            high = middle;
        }
    }
    low
}

/// How many used instances are released before the date, where the releases of one hyperperiod come again in each.
fn released_before(releases: &[u64], hyper: u64, date: u64) -> u64
    requires released { AreReleased releases.now hyper }
    requires hyper { hyper ≤ MAX_HYPER }
    requires date { date < 2 ^ 50 }
    ensures count { (x : ℕ) → (x < result) ↔ (at_turn releases.now hyper x < date) }
    ensures small { result ≤ date + hyper }
{
    if date <= releases[0] {
        return 0;
    }
    let turns = (date - 1 - releases[0]) / hyper;
    let rest = count_before(releases, date - turns * hyper);
    turns * releases.len() as u64 + rest as u64
}

/// The least number of cells, at least one, such that each used instance is over when the one that takes its cell next is
/// released: by the releases of one hyperperiod, and the ends of the lives of its instances.
pub fn least_count(releases: &[u64], hyper: u64, ends: &[u64]) -> u64
    requires released { AreReleased releases.now hyper }
    requires hyper { hyper ≤ MAX_HYPER }
    requires ends { (k : ℕ) → k < length ends.now → slice_index ends.now k < 2 ^ 50 }
    ensures least { IsLeastTurn releases.now hyper ends.now (length ends.now) result }
    ensures small { result < 2 ^ 51 }
{
    let mut count = 1;
    for k in 0..ends.len() {
        let before = released_before(releases, hyper, ends[k]);
        let needed = before.saturating_sub(k as u64);
        if count < needed {
            count = needed;
        }
    }
    count
}
