//! A law of overlaps.

ghost use Rattle.std.specs.Prelude.{◌≢◌, ◌+◌, ◌<◌, ◌≤◌, ◌⊎◌, ℕ};

/// In order of place, four tests tell whether a stretch meets another one.
pub fn four_tests_tell_clashes()
    ensures seen { (hyper count : ℕ) (place end : ℕ → ℕ) → ((p q : ℕ) → p ≤ q → q < count → place p ≤ place q) →
        ((p : ℕ) → p < count → (place p < end p) × (end p ≤ place p + hyper) × (place p < hyper)) →
        (p q : ℕ) → p < count → q < count → q ≢ p →
        (((place p < end q) × (place q < end p)) ⊎ ((place p + hyper < end q) ⊎ (place q + hyper < end p))) →
        ((r : ℕ) × (r < p) × (place p < end r)) ⊎ (((p + 1 < count) × (place (p + 1) < end p))
        ⊎ ((place 0 + hyper < end p) ⊎ ((r : ℕ) × (r < count) × (place p + hyper < end r)))) }
    ensures other { (hyper count : ℕ) (place end : ℕ → ℕ) → ((p q : ℕ) → p ≤ q → q < count → place p ≤ place q) →
        ((p : ℕ) → p < count → (place p < end p) × (end p ≤ place p + hyper) × (place p < hyper)) → (p : ℕ) → p < count →
        (((r : ℕ) × (r < p) × (place p < end r)) ⊎ (((p + 1 < count) × (place (p + 1) < end p))
        ⊎ ((place 0 + hyper < end p) ⊎ ((r : ℕ) × (r < count) × (place p + hyper < end r))))) →
        (q : ℕ) × (q < count) × (q ≢ p) × (((place p < end q) × (place q < end p)) ⊎ ((place p + hyper < end q) ⊎ (place q + hyper < end p))) }
{}
