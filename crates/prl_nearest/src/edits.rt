//! How far two words are apart: what they begin with in common is passed over, and then a byte changes, comes or goes.

ghost use Rattle.std.specs.Prelude.{◌≡◌, ◌≤◌, drop, length, take};
ghost use Rattle.std.specs.Bool.{OnTrue};
ghost use Rattle.prl_nearest.specs.Edits.{IsWithin};

/// How many bytes two words begin with in common.
fn common(a: &[u8], b: &[u8]) -> usize
    ensures first { result ≤ length a.now }
    ensures second { result ≤ length b.now }
{
    let len = a.len().min(b.len());
    for i in 0..len {
        if a[i] != b[i] {
            return i;
        }
    }
    len
}

/// The bytes up to one.
fn up_to(word: &[u8], i: usize) -> &[u8]
    requires { i ≤ length word.now }
    ensures { result.now ≡ take i word.now }
{
    &word[..i]
}

/// The bytes from one on.
fn from(word: &[u8], i: usize) -> &[u8]
    requires { i ≤ length word.now }
    ensures { result.now ≡ drop i word.now }
{
    &word[i..]
}

/// The bytes behind the first.
fn behind(word: &[u8]) -> &[u8]
    ensures { result.now ≡ drop 1 word.now }
{
    if word.is_empty() { word } else { from(word, 1) }
}

/// Whether the first byte of one of the words changes, comes or goes, and they are the same then.
fn one_here(a: &[u8], b: &[u8]) -> bool
    ensures { OnTrue result (IsWithin 1 a.now b.now) }
{
    if behind(a) == behind(b) {
        return true;
    }
    if behind(a) == b {
        return true;
    }
    if a == behind(b) {
        return true;
    }
    false
}

/// Whether one edit or none makes the one word of the other.
pub(crate) fn within_one(a: &[u8], b: &[u8]) -> bool
    ensures { OnTrue result (IsWithin 1 a.now b.now) }
{
    let i = common(a, b);
    if up_to(a, i) == up_to(b, i) {
        let rest = from(a, i);
        let other = from(b, i);
        if one_here(rest, other) {
            return true;
        }
    }
    false
}

/// Whether the first byte of one of the words changes, comes or goes, and one edit or none is left then.
fn two_here(a: &[u8], b: &[u8]) -> bool
    ensures { OnTrue result (IsWithin 2 a.now b.now) }
{
    if within_one(behind(a), behind(b)) {
        return true;
    }
    if within_one(behind(a), b) {
        return true;
    }
    if within_one(a, behind(b)) {
        return true;
    }
    false
}

/// Whether two edits or fewer make the one word of the other.
pub(crate) fn within_two(a: &[u8], b: &[u8]) -> bool
    ensures { OnTrue result (IsWithin 2 a.now b.now) }
{
    let i = common(a, b);
    if up_to(a, i) == up_to(b, i) {
        let rest = from(a, i);
        let other = from(b, i);
        if two_here(rest, other) {
            return true;
        }
    }
    false
}
