//! The shortest list that repeats as a list does.

ghost use Rattle.std.specs.Prelude.{◌≡◌, ◌≤◌, ◌↔◌, IsTrue, length};
ghost use Rattle.prl_plan.specs.Repeats.{ComesWithin, IsLeastRepeat};

/// Whether so many places later the same stands, as far as the list goes.
fn comes_within<T: PartialEq>(list: &[T], step: usize) -> bool
    requires within { step ≤ length list.now }
    requires equality { (x y : T) → IsTrue (T.eq x y) ↔ (x ≡ y) }
    ensures { IsTrue result ↔ ComesWithin list.now step }
{
    for i in 0..list.len() - step {
        if list[i + step] != list[i] {
            return false;
        }
    }
    true
}

/// The length of the shortest list that repeats as this one does, which has an element. It takes no
/// memory.
pub fn shortest_repeat<T: PartialEq>(list: &[T]) -> usize
    requires some { 1 ≤ length list.now }
    requires equality { (x y : T) → IsTrue (T.eq x y) ↔ (x ≡ y) }
    ensures { IsLeastRepeat list.now result }
{
    for step in 1..list.len() {
        if list.len() % step == 0 && comes_within(list, step) {
            return step;
        }
    }
    list.len()
}
