//! What calls were about, for contracts alone.

ghost use Rattle.std.specs.Prelude.{◌≡◌, ◌++◌, ◌∷◌, [], List, ℕ};
ghost use Rattle.std.specs.Borrow.{ftrue};

use std::marker::Model;

/// What each call of some kind was about, in order, as each that failed: the name of a file, or the bytes of a piece. It is
/// a list of the contracts alone and takes no bytes: no program keeps a list, or a count, that grows at every call.
#[derive(Drop)]
pub struct Mentions {
    pub ghost all: { List (List ℕ) },
}

impl Model for Mentions {
    ghost also_owns = { λ _. ftrue };
}

impl Mentions {
    /// No call yet.
    pub(crate) fn new() -> Mentions
        ensures { result.all ≡ [] }
    {
        Mentions {}
    }

    /// A call about this, too.
    pub(crate) fn one_more(_before: &Mentions, _about: &[u8]) -> Mentions
        ensures { result.all ≡ _before.now.all ++ (_about.now ∷ []) }
    {
        Mentions {}
    }
}
