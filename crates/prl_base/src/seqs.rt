//! Vectors as fields that contracts compare with lists.

ghost use Rattle.std.specs.Prelude.{◌≡◌, ◌==◌, length};
ghost use Rattle.std.specs.Vec.{vec_len};

use std::marker::Model;

/// A vector whose model is its list of items. A public field that a clause compares with a definition's value has this type
/// and not `Vec`, of which contracts see more than the items.
pub struct Seq<T> {
    items: Vec<T>,
}

impl<T> Model for Seq<T> {
    ghost use Rattle.std.specs.Prelude.{List};

    ghost Value = { List T };

    ghost view = { λ s. s.items.items };
}

impl<T> Seq<T> {
    /// The items of the vector. Takes no memory.
    pub fn new(items: Vec<T>) -> Self
        ensures { result ≡ items.items }
    {
        Seq { items }
    }

    /// The items as a slice.
    pub fn as_slice(&self) -> &[T]
        ensures { result.now ≡ self.now }
    {
        self.items.as_slice()
    }

    /// How many items there are.
    pub fn len(&self) -> usize
        ensures { result ≡ length self.now }
    {
        self.items.len()
    }

    /// Whether there is no item.
    pub fn is_empty(&self) -> bool
        ensures { result ≡ (length self.now == 0) }
    {
        self.items.is_empty()
    }

    /// The vector of the items. Takes no memory.
    pub fn into_vec(self) -> Vec<T>
        ensures items { result.items ≡ self }
        ensures len { vec_len result ≡ length self }
    {
        let Seq { items } = self;
        items
    }
}

impl<T: Drop> Drop for Seq<T> {
    fn drop(self) {
        let Seq { items } = self;
        drop(items);
    }
}
