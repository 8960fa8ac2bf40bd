//! Words of the language, and labels.

ghost use Rattle.std.specs.Prelude.{◌≡◌, IfOk, MatchResult};
ghost use Rattle.std.specs.List.{list_all};
ghost use Rattle.prl_base.specs.Names.{is_word_start, is_word_byte, is_word, IsName, IsNameFault};

use std::alloc::{AllocError, Global};
use std::marker::Model;

/// The most bytes that a name may have.
pub const MAX_NAME: usize = 64;

/// Whether a word may begin with the byte: an ASCII letter or `_`.
pub fn is_word_start(byte: u8) -> bool
    ensures { result ≡ is_word_start byte }
{
    byte.is_ascii_alphabetic() || byte == b'_'
}

/// Whether a word may go on with the byte: an ASCII letter, a digit or `_`.
pub fn is_word_byte(byte: u8) -> bool
    ensures { result ≡ is_word_byte byte }
{
    byte.is_ascii_alphanumeric() || byte == b'_'
}

fn are_word_bytes(bytes: &[u8]) -> bool
    ensures { result ≡ list_all is_word_byte bytes.now }
{
    bytes.iter().all(|byte| is_word_byte(*byte))
}

/// Whether the bytes are a word, of any length.
pub fn is_word(bytes: &[u8]) -> bool
    ensures { result ≡ is_word bytes.now }
{
    match bytes {
        [] => false,
        [first, rest @ ..] => is_word_start(*first) && are_word_bytes(rest),
    }
}

/// Why bytes are no name.
#[derive(Clone, Copy)]
pub enum NameFault {
    /// The bytes are no word.
    Shape,
    /// The bytes are a word of this many bytes, more than 64.
    Long(u64),
    Memory,
}

/// A word of 1 to 64 bytes: a letter or `_`, and then letters, digits and `_`, all of them ASCII. A
/// keyword is one too. Contracts see the list of its bytes.
pub struct Name {
    bytes: Vec<u8>,
}

impl Model for Name {
    ghost use Rattle.std.specs.Prelude.{List, ℕ};
    ghost use Rattle.prl_base.specs.Names.{IsName};

    ghost Value = { List ℕ };

    ghost view = { λ n. n.bytes.items };

    ghost invariant = { λ n. IsName n.bytes.items };
}

impl Name {
    /// The name that these bytes are.
    pub fn new(alloc: Global, bytes: &[u8]) -> Result<Name, NameFault>
        ensures { MatchResult result (λ name. (name ≡ bytes.now) × IsName bytes.now) (IsNameFault bytes.now) }
    {
        if !is_word(bytes) {
            return Err(NameFault::Shape);
        }
        if bytes.len() > MAX_NAME {
            return Err(NameFault::Long(bytes.len() as u64));
        }
        match Vec::from_slice(alloc, bytes) {
            Ok(bytes) => Ok(Name { bytes }),
            Err(_) => Err(NameFault::Memory),
        }
    }

    /// The name of a word.
    pub fn of_word(alloc: Global, word: &[u8]) -> Result<Name, AllocError>
        requires { IsName word.now }
        ensures { IfOk result (λ name. name ≡ word.now) }
    {
        Ok(Name {
            bytes: Vec::from_slice(alloc, word)?,
        })
    }

    /// The bytes of the name.
    pub fn bytes(&self) -> &[u8]
        ensures bytes { result.now ≡ self.now }
        ensures word { IsName self.now }
    {
        self.bytes.as_slice()
    }

    /// The same name once more.
    pub fn copy(&self, alloc: Global) -> Result<Name, AllocError>
        ensures { IfOk result (λ name. name ≡ self.now) }
    {
        Name::of_word(alloc, self.bytes())
    }
}

/// Any bytes: the name of a flow, of a task or of a file. Contracts see the list of its bytes.
pub struct Label {
    bytes: Vec<u8>,
}

impl Model for Label {
    ghost use Rattle.std.specs.Prelude.{List, ℕ};

    ghost Value = { List ℕ };

    ghost view = { λ l. l.bytes.items };
}

impl Label {
    /// The label of these bytes.
    pub fn new(alloc: Global, bytes: &[u8]) -> Result<Label, AllocError>
        ensures { IfOk result (λ label. label ≡ bytes.now) }
    {
        Ok(Label {
            bytes: Vec::from_slice(alloc, bytes)?,
        })
    }

    /// The bytes of the label.
    pub fn bytes(&self) -> &[u8]
        ensures { result.now ≡ self.now }
    {
        self.bytes.as_slice()
    }
}

impl Drop for Name {
    fn drop(self) {
        let Name { bytes } = self;
        drop(bytes);
    }
}

impl Drop for Label {
    fn drop(self) {
        let Label { bytes } = self;
        drop(bytes);
    }
}
