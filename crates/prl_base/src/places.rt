//! Places in a source text.

/// A range of bytes of a source text: `len` bytes from the byte `at`, counted from 0.
#[derive(Clone, Copy)]
pub struct Span {
    pub at: u32,
    pub len: u32,
}
