//! Sinks that texts are written to.

ghost use Rattle.std.specs.Prelude.{◌≡◌, ◌<◌, ◌≤◌, ◌++◌, ℕ, List, [], Option, Ok, IfOk, OnErr, length};
ghost use Rattle.std.specs.List.{flat_map};
ghost use Rattle.prl_io.specs.Growth.{appended, taken, AppendsFront, IsWritten};
ghost use Rattle.prl_io.specs.Views.{SinkView};

/// A write failed, and the fault was counted.
#[derive(Clone, Copy, Debug, PartialEq, Eq)]
pub struct Failed;

/// What bytes are written to.
pub trait Sink {
    /// The bytes that were written so far, where they are known, and how many faults there have been.
    ghost seen: { Self → SinkView };

    /// Writes a front of the piece, and tells its length. It takes no memory.
    fn write(&mut self, piece: &[u8]) -> Result<usize, Failed>
        ensures front { IfOk result (λ count. count ≤ length piece.now) }
        ensures grown { (seen self.new).written ≡ appended (seen self.old).written (taken result piece.now) }
        ensures counted { (seen self.old).faults ≤ (seen self.new).faults }
        ensures failed { OnErr result ((seen self.old).faults < (seen self.new).faults) }
        ensures stuck { result ≡ Ok 0 → 0 < length piece.now → (seen self.old).faults < (seen self.new).faults };
}

/// Writes the text, each write being offered all that is left of it. After an error a front of the
/// text is written, and not the whole. It takes no memory.
pub fn write_all<S: Sink>(sink: &mut S, text: &[u8]) -> Result<(), Failed>
    ensures grown { IsWritten (S.seen sink.old).written (S.seen sink.new).written text.now result }
    ensures counted { (S.seen sink.old).faults ≤ (S.seen sink.new).faults }
    ensures failed { OnErr result ((S.seen sink.old).faults < (S.seen sink.new).faults) }
{
    let mut rest = text;
    while !rest.is_empty() {
        let count = sink.write(rest)?;
        if count == 0 {
            return Err(Failed);
        }
        rest = &rest[count..];
    }
    Ok(())
}

/// Writes the pieces one after another, as one text. After an error a front of that text is written,
/// and not the whole. It takes no memory.
pub fn write_pieces<S: Sink>(sink: &mut S, pieces: &[&[u8]]) -> Result<(), Failed>
    ensures grown { IsWritten (S.seen sink.old).written (S.seen sink.new).written (flat_map (λ piece. piece.now) pieces.now) result }
    ensures counted { (S.seen sink.old).faults ≤ (S.seen sink.new).faults }
    ensures failed { OnErr result ((S.seen sink.old).faults < (S.seen sink.new).faults) }
{
    for piece in pieces {
        write_all(sink, piece)?;
    }
    Ok(())
}

/// How writings of several texts, one after another, are a writing of all of them: nothing, one text
/// and then another, a front of the first, and the first with a front of the second.
pub fn law_of_fronts()
    ensures nothing { (old : Option (List ℕ)) → appended old [] ≡ old }
    ensures both { (old : Option (List ℕ)) (first second : List ℕ)
        → appended (appended old first) second ≡ appended old (first ++ second) }
    ensures first { (old new : Option (List ℕ)) (first second : List ℕ)
        → AppendsFront old new first → AppendsFront old new (first ++ second) }
    ensures second { (old new : Option (List ℕ)) (first second : List ℕ)
        → AppendsFront (appended old first) new second → AppendsFront old new (first ++ second) }
{}
