//! Lines that are written piece by piece: words with a number or a text behind them, one after another.

ghost use Rattle.std.specs.Prelude.{◌≡◌, ◌<◌, ◌≤◌, ◌++◌, OnErr};
ghost use Rattle.std.specs.Fmt.{signed_decimal};
ghost use Rattle.prl_base.specs.Texts.{fraction_text};
ghost use Rattle.prl_io.specs.Growth.{IsWritten};
ghost use Rattle.prl_endings.specs.code.Pieces.{line_text, piece_text};

use itoa::Buffer;
use prl_base::Ratio;
use prl_io::{Failed, Sink, write_all, write_pieces};

/// A piece of a line: words, and what stands behind them.
#[derive(Clone, Copy)]
pub enum Piece<'a> {
    Words(&'a [u8]),
    Text(&'a [u8], &'a [u8]),
    Number(&'a [u8], u64),
    Signed(&'a [u8], i64),
    Nothing,
}

/// A line, by its pieces, and with nothing in place of those that it does not have.
#[derive(Clone, Copy)]
pub struct Line<'a>(
    pub Piece<'a>,
    pub Piece<'a>,
    pub Piece<'a>,
    pub Piece<'a>,
    pub Piece<'a>,
    pub Piece<'a>,
);

impl<'a> Line<'a> {
    ghost use Rattle.std.specs.Prelude.{◌≡◌, ◌∷◌, ◌++◌, [], codes};
    ghost use Rattle.std.specs.List.{concat};
    ghost use Rattle.std.specs.Fmt.{decimal};
    ghost use Rattle.prl_endings.specs.code.Pieces.{line_text, piece_text};

    /// A line of words alone.
    pub fn plain(words: &'a [u8]) -> Line<'a>
        ensures { line_text result ≡ concat (words.now ∷ codes "\n" ∷ []) }
    {
        Line::two(Piece::Words(words), Piece::Nothing)
    }

    /// A line of words and a name.
    pub fn named(words: &'a [u8], name: &'a [u8]) -> Line<'a>
        ensures { line_text result ≡ concat ((words.now ++ name.now) ∷ codes "\n" ∷ []) }
    {
        Line::two(Piece::Text(words, name), Piece::Nothing)
    }

    /// A line of words and a number.
    pub fn numbered(words: &'a [u8], number: u64) -> Line<'a>
        ensures { line_text result ≡ concat ((words.now ++ decimal number) ∷ codes "\n" ∷ []) }
    {
        Line::two(Piece::Number(words, number), Piece::Nothing)
    }

    /// A line of two pieces.
    pub fn two(first: Piece<'a>, second: Piece<'a>) -> Line<'a>
        ensures { line_text result ≡ concat (piece_text first.entry ∷ piece_text second.entry ∷ codes "\n" ∷ []) }
    {
        Line::four(first, second, Piece::Nothing, Piece::Nothing)
    }

    /// A line of three pieces.
    pub fn three(first: Piece<'a>, second: Piece<'a>, third: Piece<'a>) -> Line<'a>
        ensures { line_text result ≡ concat (piece_text first.entry ∷ piece_text second.entry ∷ piece_text third.entry ∷ codes "\n" ∷ []) }
    {
        Line::four(first, second, third, Piece::Nothing)
    }

    /// A line of four pieces.
    pub fn four(
        first: Piece<'a>,
        second: Piece<'a>,
        third: Piece<'a>,
        fourth: Piece<'a>,
    ) -> Line<'a>
        ensures { line_text result ≡ concat (piece_text first.entry ∷ piece_text second.entry ∷ piece_text third.entry ∷ piece_text fourth.entry ∷ codes "\n" ∷ []) }
    {
        Line(first, second, third, fourth, Piece::Nothing, Piece::Nothing)
    }
}

/// What stands behind the numerator of a ratio: `/` and its denominator, or nothing where it is whole.
pub fn denominator<'a>(ratio: &Ratio) -> Piece<'a>
    ensures { signed_decimal ratio.now.num ++ piece_text result ≡ fraction_text ratio.now }
{
    if ratio.den == 1 {
        Piece::Nothing
    } else {
        Piece::Number(b"/", ratio.den)
    }
}

/// Writes a piece.
fn write_piece<S: Sink>(sink: &mut S, piece: &Piece<'_>) -> Result<(), Failed>
    ensures grown { IsWritten (S.seen sink.old).written (S.seen sink.new).written (piece_text piece.now) result }
    ensures counted { (S.seen sink.old).faults ≤ (S.seen sink.new).faults }
    ensures failed { OnErr result ((S.seen sink.old).faults < (S.seen sink.new).faults) }
{
    let mut buffer = Buffer::new();
    match piece {
        Piece::Nothing => Ok(()),
        Piece::Words(words) => write_all(sink, words),
        Piece::Text(words, text) => write_pieces(sink, &[*words, *text]),
        Piece::Number(words, number) => {
            let digits = buffer.format(*number).as_bytes();
            write_pieces(sink, &[*words, digits])
        }
        Piece::Signed(words, number) => {
            let digits = buffer.format(*number).as_bytes();
            write_pieces(sink, &[*words, digits])
        }
    }
}

/// Writes a line. After an error a front of it is written, and not the whole.
pub fn write_line<S: Sink>(sink: &mut S, line: &Line<'_>) -> Result<(), Failed>
    ensures grown { IsWritten (S.seen sink.old).written (S.seen sink.new).written (line_text line.now) result }
    ensures counted { (S.seen sink.old).faults ≤ (S.seen sink.new).faults }
    ensures failed { OnErr result ((S.seen sink.old).faults < (S.seen sink.new).faults) }
{
    let pieces = [
        line.0,
        line.1,
        line.2,
        line.3,
        line.4,
        line.5,
        Piece::Words(b"\n"),
    ];
    for piece in &pieces {
        write_piece(sink, piece)?;
    }
    Ok(())
}
