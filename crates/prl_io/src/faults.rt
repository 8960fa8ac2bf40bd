//! How a call ends where something that its words name may not fit, and why there is no text then.

ghost use Rattle.std.specs.Prelude.{◌≡◌, ◌++◌, IfOk, IfErr, OnOk, decimal, false, vec_items};
ghost use Rattle.std.specs.List.{flat_map};
ghost use Rattle.prl_shown.specs.Shown.{shown};
ghost use Rattle.prl_io.specs.Endings.{IsTold};
ghost use Rattle.prl_io.specs.Faults.{EndsSo, IsUnfit, piece_text, unfit_line};
ghost use Rattle.prl_io.specs.declared.endings.Stop.TheVariants.{Memory};
ghost use Rattle.prl_io.specs.declared.faults.Fault.TheVariants as faults;

use crate::endings::{Stop, finish};
use crate::writing::{Sink, write_pieces};
use prl_base::{Label, push_number};
use prl_shown::shown;
use std::alloc::{AllocError, Global};

/// Why there is no text.
#[derive(Drop)]
pub enum Fault {
    /// It is a stop.
    Stop(Stop),
    /// What this name stands for, a file or a flow, does not fit, for this reason.
    Unfit(Label, Vec<u8>),
}

impl From<Stop> for Fault {
    ghost from_gives = { λ stop fault. fault ≡ faults.Stop stop };

    fn from(stop: Stop) -> Fault {
        Fault::Stop(stop)
    }
}

impl From<AllocError> for Fault {
    ghost from_gives = { λ _ fault. fault ≡ faults.Stop Memory };

    fn from(_error: AllocError) -> Fault {
        Fault::Stop(Stop::Memory)
    }
}

/// A piece of the line that tells why something does not fit.
#[derive(Clone, Copy)]
pub enum Piece<'a> {
    Text(&'a [u8]),
    Number(u64),
}

/// Appends a piece.
fn push_piece(why: &mut Vec<u8>, piece: &Piece<'_>) -> Result<(), AllocError>
    ensures { OnOk result (why.new.items ≡ why.old.items ++ piece_text piece.now) }
{
    match piece {
        Piece::Text(text) => why.extend_from_slice(text),
        Piece::Number(number) => push_number(why, *number),
    }
}

/// Why something does not fit, piece by piece.
pub fn why_with(alloc: Global, pieces: &[Piece<'_>]) -> Result<Vec<u8>, AllocError>
    ensures { IfOk result (λ why. why.items ≡ flat_map piece_text pieces.now) }
{
    let mut why = Vec::new(alloc);
    for piece in pieces {
        push_piece(&mut why, piece)?;
    }
    Ok(why)
}

/// The line of a fault and its number.
pub fn why_of(alloc: Global, front: &str, number: u64) -> Result<Vec<u8>, AllocError>
    ensures { IfOk result (λ why. why.items ≡ front.now ++ decimal number) }
{
    let front = Piece::Text(front.as_bytes());
    why_with(alloc, &[front, Piece::Number(number)])
}

/// A name as a terminal may show it.
pub(crate) fn shown_label(alloc: Global, name: &[u8]) -> Result<Label, AllocError>
    ensures { IfOk result (λ label. label ≡ shown false name.now) }
{
    let text = shown(alloc, false, name)?;
    Label::new(alloc, text.as_slice())
}

/// What this name stands for does not fit: the line of this front and this number tells why. Or memory
/// ran out.
pub fn unfit(alloc: Global, name: &[u8], front: &str, number: u64) -> Fault
    ensures { IsUnfit name.now (front.now ++ decimal number) result }
{
    unfit_for(alloc, name, why_of(alloc, front, number))
}

/// What this name stands for does not fit, for this reason. Or memory ran out.
pub fn unfit_for(alloc: Global, name: &[u8], why: Result<Vec<u8>, AllocError>) -> Fault
    ensures told { IfOk why (λ line. IsUnfit name.now line.items result) }
    ensures memory { IfErr why (λ _. result ≡ faults.Stop Memory) }
{
    let Ok(why) = why else {
        return Fault::Stop(Stop::Memory);
    };
    match (shown_label(alloc, name), shown(alloc, false, &why)) {
        (Ok(label), Ok(why)) => Fault::Unfit(label, why),
        _ => Fault::Stop(Stop::Memory),
    }
}

/// Tells on `err` what does not fit, in one line.
fn tell_unfit<E: Sink>(err: &mut E, name: &[u8], why: &[u8])
    ensures { IsTold (E.seen err.old) (E.seen err.new) (unfit_line name.now why.now) }
{
    let colon = b": ".as_slice();
    let end = b"\n".as_slice();
    let _ = write_pieces(err, &[b"refused: ", name, colon, why, end]);
}

/// Ends a call: writes the text to `out`, or tells on `err` why there is none, and answers the status.
pub fn end<S: Sink, E: Sink>(out: &mut S, err: &mut E, outcome: Result<Vec<u8>, Fault>) -> u8
    ensures { EndsSo vec_items outcome (S.seen out.old) (S.seen out.new) (E.seen err.old) (E.seen err.new) result }
{
    match outcome {
        Ok(text) => finish(out, err, &Ok(text)),
        Err(Fault::Stop(stop)) => finish(out, err, &Err(stop)),
        Err(Fault::Unfit(name, why)) => {
            tell_unfit(err, name.bytes(), &why);
            1
        }
    }
}
