//! Where a name stands that a program has twice: the two declarations, or the two left names, that come first.

ghost use Rattle.std.specs.Prelude.{◌≡◌, ◌≤◌, ◌<◌, ◌++◌, ◌^◌, All, IfOk, Ok, OnOk, length};
ghost use Rattle.std.specs.Bool.{OnTrue};
ghost use Rattle.prl_lex.specs.Lexing.{IsTokenOf, tokens_of};
ghost use Rattle.prl_spots.specs.Twice.{IsNameAt, IsTwice, placed, spot_text, two_text};

use crate::names::is_text;
use crate::places::place_of;
use prl_base::push_number;
use prl_lex::{LexFault, Token, lex, token_text};
use std::alloc::{AllocError, Global};

/// What names share: each of these is a space of names, where the number is that of the node or the import.
#[derive(Clone, Copy, PartialEq, Eq)]
enum Space {
    Callees,
    Sensors,
    Actuators,
    Ports(usize),
    Flows(usize),
    Definitions(usize),
    Elsewhere,
}

/// Where in a program the tokens are.
#[derive(Clone, Copy, PartialEq, Eq)]
enum Area {
    Outside,
    /// After `imported`.
    Imported,
    /// From the name of an import to the end of its declaration.
    Ports,
    /// From the name of a node to its outputs.
    Inputs,
    /// From there to its equations.
    Flows,
    /// On the left of an equation, and on its right.
    Left,
    Right,
}

/// Which spaces of names are looked at: those of declarations, or those of what defines a flow.
#[derive(Clone, Copy, PartialEq, Eq)]
enum Look {
    Declared,
    Defined,
}

/// The place among the tokens: the area, how many nodes and imports have begun, and whether the last token was one of these.
#[derive(Clone, Copy)]
struct State {
    area: Area,
    number: usize,
    space: Space,
}

/// The area after a symbol or a keyword in a node or an import.
fn area_inside(area: Area, word: &[u8]) -> Area {
    if word == b"tel".as_slice() {
        return Area::Outside;
    }
    let (last, next) = match area {
        Area::Ports => (b";".as_slice(), Area::Outside),
        Area::Inputs => (b"returns".as_slice(), Area::Flows),
        Area::Flows => (b"let".as_slice(), Area::Left),
        Area::Left => (b"=".as_slice(), Area::Right),
        Area::Right => (b";".as_slice(), Area::Left),
        Area::Outside | Area::Imported => return area,
    };
    if word == last { next } else { area }
}

/// The area after a token.
fn area_after(area: Area, word: &[u8]) -> Area {
    match area {
        Area::Outside | Area::Imported => {
            if word == b"imported".as_slice() {
                Area::Imported
            } else if word != b"node".as_slice() {
                Area::Outside
            } else if area == Area::Imported {
                Area::Ports
            } else {
                Area::Inputs
            }
        }
        _ => area_inside(area, word),
    }
}

/// The space of a name that is declared after this token; `Elsewhere` where none is.
fn declared_after(word: &[u8]) -> Space {
    if word == b"node".as_slice() {
        Space::Callees
    } else if word == b"sensor".as_slice() {
        Space::Sensors
    } else if word == b"actuator".as_slice() {
        Space::Actuators
    } else {
        Space::Elsewhere
    }
}

/// The state after a token.
fn after(state: State, word: &[u8]) -> State {
    let number = if word == b"node".as_slice() {
        state.number.saturating_add(1)
    } else {
        state.number
    };
    State {
        area: area_after(state.area, word),
        number,
        space: declared_after(word),
    }
}

/// The space that a name in this place is of.
fn space_of(state: State, look: Look) -> Space {
    if state.space != Space::Elsewhere {
        return if look == Look::Declared {
            state.space
        } else {
            Space::Elsewhere
        };
    }
    match (state.area, look) {
        (Area::Ports, Look::Declared) => Space::Ports(state.number),
        (Area::Inputs, Look::Declared) => Space::Flows(state.number),
        (Area::Flows, Look::Declared) => Space::Flows(state.number),
        (Area::Inputs, Look::Defined) => Space::Definitions(state.number),
        (Area::Left, Look::Defined) => Space::Definitions(state.number),
        _ => Space::Elsewhere,
    }
}

/// A name that was met: its space, and where it stands.
#[derive(Clone, Copy)]
struct Met {
    space: Space,
    at: u32,
}

/// Where the name was met first in the space.
fn met_in(met: &[Met], space: Space) -> Option<u32> {
    for one in met {
        if one.space == space {
            return Some(one.at);
        }
    }
    None
}

/// The first two places of the name in one space. Nothing is promised of what the search finds.
fn searched(
    alloc: Global,
    text: &[u8],
    tokens: &[Token],
    name: &[u8],
    look: Look,
) -> Result<Option<(u32, u32)>, AllocError>
    requires { All (IsTokenOf text.now) tokens.now }
{
    let mut met = Vec::new(alloc);
    let mut state = State {
        area: Area::Outside,
        number: 0,
        space: Space::Elsewhere,
    };
    for token in tokens {
        let word = token_text(text, token);
        let space = space_of(state, look);
        state = after(state, word);
        if word != name || space == Space::Elsewhere {
            continue;
        }
        let at = token.span.at;
        match met_in(met.as_slice(), space) {
            Some(first) => return Ok(Some((first, at))),
            None => met.push(Met { space, at })?,
        }
    }
    Ok(None)
}

/// The pair whose second place comes first.
fn earlier(one: Option<(u32, u32)>, other: Option<(u32, u32)>) -> Option<(u32, u32)> {
    match (one, other) {
        (Some(a), Some(b)) => Some(if b.1 < a.1 { b } else { a }),
        (Some(a), None) => Some(a),
        (None, b) => b,
    }
}

/// Whether among the tokens one of this name begins at this byte.
fn is_name_at(text: &[u8], tokens: &[Token], name: &[u8], at: usize) -> bool
    requires { All (IsTokenOf text.now) tokens.now }
    ensures name { OnTrue result (IsNameAt text.now tokens.now name.now at) }
    ensures inside { OnTrue result (at ≤ length text.now) }
{
    for token in tokens {
        if token.span.at as usize == at && is_text(text, token, name) {
            return true;
        }
    }
    false
}

/// Appends the line and the column of a byte.
#[tactic(auto, unfolding(crate::specs::Twice::spot_text))]
fn push_spot(told: &mut Vec<u8>, text: &[u8], at: usize) -> Result<(), AllocError>
    requires { at ≤ length text.now }
    ensures { OnOk result (told.new.items ≡ told.old.items ++ spot_text text.now at) }
{
    let place = place_of(text, at);
    push_number(told, place.line)?;
    told.push(b':')?;
    push_number(told, place.column)
}

/// Appends words and a place.
#[tactic(auto, unfolding(crate::specs::Twice::placed))]
fn push_placed(told: &mut Vec<u8>, front: &[u8], text: &[u8], at: usize) -> Result<(), AllocError>
    requires { at ≤ length text.now }
    ensures { OnOk result (told.new.items ≡ told.old.items ++ placed front.now text.now at) }
{
    told.extend_from_slice(front)?;
    push_spot(told, text, at)
}

/// What is told of two places.
#[tactic(auto, unfolding(crate::specs::Twice::two_text))]
fn two_told(alloc: Global, text: &[u8], first: usize, second: usize) -> Result<Vec<u8>, AllocError>
    requires first { first ≤ length text.now }
    requires second { second ≤ length text.now }
    ensures { IfOk result (λ told. told.items ≡ two_text text.now first second) }
{
    let mut told = Vec::new(alloc);
    push_placed(&mut told, b"It stands at ", text, first)?;
    push_placed(&mut told, b" and at ", text, second)?;
    told.extend_from_slice(b".\n")?;
    Ok(told)
}

/// What is told of a name, by the tokens of the program.
#[tactic(auto, using(crate::proofs::Two::two_is, crate::proofs::Two::none_is))]
fn told_of(alloc: Global, text: &[u8], tokens: &[Token], name: &[u8]) -> Result<Vec<u8>, AllocError>
    requires lexed { tokens_of text.now ≡ Ok tokens.now }
    requires each { All (IsTokenOf text.now) tokens.now }
    ensures { IfOk result (λ told. IsTwice text.now name.now told.items) }
{
    let declared = searched(alloc, text, tokens, name, Look::Declared)?;
    let defined = searched(alloc, text, tokens, name, Look::Defined)?;
    let Some((first, second)) = earlier(declared, defined) else {
        return Ok(Vec::new(alloc));
    };
    let first = first as usize;
    let second = second as usize;
    if first < second
        && is_name_at(text, tokens, name, first)
        && is_name_at(text, tokens, name, second)
    {
        Ok(two_told(alloc, text, first, second)?)
    } else {
        Ok(Vec::new(alloc))
    }
}

/// What is told of a name that a program has twice: where the two stand that clash first, or nothing where none are found.
#[tactic(auto, using(crate::proofs::Two::none_is))]
pub fn twice_told(alloc: Global, text: &[u8], name: &[u8]) -> Result<Vec<u8>, AllocError>
    requires { length text.now < 2 ^ 32 }
    ensures { IfOk result (λ told. IsTwice text.now name.now told.items) }
{
    match lex(alloc, text) {
        Ok(tokens) => told_of(alloc, text, tokens.as_slice(), name),
        Err(LexFault::Memory) => Err(AllocError),
        Err(_) => Ok(Vec::new(alloc)),
    }
}
