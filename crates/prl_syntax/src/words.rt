//! The keywords and symbols of programs.

ghost use Rattle.std.specs.Prelude.{◌≡◌, ◌≤◌};
ghost use Rattle.prl_syntax.specs.Words.{class_of};

/// A keyword or a symbol of programs.
#[derive(Clone, Copy)]
pub enum Fixed {
    Imported = 2,
    Node,
    Returns,
    Wcet,
    Sensor,
    Actuator,
    Var,
    Let,
    Tel,
    Int,
    Bool,
    Rate,
    Due,
    Fby,
    Tail,
    True,
    False,
    /// `(`
    Open,
    /// `)`
    Close,
    Comma,
    Semicolon,
    Colon,
    /// `::`
    Cons,
    Equals,
    Minus,
    Slash,
    /// `*^`
    Up,
    /// `/^`
    Down,
    /// `~>`
    Shift,
}

/// The keywords by their bytes, with the class of each in the grammar.
pub const KEYWORDS: [(&[u8], u8); 17] = [
    (b"imported", Fixed::Imported as u8),
    (b"node", Fixed::Node as u8),
    (b"returns", Fixed::Returns as u8),
    (b"wcet", Fixed::Wcet as u8),
    (b"sensor", Fixed::Sensor as u8),
    (b"actuator", Fixed::Actuator as u8),
    (b"var", Fixed::Var as u8),
    (b"let", Fixed::Let as u8),
    (b"tel", Fixed::Tel as u8),
    (b"int", Fixed::Int as u8),
    (b"bool", Fixed::Bool as u8),
    (b"rate", Fixed::Rate as u8),
    (b"due", Fixed::Due as u8),
    (b"fby", Fixed::Fby as u8),
    (b"tail", Fixed::Tail as u8),
    (b"true", Fixed::True as u8),
    (b"false", Fixed::False as u8),
];

/// The symbols by their bytes, with the class of each in the grammar.
pub const SYMBOLS: [(&[u8], u8); 12] = [
    (b"(", Fixed::Open as u8),
    (b")", Fixed::Close as u8),
    (b",", Fixed::Comma as u8),
    (b";", Fixed::Semicolon as u8),
    (b":", Fixed::Colon as u8),
    (b"=", Fixed::Equals as u8),
    (b"::", Fixed::Cons as u8),
    (b"-", Fixed::Minus as u8),
    (b"/", Fixed::Slash as u8),
    (b"*^", Fixed::Up as u8),
    (b"/^", Fixed::Down as u8),
    (b"~>", Fixed::Shift as u8),
];

/// The class of the keyword or symbol in the grammar.
pub fn class_of(fixed: Fixed) -> u8
    ensures exact { result ≡ class_of fixed }
    ensures from_two { 2 ≤ result }
{
    fixed as u8
}
