//! The keywords and symbols of bodies.

ghost use Rattle.std.specs.Prelude.{◌≡◌, ◌≤◌};
ghost use Rattle.prl_bodytext.specs.Words.{class_of};

/// A keyword or a symbol of bodies.
#[derive(Clone, Copy)]
pub enum Fixed {
    Body = 2,
    Reg,
    True,
    False,
    If,
    Or,
    Xor,
    And,
    Not,
    /// `(`
    Open,
    /// `)`
    Close,
    /// `{`
    Begin,
    /// `}`
    End,
    Comma,
    Semicolon,
    /// `=`
    Equals,
    /// `<>`
    Unequal,
    /// `<`
    Less,
    /// `<=`
    AtMost,
    /// `>`
    Greater,
    /// `>=`
    AtLeast,
    Plus,
    Minus,
    Star,
    Slash,
    Percent,
}

/// The keywords by their bytes, with the class of each in the grammar.
pub const KEYWORDS: [(&[u8], u8); 9] = [
    (b"body", Fixed::Body as u8),
    (b"reg", Fixed::Reg as u8),
    (b"true", Fixed::True as u8),
    (b"false", Fixed::False as u8),
    (b"if", Fixed::If as u8),
    (b"or", Fixed::Or as u8),
    (b"xor", Fixed::Xor as u8),
    (b"and", Fixed::And as u8),
    (b"not", Fixed::Not as u8),
];

/// The symbols by their bytes, with the class of each in the grammar.
pub const SYMBOLS: [(&[u8], u8); 17] = [
    (b"(", Fixed::Open as u8),
    (b")", Fixed::Close as u8),
    (b"{", Fixed::Begin as u8),
    (b"}", Fixed::End as u8),
    (b",", Fixed::Comma as u8),
    (b";", Fixed::Semicolon as u8),
    (b"=", Fixed::Equals as u8),
    (b"<>", Fixed::Unequal as u8),
    (b"<", Fixed::Less as u8),
    (b"<=", Fixed::AtMost as u8),
    (b">", Fixed::Greater as u8),
    (b">=", Fixed::AtLeast as u8),
    (b"+", Fixed::Plus as u8),
    (b"-", Fixed::Minus as u8),
    (b"*", Fixed::Star as u8),
    (b"/", Fixed::Slash as u8),
    (b"%", Fixed::Percent as u8),
];

/// The class of the keyword or symbol in the grammar.
pub fn class_of(fixed: Fixed) -> u8
    ensures exact { result ≡ class_of fixed }
    ensures from_two { 2 ≤ result }
{
    fixed as u8
}
