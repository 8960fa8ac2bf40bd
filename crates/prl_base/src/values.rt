//! The types of the language and their values.

ghost use Rattle.std.specs.Prelude.{◌≡◌};
ghost use Rattle.prl_base.specs.Values.{type_of};
ghost use Rattle.prl_base.specs.Texts.{type_text};

use std::fmt;

/// A type of the language.
#[derive(Clone, Copy, PartialEq, Eq)]
pub enum Ty {
    /// Signed whole numbers of 64 bits, which wrap.
    Int,
    Bool,
}

impl Ty {
    /// The name of the type, as it is written.
    pub fn text(self) -> &'static str
        ensures { result.now ≡ type_text self }
    {
        match self {
            Ty::Int => "int",
            Ty::Bool => "bool",
        }
    }
}

impl fmt::Display for Ty {
    ghost use Rattle.std.specs.Prelude.{Some};
    ghost use Rattle.prl_base.specs.Texts.{type_text};

    ghost output = { λ ty. Some (type_text ty) };

    fn fmt<W: fmt::Write>(&self, f: &mut fmt::Formatter<W>) -> fmt::Result {
        f.write_str(self.text())
    }
}

/// A value of the language.
#[derive(Clone, Copy, PartialEq, Eq)]
pub enum Value {
    /// From -9223372036854775808 to 9223372036854775807.
    Int(i64),
    Bool(bool),
}

impl Value {
    /// The type of the value.
    pub fn ty(self) -> Ty
        ensures { result ≡ type_of self }
    {
        match self {
            Value::Int(_) => Ty::Int,
            Value::Bool(_) => Ty::Bool,
        }
    }
}

impl fmt::Display for Value {
    ghost use Rattle.std.specs.Prelude.{Some};
    ghost use Rattle.prl_base.specs.Texts.{value_text};

    ghost output = { λ value. Some (value_text value) };

    fn fmt<W: fmt::Write>(&self, f: &mut fmt::Formatter<W>) -> fmt::Result {
        match *self {
            Value::Int(number) => write!(f, "{number}"),
            Value::Bool(truth) => write!(f, "{truth}"),
        }
    }
}
