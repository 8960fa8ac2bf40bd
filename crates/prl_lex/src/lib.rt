//! The tokens of a text, with their places, and readers of tokens, with which programs and bodies are read: words,
//! numbers and symbols, between white space and comments; these tokens as a grammar sees them, readers of one
//! token, the ranges of numbers, and from a text to its tree, or to its first fault, for every language. Its
//! definitions say what a grammar is, as data and as a relation between lists of tokens and trees, and when a
//! reader reads it with one token of look-ahead. It stands on the names, places, values and limits of `prl_base`.
#![tactic(auto)]

mod classes;
mod lexing;
mod pieces;
mod ranges;
mod reading;
mod syntax;
mod terminals;
mod texts;
mod tokens;

pub use classes::{FOREIGN, class_in, terminals_of};
pub use lexing::lex;
pub use ranges::{negative, out_of_range, positive};
pub use reading::{Stop, expect, name, next_is, number, place_of};
pub use syntax::Syntax;
pub use terminals::Terminal;
pub use texts::{TextFault, read_text};
pub use tokens::{Kind, LexFault, Token, token_text};
