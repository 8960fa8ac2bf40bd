//! What every layer of the compiler speaks of: values and their types, names, places in a text,
//! ratios, strictly periodic clocks, the operators on flows, the operators of bodies with their types
//! and values, limits, how all these are written, and the numbers by which the layers name tasks,
//! edges, cells and flows. It stands on `std` and `itoa`.
#![tactic(auto)]

mod body_operators;
mod body_types;
mod decimals;
mod limits;
mod lines;
mod names;
mod numbers;
mod operators;
mod places;
mod ratios;
mod seqs;
mod texts;
mod values;

pub use body_operators::{Operator, Prefix, truth_of};
pub use body_types::is_same_type;
pub use decimals::{
    MAX_NEGATIVE, MAX_POSITIVE, are_digits, decimal_of, integer_of, negative, positive,
};
pub use limits::{Limit, What};
pub use lines::{cut_line, len_before, line_len};
pub use names::{Label, Name, NameFault, is_word, is_word_byte, is_word_start};
pub use numbers::{CellNo, EdgeNo, FlowNo, TaskNo};
pub use operators::{Clock, MAX_FACTOR, Op};
pub use places::Span;
pub use ratios::{MAX_PART, Past, Ratio, gcd};
pub use seqs::Seq;
pub use texts::{push_integer, push_number, push_ratio, push_type, push_value};
pub use values::{Ty, Value};
