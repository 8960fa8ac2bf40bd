//! Drawing: where a tick and a row stand in a picture, and the pieces of SVG that pictures are made
//! of. It stands on `prl_base` and knows no plan.
#![tactic(auto)]

mod axes;
mod boxes;
mod cuts;
mod frames;
mod labels;
mod loads;
mod marks;
mod numbers;
mod rows;
mod scales;
mod shapes;
mod texts;
mod units;
mod window_texts;

pub use axes::{Axis, push_svg, push_times, push_unit_name};
pub use boxes::{LEAST, OUTLINED, push_box, push_coloured, push_mark, push_telling};
pub use cuts::{Cut, cut_of};
pub use frames::{
    push_arrow_legend, push_name, push_opening, push_processor, push_short_legend, push_ticks,
};
pub use labels::{SIGN, Slice, push_part_name, push_sign, push_slice_name, push_title};
pub use loads::{Load, Overload, push_all_counted, push_load, push_overload, second_line};
pub use marks::{TRUNKS, Way, is_followed, push_arrow, push_bar, push_own_dates};
pub use numbers::push_numbers;
pub use rows::{COLOURS, GAP, ROW, TOP, colour_of, row_of};
pub use scales::{LEFT, Scale, WIDTH, is_seen, x_of, x_within};
pub use shapes::Shape;
pub use texts::{push, push_all, push_attribute};
pub use units::{Unit, push_time, unit_of};
pub use window_texts::windows;
