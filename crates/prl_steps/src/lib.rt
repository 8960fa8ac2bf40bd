//! Step plots: the values that flows have at their dates, the steps that a range shows of them, and
//! the lines that are drawn, as SVG. It stands on `prl_base` and `prl_drawing`, and reads no file.
#![tactic(auto)]

mod axes;
mod bars;
mod flows;
mod levels;
mod panes;
mod paths;
mod plots;
mod samples;
mod steps;
mod titles;

pub use bars::{Bar, COLUMNS, bars_of};
pub use flows::Flow;
pub use levels::level_of;
pub use panes::{BETWEEN, Pane, pane_of, y_of};
pub use paths::push_path;
pub use plots::{MAX_PLOTS, plots_of};
pub use samples::{Sample, Step};
pub use steps::seen_steps;
