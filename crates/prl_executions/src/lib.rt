//! The modes of the command, each after its stages, whose calls stand in `prl_calls`. Those that run no task: the text of the program,
//! of its plan, of what is made of the plan, and of the values of its flows. Those that do: what a run needs, a replay of a schedule
//! by one machine and on several processors, a run on a board by one thread, by several and by a table, and that of a generated program.
#![tactic(auto)]

mod flows;
mod generated;
mod lines;
mod placed;
mod ready;
mod replayed;
mod running;
mod tabled;
mod texts;

pub use flows::flows_text;
pub use generated::{generated_request, summary_of};
pub use placed::cores_text;
pub use ready::{Ready, make_ready};
pub use replayed::replayed_text;
pub use running::{Outcome, run_outcome, run_text};
pub use tabled::cycle_text;
pub use texts::{accepted_text, edf_text, made_text, planned_text, print_text, scheduled_text};
