//! Refusals explained: from the line that `prelude` wrote on `err` to the place of the fault, the line of the source with a
//! mark under the place, and sentences in plain words; and what the files tell beside: the two places of a name, what might stand
//! where something else has to, which job of a schedule acts and which other one it overtakes, the flows round a cycle, the chain of
//! jobs that one waits for, the jobs of an overload, the entries of a bad table, a name that is spelt nearly so. It stands on
//! `prl_sentences` for what is said of each line, on `prl_spots` for places, on `prl_calls` for the plan of a program, on
//! `prl_plantext` for the text of a plan, on `prl_schedules`, on `prl_waytext` for ways, on `prl_tablefaults` for overloads and
//! tables, and on `prl_nearest` for names.
#![tactic(auto)]

mod details;
mod explanations;
mod placings;
mod texts;
mod told;

pub use explanations::explain;
pub use texts::Texts;
