//! Plans: their tasks, edges, dates and cells, from their text or to it, and whether one processor has the time for them.

pub use prl_edf::{Piece, Timed, Verdict, analyse};
pub use prl_forever::{ForEver, ForEverFault, load_of, serves_for_ever};
pub use prl_plan::{
    Edge, Horizon, Kind, Plan, Producer, Task, TaskGraph, plan_facts, plan_is_one, plans_keep_facts,
};
pub use prl_plantext::{PlanFault, plan_text, read_plan, text_is_of_one_plan};
