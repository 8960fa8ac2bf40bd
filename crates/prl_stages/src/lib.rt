//! The stages of the command: what each finds, why it refuses, the modes as lists of them, and the laws that each list comes to
//! one end. The calls that do them stand in `prl_calls`. It stands on the crates whose calls the stages are.
#![tactic(auto)]

mod faults;
mod laws;
mod ran;
mod sizes;
mod stages;
mod telling;

pub use faults::{
    BodiesRefusal, ClocksRefusal, CoresRefusal, DatesRefusal, Fault, GrammarRefusal, GraphRefusal,
    InputFile, MakeRefusal, ScheduleRefusal, SensorsRefusal, TableRefusal,
};
pub use laws::{
    commands_come_to_an_end, commands_have_texts, cycles_are_told_by_name, front_is_decided,
    plans_have_schedules, runs_tell_of_behaviours, stages_are_decided, stages_come_to_an_end,
    stages_end_one_way, texts_are_one, texts_exist, texts_have_behaviours,
};
pub use ran::Ran;
pub use sizes::{
    MAX_BODIES, MAX_CORES, MAX_PROGRAM, MAX_SCHEDULE, MAX_SENSORS, MAX_TABLE, most_of,
};
pub use stages::{Stage, Stop};
