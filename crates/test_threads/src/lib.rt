//! Tests of boards, of executives on threads, and of the call of the command that is given a runtime. Probes hold jobs until
//! other ones have begun, and count their calls.
#![tactic(auto)]

#[cfg(test)]
mod both;
#[cfg(test)]
mod cases;
#[cfg(test)]
mod commands;
#[cfg(test)]
mod holders;
#[cfg(test)]
mod lone_runs;
#[cfg(test)]
mod pairs;
#[cfg(test)]
mod runs;
#[cfg(test)]
mod seats;
#[cfg(test)]
mod threads;
