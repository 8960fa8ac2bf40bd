//! What the jobs of a command compute: what they read, give and keep is what the one behaviour of its program has.
#![tactic(auto)]

mod laws;

pub use laws::jobs_compute_the_behaviour;
