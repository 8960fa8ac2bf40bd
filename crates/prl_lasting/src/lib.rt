//! What the texts of the command tell for ever.
#![tactic(auto)]

mod laws;

pub use laws::texts_tell_for_ever;
