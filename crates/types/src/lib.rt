// Whether the types of a table are sound.
#![tactic(auto)]

pub mod checked;
