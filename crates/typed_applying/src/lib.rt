// Applying a delta to its base; the types of the result must be sound.
#![tactic(auto)]

pub mod checked;
