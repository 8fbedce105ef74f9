// Applying a delta to its base.
#![tactic(auto)]

pub mod checked;
