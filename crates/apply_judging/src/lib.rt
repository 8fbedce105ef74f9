// Whether a delta is refused for its base, and how long the resulting table is.
#![tactic(auto)]

pub mod checked;
