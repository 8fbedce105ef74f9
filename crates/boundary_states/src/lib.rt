// How a receiver and a store look from C.
#![tactic(auto)]

pub mod checked;
