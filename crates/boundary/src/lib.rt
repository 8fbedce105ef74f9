// How an outcome looks from C.
#![tactic(auto)]

pub mod checked;
