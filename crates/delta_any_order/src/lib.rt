// Deltas whose keys come in any order, read from packed bytes or from ints.
#![tactic(auto)]

pub mod checked;
