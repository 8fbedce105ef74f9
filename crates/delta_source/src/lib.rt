// Integers and updates of a delta, read by place from packed bytes or from ints.
#![tactic(auto)]

pub mod checked;
