// Writing deltas of areas under known sizes, as ints and packed.
#![tactic(auto)]

pub mod checked;
