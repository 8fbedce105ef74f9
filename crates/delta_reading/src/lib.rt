// Reading deltas of ints that rise already under known sizes.
#![tactic(auto)]

pub mod checked;
