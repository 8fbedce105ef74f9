// Ints that hold a delta under known sizes: the test of their form, and functions on ints that passed it.
#![tactic(auto)]

pub mod checked;
