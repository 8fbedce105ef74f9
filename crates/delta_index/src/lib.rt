// The keys of a delta in order, from a sorted list of its deleted keys and updates.
#![tactic(auto)]

pub mod checked;
