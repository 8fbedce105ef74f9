// The deleted keys and the updates of a delta in any order: counted, and written in signed order of keys.
#![tactic(auto)]

pub mod checked;
