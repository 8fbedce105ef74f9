#![tactic(auto)]

// The definitions are in specs/. This crate has no code.
