#![tactic(auto)]

// The laws are in specs/. This crate has no code.
