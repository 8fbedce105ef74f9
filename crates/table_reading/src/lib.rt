// Reading a table of ints, in form or with its items in any order, into an area.
#![tactic(auto)]

pub mod checked;
