// Making the delta between two tables.
#![tactic(auto)]

use format::Error;

pub mod checked;

// Why there is no delta: the least key, read as unsigned, whose two items differ in length, or another refusal.
#[derive(Clone, Copy)]
pub enum MakeError {
    DifferingSizes(i32),
    Refused(Error),
}
