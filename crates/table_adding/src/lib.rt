// Adding an item to the table of an area whose form was tested.
#![tactic(auto)]

pub mod checked;
