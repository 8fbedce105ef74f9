// The areas of stores: functions on an area whose form was checked.
#![tactic(auto)]

pub mod checked;
