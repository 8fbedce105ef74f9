// Areas that hold tables of keyed items: functions on an area whose form was tested.
#![tactic(auto)]

pub mod checked;
