// The messages that carry a delta: their numbers. Their bytes are a slice of their own.
#![tactic(auto)]

use ticks::{Distance, Tick};

// The most bytes that a message carries.
pub const MAX_SNAPSHOT_PACKSIZE: usize = 900;

// The numbers of a message; delta_tick is the distance from the base's tick to the table's.
#[derive(Clone, Copy)]
pub enum SnapMsg {
    Snap {
        tick: Tick,
        delta_tick: Distance,
        num_parts: i32,
        part: i32,
        crc: i32,
    },
    SnapEmpty {
        tick: Tick,
        delta_tick: Distance,
    },
    SnapSingle {
        tick: Tick,
        delta_tick: Distance,
        crc: i32,
    },
}
