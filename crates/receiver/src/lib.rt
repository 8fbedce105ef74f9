// The receiver of a delta's parts.
#![tactic(auto)]

ghost use Rattle.std.specs.Prelude.{◌≡◌, List, ℕ};
ghost use Rattle.definitions.specs.Receiver.{fresh_receiver, snap_call, snap_single_call, snap_empty_call};
ghost use Rattle.format.specs.Totals.{counts};
ghost use Rattle.ticks.specs.Ticks.{distance_of};
ghost use Rattle.receiver.specs.States.{receiver_of};
ghost use Rattle.receiver.specs.Answers.{received_with};

use checked::Part;
use format::{Error, Warnings};
use ticks::{Distance, Tick};

pub mod checked;
pub mod whole;

// What the first part of an unfinished tick fixed.
#[derive(Clone, Copy)]
pub struct CurrentDelta {
    pub tick: Tick,
    pub delta_tick: Tick,
    pub num_parts: u32,
    pub crc: i32,
}

// The last finished tick and the unfinished one, if any, and the length of each part, above 900 if it is not in.
#[derive(Clone, Copy)]
pub struct DeltaReceiver {
    pub previous_tick: Option<Tick>,
    pub current: Option<CurrentDelta>,
    pub parts: [u16; 32],
}

// A delta that was received: its tick and base, and unless it is empty, its joined bytes' count and its sum.
#[derive(Clone, Copy)]
pub enum Received {
    Delta {
        tick: Tick,
        delta_tick: Tick,
        len: usize,
        crc: i32,
    },
    Empty {
        tick: Tick,
        delta_tick: Tick,
    },
}

// The answer of a call on a receiver (a delta, none yet, or why the message is refused), with the warnings counted and the receiver afterwards.
#[derive(Clone, Copy)]
pub struct Receiving {
    pub answer: Result<Option<Received>, Error>,
    pub warnings: Warnings,
    pub receiver: DeltaReceiver,
}

impl DeltaReceiver {
    // The most parts of a delta.
    pub const MAX_PARTS: usize = 32;

    // The most bytes of a part.
    pub const PART_SIZE: usize = 900;

    // The most bytes of all parts.
    pub const AREA_SIZE: usize = 28800;

    // A receiver without any ticks.
    pub fn new() -> DeltaReceiver
        ensures { receiver_of result ≡ fresh_receiver }
    {
        let t = checked::without_current(None);
        checked::with_lengths(t, [901u16; 32])
    }

    // Forgets both ticks.
    pub fn reset(self) -> DeltaReceiver
        ensures { receiver_of result ≡ fresh_receiver }
    {
        DeltaReceiver::new()
    }

    // Takes a part of a delta; the last one missing joins them all in joined.
    pub fn snap(
        self,
        tick: Tick,
        delta_tick: Distance,
        num_parts: i32,
        part: i32,
        crc: i32,
        data: &[u8],
        parts: &mut [u8],
        joined: &mut [u8],
    ) -> Receiving
        ensures { snap_call (receiver_of self) (record { tick = tick.0; distance = distance_of delta_tick; num_parts = num_parts; part = part; crc = crc }) «data».now parts.old joined.old ≡ record { answer = received_with result.answer (counts result.warnings); receiver = receiver_of result.receiver; parts = parts.new; joined = joined.new } }
    {
        let m = Part {
            tick,
            delta_tick,
            num_parts,
            part,
            crc,
        };
        let mut lengths = self.parts;
        let a = checked::receive(
            checked::ticks_of(self),
            m,
            &mut lengths,
            data,
            parts,
            joined,
        );
        checked::receiving(a, lengths)
    }

    // Takes a whole delta, copied to joined.
    pub fn snap_single(
        self,
        tick: Tick,
        delta_tick: Distance,
        crc: i32,
        data: &[u8],
        joined: &mut [u8],
    ) -> Receiving
        ensures { (area : List ℕ) → snap_single_call (receiver_of self) tick.0 (distance_of delta_tick) crc «data».now area joined.old ≡ record { answer = received_with result.answer (counts result.warnings); receiver = receiver_of result.receiver; parts = area; joined = joined.new } }
    {
        let t = checked::ticks_of(self);
        let mut lengths = self.parts;
        let a = whole::receive_single(t, tick, delta_tick, crc, &mut lengths, data, joined);
        checked::receiving(a, lengths)
    }

    // Takes an empty delta.
    pub fn snap_empty(self, tick: Tick, delta_tick: Distance) -> Receiving
        ensures { (area second : List ℕ) → snap_empty_call (receiver_of self) tick.0 (distance_of delta_tick) area second ≡ record { answer = received_with result.answer (counts result.warnings); receiver = receiver_of result.receiver; parts = area; joined = second } }
    {
        let t = checked::ticks_of(self);
        let mut lengths = self.parts;
        let a = whole::receive_empty(t, tick, delta_tick, &mut lengths);
        checked::receiving(a, lengths)
    }
}
