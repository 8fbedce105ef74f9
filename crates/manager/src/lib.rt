// The manager of a printer: a receiver and a store.
#![tactic(auto)]

ghost use Rattle.std.specs.Prelude.{◌≡◌, List, [], ℤ, length};
ghost use Rattle.definitions.specs.Areas.{cleared};
ghost use Rattle.definitions.specs.Outcome.{return};
ghost use Rattle.definitions.specs.Messages.{Snap, SnapEmpty, SnapSingle};
ghost use Rattle.definitions.specs.Receiver.{fresh_receiver};
ghost use Rattle.definitions.specs.Storage.{beside, fresh_storage};
ghost use Rattle.definitions.specs.StorageCalls.{reset_call};
ghost use Rattle.definitions.specs.Manager.{message_call};
ghost use Rattle.ticks.specs.Ticks.{distance_of, tick_of};
ghost use Rattle.receiver.specs.States.{receiver_of};
ghost use Rattle.storage.specs.States.{store_of};
ghost use Rattle.manager.specs.Answers.{handlings};

use format::{Error, Warnings};
use gamenet_snap::SnapMsg;
use receiver::DeltaReceiver;
use storage::Storage;
use ticks::{Distance, Tick};

pub mod checked;

// A receiver and a store.
#[derive(Clone, Copy)]
pub struct Manager {
    pub receiver: DeltaReceiver,
    pub storage: Storage,
}

// The result of a call: the tick of the table that was made and acknowledged, none if parts are missing, or why the message is refused; the
// warnings counted; the manager afterwards.
#[derive(Clone, Copy)]
pub struct Handling {
    pub answer: Result<Option<Tick>, Error>,
    pub warnings: Warnings,
    pub manager: Manager,
}

impl Manager {
    // A receiver without any tick, and a store without tables.
    pub fn new() -> Manager
        ensures { (receiver_of result.receiver ≡ fresh_receiver) × (store_of result.storage ≡ beside fresh_storage) }
    {
        let receiver = DeltaReceiver::new();
        let storage = Storage::new();
        Manager { receiver, storage }
    }

    // Forgets the receiver's ticks, and empties the store and its area; the base tick stays.
    pub fn reset(self, area: &mut [i32]) -> Manager
        ensures { (receiver_of result.receiver ≡ fresh_receiver) × (reset_call (store_of self.storage) area.old ≡ record { answer = return tt; store = store_of result.storage; area = area.new }) }
    {
        let receiver = self.receiver.reset();
        let storage = self.storage.reset(area);
        Manager { receiver, storage }
    }

    // The tick acknowledged last.
    pub fn ack_tick(self) -> Option<Tick>
        ensures { tick_of result ≡ (store_of self.storage).ack_tick }
    {
        self.storage.ack_tick()
    }

    // Takes a part of a delta. With the last missing part, the delta is joined, read and applied to its base; the table is held and acknowledged.
    // Both part areas need at least 28,800 bytes, and scratch as many entries; scratch is all zeros afterwards.
    pub fn snap(
        self,
        tick: Tick,
        delta_tick: Distance,
        num_parts: i32,
        part: i32,
        crc: i32,
        data: &[u8],
        sizes: &[i32],
        parts: &mut [u8],
        joined: &mut [u8],
        delta: &mut [i32],
        area: &mut [i32],
        scratch: &mut [i32],
    ) -> Handling
        ensures { (message_call sizes.now (receiver_of self.receiver) (store_of self.storage) (record { numbers = Snap tick.0 (distance_of delta_tick) num_parts part crc; bytes = «data».now }) parts.old joined.old delta.old area.old (length scratch.old) ≡ handlings result parts.new joined.new delta.new area.new) × (scratch.new ≡ cleared scratch.old) }
    {
        let m = SnapMsg::Snap {
            tick,
            delta_tick,
            num_parts,
            part,
            crc,
        };
        checked::message(self, m, data, sizes, parts, joined, delta, area, scratch)
    }

    // Takes a whole delta. The areas need the same lengths as for a part.
    pub fn snap_single(
        self,
        tick: Tick,
        delta_tick: Distance,
        crc: i32,
        data: &[u8],
        sizes: &[i32],
        parts: &mut [u8],
        joined: &mut [u8],
        delta: &mut [i32],
        area: &mut [i32],
        scratch: &mut [i32],
    ) -> Handling
        ensures { (message_call sizes.now (receiver_of self.receiver) (store_of self.storage) (record { numbers = SnapSingle tick.0 (distance_of delta_tick) crc; bytes = «data».now }) parts.old joined.old delta.old area.old (length scratch.old) ≡ handlings result parts.new joined.new delta.new area.new) × (scratch.new ≡ cleared scratch.old) }
    {
        let m = SnapMsg::SnapSingle {
            tick,
            delta_tick,
            crc,
        };
        checked::message(self, m, data, sizes, parts, joined, delta, area, scratch)
    }

    // Takes an empty delta: the table equals its base. The areas need the same lengths as for a part.
    pub fn snap_empty(
        self,
        tick: Tick,
        delta_tick: Distance,
        parts: &mut [u8],
        joined: &mut [u8],
        delta: &mut [i32],
        area: &mut [i32],
        scratch: &mut [i32],
    ) -> Handling
        ensures { ((sizes : List ℤ) → message_call sizes (receiver_of self.receiver) (store_of self.storage) (record { numbers = SnapEmpty tick.0 (distance_of delta_tick); bytes = [] }) parts.old joined.old delta.old area.old (length scratch.old) ≡ handlings result parts.new joined.new delta.new area.new) × (scratch.new ≡ cleared scratch.old) }
    {
        let m = SnapMsg::SnapEmpty { tick, delta_tick };
        let sizes = [0i32; 1];
        checked::message(self, m, b"", &sizes, parts, joined, delta, area, scratch)
    }
}
