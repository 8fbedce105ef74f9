// The calls on a manager as C sees them.
#![tactic(auto)]

ghost use Rattle.std.specs.Prelude.{◌≡◌, [], ◌<◌, ◌^◌, length};
ghost use Rattle.definitions.specs.Areas.{cleared};
ghost use Rattle.definitions.specs.Messages.{Snap, SnapEmpty, SnapSingle};
ghost use Rattle.definitions.specs.Receiver.{fresh_receiver};
ghost use Rattle.definitions.specs.Storage.{beside, fresh_storage};
ghost use Rattle.definitions.specs.StorageCalls.{reset_call};
ghost use Rattle.definitions.specs.Manager.{message_call};
ghost use Rattle.boundary_states.specs.Rows.{ticks_of_receiver, counts_of_receiver, store_ticks, store_counts, held_receiver, held_store};
ghost use Rattle.capi_manager.specs.Told.{Told, Tells, Settles};

use boundary_states::checked::{
    load_receiver, load_storage, save_receiver, save_storage, write_receiver, write_storage,
};
use format::{Error, WARNING_KINDS, row};
use manager::{Handling, Manager};
use ticks::{Distance, Tick};

// A receiver without any tick, and a store without tables.
#[unsafe(no_mangle)]
pub extern "C" fn cef_manager_new(
    receiver_ticks: &mut [i32; 4],
    receiver_counts: &mut [u32; 3],
    lengths: &mut [u16; 32],
    ticks: &mut [i32; 2],
    counts: &mut [u32; 3],
)
    ensures receiver_ticks_after { receiver_ticks.new ≡ ticks_of_receiver fresh_receiver }
    ensures receiver_counts_after { receiver_counts.new ≡ counts_of_receiver fresh_receiver }
    ensures lengths_after { lengths.new ≡ fresh_receiver.parts }
    ensures ticks_after { ticks.new ≡ store_ticks (beside fresh_storage) }
    ensures counts_after { counts.new ≡ store_counts (beside fresh_storage) }
{
    let m = Manager::new();
    write_receiver(m.receiver, receiver_ticks, receiver_counts, lengths);
    write_storage(m.storage, ticks, counts);
}

// Forgets the receiver's ticks, and empties the store and its area, whatever it held; the base tick stays.
#[unsafe(no_mangle)]
pub extern "C" fn cef_manager_reset(
    receiver_ticks: &mut [i32; 4],
    receiver_counts: &mut [u32; 3],
    lengths: &mut [u16; 32],
    ticks: &mut [i32; 2],
    counts: &mut [u32; 3],
    area: &mut [i32],
)
    ensures receiver_ticks_after { receiver_ticks.new ≡ ticks_of_receiver fresh_receiver }
    ensures receiver_counts_after { receiver_counts.new ≡ counts_of_receiver fresh_receiver }
    ensures lengths_after { lengths.new ≡ fresh_receiver.parts }
    ensures ticks_after { ticks.new ≡ store_ticks (reset_call (held_store ticks.old counts.old) area.old).store }
    ensures counts_after { counts.new ≡ store_counts (reset_call (held_store ticks.old counts.old) area.old).store }
    ensures area_after { area.new ≡ (reset_call (held_store ticks.old counts.old) area.old).area }
{
    let receiver = load_receiver(receiver_ticks, receiver_counts, lengths);
    let storage = load_storage(ticks, counts);
    let m = Manager { receiver, storage };
    let emptied = m.reset(area);
    write_receiver(emptied.receiver, receiver_ticks, receiver_counts, lengths);
    write_storage(emptied.storage, ticks, counts);
}

// Sets whether a table was taken and its tick; returns the number of the answer.
fn tell(a: Result<Option<Tick>, Error>, taken: &mut u32, ack: &mut i32) -> u32
    ensures { Tells a taken.old ack.old taken.new ack.new result }
{
    match a {
        Ok(Some(tick)) => {
            *taken = 1;
            *ack = tick.0;
            0
        }
        Ok(None) => {
            *taken = 0;
            0
        }
        Err(e) => u32::from(e),
    }
}

// Writes the manager after a message into its rows, and sets the outputs of the message.
fn settle(
    h: Handling,
    receiver_ticks: &mut [i32; 4],
    receiver_counts: &mut [u32; 3],
    lengths: &mut [u16; 32],
    ticks: &mut [i32; 2],
    counts: &mut [u32; 3],
    taken: &mut u32,
    ack: &mut i32,
    warnings: &mut [usize; WARNING_KINDS],
) -> u32
    requires { h.manager.storage.count < 2 ^ 32 }
    ensures { Settles h (record { ticks_of_receiver = receiver_ticks.old; counts_of_receiver = receiver_counts.old; lengths = lengths.old; ticks = ticks.old; counts = counts.old; taken = taken.old; ack = ack.old }) (record { ticks_of_receiver = receiver_ticks.new; counts_of_receiver = receiver_counts.new; lengths = lengths.new; ticks = ticks.new; counts = counts.new; taken = taken.new; ack = ack.new }) warnings.new result }
{
    *warnings = row(h.warnings);
    let m = h.manager;
    save_receiver(m.receiver, receiver_ticks, receiver_counts, lengths);
    save_storage(m.storage, ticks, counts);
    tell(h.answer, taken, ack)
}

// Takes a part of a delta. With the last missing part, the delta is joined, read and applied to its base; the table is held and acknowledged.
#[unsafe(no_mangle)]
pub extern "C" fn cef_manager_snap(
    receiver_ticks: &mut [i32; 4],
    receiver_counts: &mut [u32; 3],
    lengths: &mut [u16; 32],
    ticks: &mut [i32; 2],
    counts: &mut [u32; 3],
    tick: i32,
    distance: i32,
    num_parts: i32,
    part: i32,
    crc: i32,
    data: &[u8],
    sizes: &[i32],
    parts: &mut [u8],
    joined: &mut [u8],
    delta: &mut [i32],
    area: &mut [i32],
    scratch: &mut [i32],
    taken: &mut u32,
    ack: &mut i32,
    warnings: &mut [usize; WARNING_KINDS],
) -> u32
    ensures told { Told (message_call sizes.now (held_receiver receiver_ticks.old receiver_counts.old lengths.old) (held_store ticks.old counts.old) (record { numbers = Snap tick (record { ticks = distance }) num_parts part crc; bytes = «data».now }) parts.old joined.old delta.old area.old (length scratch.old)) (record { ticks_of_receiver = receiver_ticks.old; counts_of_receiver = receiver_counts.old; lengths = lengths.old; ticks = ticks.old; counts = counts.old; taken = taken.old; ack = ack.old }) (record { ticks_of_receiver = receiver_ticks.new; counts_of_receiver = receiver_counts.new; lengths = lengths.new; ticks = ticks.new; counts = counts.new; taken = taken.new; ack = ack.new }) parts.new joined.new delta.new area.new warnings.new result }
    ensures scratch_after { scratch.new ≡ cleared scratch.old }
{
    let receiver = load_receiver(receiver_ticks, receiver_counts, lengths);
    let storage = load_storage(ticks, counts);
    let m = Manager { receiver, storage };
    let h = m.snap(
        Tick(tick),
        Distance(distance),
        num_parts,
        part,
        crc,
        data,
        sizes,
        parts,
        joined,
        delta,
        area,
        scratch,
    );
    settle(
        h,
        receiver_ticks,
        receiver_counts,
        lengths,
        ticks,
        counts,
        taken,
        ack,
        warnings,
    )
}

// Takes a whole delta.
#[unsafe(no_mangle)]
pub extern "C" fn cef_manager_snap_single(
    receiver_ticks: &mut [i32; 4],
    receiver_counts: &mut [u32; 3],
    lengths: &mut [u16; 32],
    ticks: &mut [i32; 2],
    counts: &mut [u32; 3],
    tick: i32,
    distance: i32,
    crc: i32,
    data: &[u8],
    sizes: &[i32],
    parts: &mut [u8],
    joined: &mut [u8],
    delta: &mut [i32],
    area: &mut [i32],
    scratch: &mut [i32],
    taken: &mut u32,
    ack: &mut i32,
    warnings: &mut [usize; WARNING_KINDS],
) -> u32
    ensures told { Told (message_call sizes.now (held_receiver receiver_ticks.old receiver_counts.old lengths.old) (held_store ticks.old counts.old) (record { numbers = SnapSingle tick (record { ticks = distance }) crc; bytes = «data».now }) parts.old joined.old delta.old area.old (length scratch.old)) (record { ticks_of_receiver = receiver_ticks.old; counts_of_receiver = receiver_counts.old; lengths = lengths.old; ticks = ticks.old; counts = counts.old; taken = taken.old; ack = ack.old }) (record { ticks_of_receiver = receiver_ticks.new; counts_of_receiver = receiver_counts.new; lengths = lengths.new; ticks = ticks.new; counts = counts.new; taken = taken.new; ack = ack.new }) parts.new joined.new delta.new area.new warnings.new result }
    ensures scratch_after { scratch.new ≡ cleared scratch.old }
{
    let receiver = load_receiver(receiver_ticks, receiver_counts, lengths);
    let storage = load_storage(ticks, counts);
    let m = Manager { receiver, storage };
    let h = m.snap_single(
        Tick(tick),
        Distance(distance),
        crc,
        data,
        sizes,
        parts,
        joined,
        delta,
        area,
        scratch,
    );
    settle(
        h,
        receiver_ticks,
        receiver_counts,
        lengths,
        ticks,
        counts,
        taken,
        ack,
        warnings,
    )
}

// Takes an empty delta: the table equals its base.
#[unsafe(no_mangle)]
pub extern "C" fn cef_manager_snap_empty(
    receiver_ticks: &mut [i32; 4],
    receiver_counts: &mut [u32; 3],
    lengths: &mut [u16; 32],
    ticks: &mut [i32; 2],
    counts: &mut [u32; 3],
    tick: i32,
    distance: i32,
    parts: &mut [u8],
    joined: &mut [u8],
    delta: &mut [i32],
    area: &mut [i32],
    scratch: &mut [i32],
    taken: &mut u32,
    ack: &mut i32,
    warnings: &mut [usize; WARNING_KINDS],
) -> u32
    ensures told { Told (message_call [] (held_receiver receiver_ticks.old receiver_counts.old lengths.old) (held_store ticks.old counts.old) (record { numbers = SnapEmpty tick (record { ticks = distance }); bytes = [] }) parts.old joined.old delta.old area.old (length scratch.old)) (record { ticks_of_receiver = receiver_ticks.old; counts_of_receiver = receiver_counts.old; lengths = lengths.old; ticks = ticks.old; counts = counts.old; taken = taken.old; ack = ack.old }) (record { ticks_of_receiver = receiver_ticks.new; counts_of_receiver = receiver_counts.new; lengths = lengths.new; ticks = ticks.new; counts = counts.new; taken = taken.new; ack = ack.new }) parts.new joined.new delta.new area.new warnings.new result }
    ensures scratch_after { scratch.new ≡ cleared scratch.old }
{
    let receiver = load_receiver(receiver_ticks, receiver_counts, lengths);
    let storage = load_storage(ticks, counts);
    let m = Manager { receiver, storage };
    let t = Tick(tick);
    let d = Distance(distance);
    let h = m.snap_empty(t, d, parts, joined, delta, area, scratch);
    settle(
        h,
        receiver_ticks,
        receiver_counts,
        lengths,
        ticks,
        counts,
        taken,
        ack,
        warnings,
    )
}
