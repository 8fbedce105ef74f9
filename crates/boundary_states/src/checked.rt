// A receiver and a store in rows of numbers.
ghost use Rattle.std.specs.Prelude.{◌≡◌, List, [], ℕ, ◌<◌, ◌^◌};
ghost use Rattle.receiver.specs.States.{receiver_of, receiver_with, current_of};
ghost use Rattle.storage.specs.States.{store_of};
ghost use Rattle.boundary_states.specs.Rows.{ticks_of_receiver, counts_of_receiver, store_ticks, store_counts};
ghost use Rattle.boundary_states.specs.Rows.{held_receiver, ticks_of, held_store, SavedReceiver, SavedStore, Compares};

use boundary::checked::flag;
use receiver::checked::{Ticks, ticks_of, with_lengths};
use receiver::{CurrentDelta, DeltaReceiver};
use storage::Storage;
use ticks::Tick;

// Reads the ticks of a receiver from two rows.
pub fn load_ticks(ticks: &[i32; 4], counts: &[u32; 3]) -> Ticks
    ensures { (lengths : List ℕ) → receiver_with result lengths ≡ held_receiver ticks.now counts.now lengths }
{
    let opened = CurrentDelta {
        tick: Tick(ticks[1]),
        delta_tick: Tick(ticks[2]),
        num_parts: counts[2],
        crc: ticks[3],
    };
    Ticks {
        previous_tick: (counts[0] != 0).then_some(Tick(ticks[0])),
        current: (counts[1] != 0).then_some(opened),
    }
}

// Writes the ticks of a receiver into their rows.
pub fn write_ticks(r: Ticks, ticks: &mut [i32; 4], counts: &mut [u32; 3])
    ensures ticks_after { ticks.new ≡ ticks_of_receiver (receiver_with r []) }
    ensures counts_after { counts.new ≡ counts_of_receiver (receiver_with r []) }
{
    let has_previous = flag(r.previous_tick.is_some());
    let has_current = flag(r.current.is_some());
    let previous = r.previous_tick.unwrap_or(Tick(0));
    let opened = r.current.unwrap_or(CurrentDelta {
        tick: Tick(0),
        delta_tick: Tick(0),
        num_parts: 0,
        crc: 0,
    });
    *ticks = [previous.0, opened.tick.0, opened.delta_tick.0, opened.crc];
    *counts = [has_previous, has_current, opened.num_parts];
}

// Reads a receiver from three rows.
pub fn load_receiver(ticks: &[i32; 4], counts: &[u32; 3], lengths: &[u16; 32]) -> DeltaReceiver
    ensures { receiver_of result ≡ held_receiver ticks.now counts.now lengths.now }
{
    with_lengths(load_ticks(ticks, counts), *lengths)
}

// Writes a receiver into its rows.
pub fn write_receiver(
    r: DeltaReceiver,
    ticks: &mut [i32; 4],
    counts: &mut [u32; 3],
    lengths: &mut [u16; 32],
)
    ensures ticks_after { ticks.new ≡ ticks_of_receiver (receiver_of r) }
    ensures counts_after { counts.new ≡ counts_of_receiver (receiver_of r) }
    ensures lengths_after { lengths.new ≡ (receiver_of r).parts }
{
    write_ticks(ticks_of(r), ticks, counts);
    let parts = r.parts;
    *lengths = parts;
}

// Reads a store from two rows.
pub fn load_storage(ticks: &[i32; 2], counts: &[u32; 3]) -> Storage
    ensures result_value { store_of result ≡ held_store ticks.now counts.now }
    ensures count_bound { result.count < 2 ^ 32 }
{
    Storage {
        count: counts[0] as usize,
        ack_tick: (counts[1] != 0).then_some(Tick(ticks[0])),
        delta_tick: (counts[2] != 0).then_some(Tick(ticks[1])),
    }
}

// Writes a store into its rows.
pub fn write_storage(s: Storage, ticks: &mut [i32; 2], counts: &mut [u32; 3])
    requires { s.count < 2 ^ 32 }
    ensures ticks_after { ticks.new ≡ store_ticks (store_of s) }
    ensures counts_after { counts.new ≡ store_counts (store_of s) }
{
    let has_ack = flag(s.ack_tick.is_some());
    let has_base = flag(s.delta_tick.is_some());
    let ack = s.ack_tick.unwrap_or(Tick(0));
    let base = s.delta_tick.unwrap_or(Tick(0));
    *ticks = [ack.0, base.0];
    *counts = [s.count as u32, has_ack, has_base];
}

// Whether two unfinished ticks are equal or both absent.
fn same_current(a: Option<CurrentDelta>, b: Option<CurrentDelta>) -> bool
    ensures { Compares (current_of a) (current_of b) result }
{
    match (a, b) {
        (Some(x), Some(y)) => {
            x.tick == y.tick
                && x.delta_tick == y.delta_tick
                && x.num_parts == y.num_parts
                && x.crc == y.crc
        }
        (None, None) => true,
        _ => false,
    }
}

// Whether two receivers are equal except for the lengths of parts.
fn same_ticks(a: DeltaReceiver, b: DeltaReceiver) -> bool
    ensures { Compares (ticks_of (receiver_of a)) (ticks_of (receiver_of b)) result }
{
    a.previous_tick == b.previous_tick && same_current(a.current, b.current)
}

// Writes a receiver into its rows; those of its ticks are unchanged if they hold them already.
pub fn save_receiver(
    r: DeltaReceiver,
    ticks: &mut [i32; 4],
    counts: &mut [u32; 3],
    lengths: &mut [u16; 32],
)
    ensures { SavedReceiver (receiver_of r) ticks.old counts.old lengths.old ticks.new counts.new lengths.new }
{
    let before = load_receiver(ticks, counts, lengths);
    if same_ticks(before, r) {
        let parts = r.parts;
        *lengths = parts;
        return;
    }
    write_receiver(r, ticks, counts, lengths);
}

// Whether two stores are equal.
fn same_storage(a: Storage, b: Storage) -> bool
    ensures { Compares (store_of a) (store_of b) result }
{
    a.count == b.count && a.ack_tick == b.ack_tick && a.delta_tick == b.delta_tick
}

// Writes a store into its rows, which are unchanged if they hold it already.
pub fn save_storage(s: Storage, ticks: &mut [i32; 2], counts: &mut [u32; 3])
    requires { s.count < 2 ^ 32 }
    ensures { SavedStore (store_of s) ticks.old counts.old ticks.new counts.new }
{
    let before = load_storage(ticks, counts);
    if same_storage(before, s) {
        return;
    }
    write_storage(s, ticks, counts);
}
