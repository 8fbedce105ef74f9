// The messages that carry a whole delta: single and empty ones.
ghost use Rattle.std.specs.Prelude.{◌≡◌, List, ℕ};
ghost use Rattle.definitions.specs.Receiver.{snap_single_call, snap_empty_call};
ghost use Rattle.ticks.specs.Ticks.{distance_of};
ghost use Rattle.receiver.specs.States.{receiver_with};
ghost use Rattle.receiver.specs.Answers.{taken};

use super::checked::{Taking, Ticks};
use super::{DeltaReceiver, Received, checked};
use format::{Error, Warnings};
use ticks::{Distance, Tick};

// Takes a single message, its bytes copied to joined; the lengths are changed in place.
pub fn receive_single(
    r: Ticks,
    tick: Tick,
    delta_tick: Distance,
    crc: i32,
    lengths: &mut [u16; 32],
    data: &[u8],
    joined: &mut [u8],
) -> Taking
    ensures { (area : List ℕ) → snap_single_call (receiver_with r lengths.old) tick.0 (distance_of delta_tick) crc «data».now area joined.old ≡ taken result lengths.new area joined.new }
{
    let n = checked::count_in(lengths);
    if !checked::ticks_form(r, n) {
        return checked::refused(Error::NotInForm, r);
    }
    if joined.len() < DeltaReceiver::AREA_SIZE {
        return checked::refused(Error::ScratchTooShort, r);
    }
    if DeltaReceiver::PART_SIZE < data.len() {
        return checked::refused(Error::PartTooLong, r);
    }
    if checked::is_old(r, tick) {
        return checked::refused(Error::OldDelta, r);
    }
    let warnings = Warnings::received(checked::is_current(r, tick), false);
    *lengths = [901u16; 32];
    checked::put_bytes(joined, 0, data);
    let base = tick.minus(delta_tick);
    let delta = Received::Delta {
        tick,
        delta_tick: base,
        len: data.len(),
        crc,
    };
    Taking {
        answer: Ok(Some(delta)),
        warnings,
        ticks: checked::without_current(Some(tick)),
    }
}

// Takes an empty message; the lengths are changed in place.
pub fn receive_empty(r: Ticks, tick: Tick, delta_tick: Distance, lengths: &mut [u16; 32]) -> Taking
    ensures { (area second : List ℕ) → snap_empty_call (receiver_with r lengths.old) tick.0 (distance_of delta_tick) area second ≡ taken result lengths.new area second }
{
    let n = checked::count_in(lengths);
    if !checked::ticks_form(r, n) {
        return checked::refused(Error::NotInForm, r);
    }
    if checked::is_old(r, tick) {
        return checked::refused(Error::OldDelta, r);
    }
    let duplicate = checked::is_current(r, tick);
    let warnings = Warnings::received(duplicate, false);
    let base = tick.minus(delta_tick);
    *lengths = [901u16; 32];
    let empty = Received::Empty {
        tick,
        delta_tick: base,
    };
    Taking {
        answer: Ok(Some(empty)),
        warnings,
        ticks: checked::without_current(Some(tick)),
    }
}
