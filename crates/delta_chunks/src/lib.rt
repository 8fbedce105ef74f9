// Cutting the bytes of a delta into messages.
#![tactic(auto)]

ghost use Rattle.std.specs.Prelude.{◌≡◌, ◌<◌, ℤ};
ghost use Rattle.definitions.specs.Messages.{num_chunks_call, chunk_call};
ghost use Rattle.delta_chunks.specs.Answers.{chunk_count, chunk_of, bytes_of};

use format::Error;
use gamenet_snap::{MAX_SNAPSHOT_PACKSIZE, SnapMsg};
use ticks::Tick;

// The most bytes that a call takes.
const MAX_DATA: usize = 1048576;

// How many messages the bytes of a delta make.
pub fn num_chunks(data: &[u8]) -> Result<usize, Error>
    ensures { (tick base crc : ℤ) → num_chunks_call tick base «data».now crc ≡ chunk_count result }
{
    if MAX_DATA < data.len() {
        return Err(Error::InputTooLong);
    }
    if data.is_empty() {
        return Ok(1);
    }
    Ok(data.len().div_ceil(MAX_SNAPSHOT_PACKSIZE))
}

// The numbers of the i-th message, if there is one; delta_tick is the base's tick, and the distance wraps.
pub fn chunk_numbers(
    tick: Tick,
    delta_tick: Tick,
    data: &[u8],
    crc: i32,
    i: usize,
) -> Result<Option<SnapMsg>, Error>
    ensures { chunk_call tick.0 delta_tick.0 «data».now crc i ≡ chunk_of result (bytes_of (chunk_call tick.0 delta_tick.0 «data».now crc i)) }
{
    if MAX_DATA < data.len() {
        return Err(Error::InputTooLong);
    }
    let distance = tick.since(delta_tick);
    if data.is_empty() {
        if i == 0 {
            return Ok(Some(SnapMsg::SnapEmpty {
                tick,
                delta_tick: distance,
            }));
        }
        return Ok(None);
    }
    if data.len() <= MAX_SNAPSHOT_PACKSIZE {
        if i == 0 {
            return Ok(Some(SnapMsg::SnapSingle {
                tick,
                delta_tick: distance,
                crc,
            }));
        }
        return Ok(None);
    }
    let n = data.len().div_ceil(MAX_SNAPSHOT_PACKSIZE);
    if n <= i {
        return Ok(None);
    }
    Ok(Some(SnapMsg::Snap {
        tick,
        delta_tick: distance,
        num_parts: n as i32,
        part: i as i32,
        crc,
    }))
}

// The bytes of the i-th message, as a part of the delta's bytes; empty if there is no such message.
pub fn chunk_data(data: &[u8], i: usize) -> &[u8]
    ensures { (tick base crc : ℤ) → result.now ≡ bytes_of (chunk_call tick base «data».now crc i) }
{
    if MAX_DATA < data.len() {
        return &data[..0];
    }
    if data.len() <= MAX_SNAPSHOT_PACKSIZE {
        if i == 0 {
            return data;
        }
        return &data[..0];
    }
    if data.len().div_ceil(MAX_SNAPSHOT_PACKSIZE) <= i {
        return &data[..0];
    }
    let from = i * MAX_SNAPSHOT_PACKSIZE;
    if data.len() - from <= MAX_SNAPSHOT_PACKSIZE {
        return &data[from..];
    }
    &data[from..from + MAX_SNAPSHOT_PACKSIZE]
}
