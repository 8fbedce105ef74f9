// The steps of reading a delta: in one pass if its keys rise already, else in any order. They leave scratch in any state.
ghost use Rattle.std.specs.Prelude.{◌≡◌, ◌≤◌, length};
ghost use Rattle.definitions.specs.Outcome.{refuse};
ghost use Rattle.definitions.specs.Stream.{stream};
ghost use Rattle.definitions.specs.DeltaReading.{int_stream, read_delta};
ghost use Rattle.definitions.specs.DeltaCalls.{stored_delta, read_from_ints_call, read_call};
ghost use Rattle.format.specs.Numbers.{number};
ghost use Rattle.format.specs.Totals.{counts};
ghost use Rattle.format.specs.Answers.{stored_with};

use delta_any_order::checked::read_any;
use delta_reading::checked::read_ordered;
use format::{Error, Reading, Warnings};

// The refusal of a call before anything is read.
pub fn refused(error: Error) -> Reading
    ensures { refuse (number error) ≡ stored_with result.answer (counts result.warnings) }
{
    Reading {
        answer: Err(error),
        warnings: Warnings::none(),
    }
}

// Reads a delta from ints into the front of out.
pub fn read_ints(src: &[i32], sizes: &[i32], out: &mut [i32], scratch: &mut [i32]) -> Reading
    requires { length src.now ≤ 1048576 }
    ensures { stored_delta out.old (read_delta sizes.now (int_stream src.now)) ≡ record { answer = stored_with result.answer (counts result.warnings); out = out.new } }
{
    let Some(ordered) = read_ordered(src, sizes, out) else {
        return read_any(b"", src, false, sizes, out, scratch);
    };
    Reading {
        answer: ordered.answer,
        warnings: Warnings::delta(0, false, false, 0, ordered.delete_updates, false),
    }
}

// Reads a packed delta into the front of out.
pub fn read_packed(src: &[u8], sizes: &[i32], out: &mut [i32], scratch: &mut [i32]) -> Reading
    requires { (length src.now ≤ 1048576) × (length src.now ≤ length scratch.old) }
    ensures { stored_delta out.old (read_delta sizes.now (stream src.now)) ≡ record { answer = stored_with result.answer (counts result.warnings); out = out.new } }
{
    let all = packer::checked::scan_all(src, scratch);
    if all.cut || all.padded {
        return read_any(src, &sizes[..0], true, sizes, out, scratch);
    }
    let Some(ordered) = read_ordered(&scratch[..all.count], sizes, out) else {
        return read_any(src, &sizes[..0], true, sizes, out, scratch);
    };
    Reading {
        answer: ordered.answer,
        warnings: Warnings::delta(all.overlong, false, false, 0, ordered.delete_updates, false),
    }
}

// Reads a delta from ints, unless scratch is too short or there are too many ints.
pub fn judge_ints(src: &[i32], sizes: &[i32], out: &mut [i32], scratch: &mut [i32]) -> Reading
    ensures { read_from_ints_call src.now sizes.now out.old (length scratch.old) ≡ record { answer = stored_with result.answer (counts result.warnings); out = out.new } }
{
    if scratch.len() < 16384 {
        return refused(Error::ScratchTooShort);
    }
    if 1048576 < src.len() {
        return refused(Error::InputTooLong);
    }
    read_ints(src, sizes, out, scratch)
}

// Reads a packed delta, unless scratch is too short or there are too many bytes.
pub fn judge_packed(src: &[u8], sizes: &[i32], out: &mut [i32], scratch: &mut [i32]) -> Reading
    ensures { read_call src.now sizes.now out.old (length scratch.old) ≡ record { answer = stored_with result.answer (counts result.warnings); out = out.new } }
{
    if scratch.len() < 16384 {
        return refused(Error::ScratchTooShort);
    }
    if scratch.len() < src.len() {
        return refused(Error::ScratchTooShort);
    }
    if 1048576 < src.len() {
        return refused(Error::InputTooLong);
    }
    read_packed(src, sizes, out, scratch)
}
