// Packed integers.
// Format: ESDD_DDDD EDDD_DDDD EDDD_DDDD EDDD_DDDD PPPP_DDDD
// E: another byte follows; S: sign; D: digits, the lowest first; P: padding, written as 0 and refused if it is not.
#![tactic(auto)]

ghost use Rattle.std.specs.Prelude.{◌≡◌, false, [], ◌∷◌, ◌+◌, ◌≤◌, ◌<◌, ◌^◌, leb, length};
ghost use Rattle.std.specs.Int.Signed.{mag};
ghost use Rattle.definitions.specs.Areas.{lay_at};
ghost use Rattle.definitions.specs.Outcome.{ok, err, return};
ghost use Rattle.definitions.specs.Packed.{sign_bit, write_more, write_int, pack_ints};
ghost use Rattle.definitions.specs.Stored.{stored};
ghost use Rattle.definitions.specs.Stream.{stream, is_padded};
ghost use Rattle.definitions.specs.Packer.{read_int_call, write_int_at, unpack_stream, unpack_call};
ghost use Rattle.laws.specs.WarningLaws.{packed};
ghost use Rattle.format.specs.Numbers.{number};
ghost use Rattle.format.specs.Totals.{counts};
ghost use Rattle.format.specs.Answers.{stored_ints};
ghost use Rattle.packer.specs.Answers.{int_read, unpacked};
ghost use Rattle.packer.specs.Bytes.{extend_bit, padded_bytes};

use checked::{Totals, pack_at, scan, scan_all};
use format::{Error, Warnings};

pub mod checked;
pub mod places;
mod readers;

// The readers, and what they answer to callers that hold none.
pub use readers::{IntUnpacker, ReaderAnswer, Unpacker, read_bytes, read_ints};

// The most bytes or ints that a call reads.
pub const MAX_INPUT: usize = 1048576;

// The int at a place, with the place after it and whether a shorter form exists.
#[derive(Clone, Copy)]
pub struct IntRead {
    pub value: i32,
    pub next: usize,
    pub overlong: bool,
}

// How many ints were unpacked, and whether the last one of the bytes was cut.
#[derive(Clone, Copy)]
pub struct IntsRead {
    pub count: usize,
    pub cut: bool,
}

// The answer of unpacking, with the warnings it counted.
#[derive(Clone, Copy)]
pub struct Unpacked {
    pub answer: Result<IntsRead, Error>,
    pub warnings: Warnings,
}

// The integer at a place of src.
pub fn read_int(src: &[u8], at: usize) -> Result<IntRead, Error>
    ensures { read_int_call src.now at ≡ int_read result }
{
    if MAX_INPUT < src.len() {
        return Err(Error::InputTooLong);
    }
    checked::read_int(src, at)
}

// E: the extend bit of the first byte, set if its six digits do not suffice.
fn extend_bit(digits: u32) -> u32
    ensures { (result ≡ extend_bit digits) × (result ≤ 128) }
{
    if digits < 64 { 0 } else { 128 }
}

// S: the sign bit of the first byte.
fn sign_bit(x: i32) -> u32
    ensures { (result ≡ sign_bit x) × (result ≤ 64) }
{
    if x < 0 { 64 } else { 0 }
}

// D: the digits of an int: x, or -1 - x if x is negative.
fn magnitude(x: i32) -> u32
    ensures { (result ≡ mag x) × (result < 2 ^ 31) }
{
    if x < 0 { !x as u32 } else { x as u32 }
}

// How many bytes the shortest form of an int takes.
pub fn written_len(int: i32) -> usize
    ensures { result ≡ length (write_int int) }
{
    let digits = magnitude(int);
    if digits < 64 {
        return 1;
    }
    if digits < 8192 {
        return 2;
    }
    if digits < 1048576 {
        return 3;
    }
    if digits < 134217728 {
        return 4;
    }
    5
}

// Writes the shortest form of an int into out at a place; if it does not fit, out is unchanged.
pub fn write_int(out: &mut [u8], at: usize, int: i32) -> Result<usize, Error>
    ensures { write_int_at out.old at int ≡ record { answer = stored_ints result; out = out.new } }
{
    if out.len() < at {
        return Err(Error::CapacityError);
    }
    if out.len() - at < written_len(int) {
        return Err(Error::CapacityError);
    }
    Ok(put_int(out, at, int))
}

// Writes the shortest form of an int, which fits, into out at a place; returns the place after it. The steps stand in the order of the
// format line.
fn put_int(out: &mut [u8], at: usize, int: i32) -> usize
    requires { at + length (write_int int) ≤ length out.old }
    ensures { (result ≡ at + length (write_int int)) × (out.new ≡ lay_at at (write_int int) out.old) }
{
    let extend = extend_bit(magnitude(int)); // E
    let sign = sign_bit(int); // S
    let digits = magnitude(int); // D
    if extend == 0 {
        out[at] = (sign + digits) as u8; // ESDD_DDDD, E clear
        return at + 1;
    }
    out[at] = (extend + sign + digits % 64) as u8; // ESDD_DDDD, E set
    write_more(out, at + 1, digits / 64) // EDDD_DDDD ..
}

// Writes the digits above the first six into out from a place on; returns the place after them.
fn write_more(out: &mut [u8], start: usize, digits: u32) -> usize
    requires { (digits < 2 ^ 25) × (start + length (write_more 3 digits) ≤ length out.old) }
    ensures { (result ≡ start + length (write_more 3 digits)) × (out.new ≡ lay_at start (write_more 3 digits) out.old) }
{
    let mut at = start;
    let mut left = digits;
    // The turns depend on the digits that are left, so no range has them.
    while 128 <= left {
        out[at] = (128 + left % 128) as u8; // EDDD_DDDD, E set
        left /= 128;
        at += 1;
    }
    // EDDD_DDDD, E clear. Of a fifth byte, PPPP_DDDD, P is 0: 27 of the 31 digits are written by then, so left is below 16.
    out[at] = left as u8;
    at + 1
}

// Writes an int into out at a place, if out reaches that far.
fn put(out: &mut [i32], at: usize, x: i32)
    ensures { out.new ≡ lay_at at (x ∷ []) out.old }
{
    if at < out.len() {
        out[at] = x;
    }
}

// Whether five bytes are those of an integer with padding bits set. There is no early exit, so that the compiler can test several places
// at once.
fn is_padded(a: u8, b: u8, c: u8, d: u8, e: u8) -> bool
    ensures { result ≡ padded_bytes a b c d e }
{
    (128 <= a) & (128 <= b) & (128 <= c) & (128 <= d) & (16 <= e)
}

// Whether an integer of src may have padding bits set. No place is passed over, whether an integer begins there or not, and the answer is
// the same: in bytes without padding each integer ends at the first byte below 128.
fn may_have_padding(src: &[u8]) -> bool
    ensures { result ≡ false → is_padded (stream src.now) ≡ false }
{
    let mut found = false;
    for p in 0..src.len().saturating_sub(4) {
        found |= is_padded(src[p], src[p + 1], src[p + 2], src[p + 3], src[p + 4]);
    }
    found
}

// The answer of a pass that wrote all integers.
fn all_unpacked(all: Totals) -> Unpacked
    ensures { unpacked result.answer (counts result.warnings) ≡ ok (record { count = all.count; cut = all.cut }) (packed all.overlong) }
{
    Unpacked {
        answer: Ok(IntsRead {
            count: all.count,
            cut: all.cut,
        }),
        warnings: Warnings::packed(all.overlong),
    }
}

// The answer of a pass that wrote none.
fn none_unpacked(error: Error, all: Totals) -> Unpacked
    ensures { unpacked result.answer (counts result.warnings) ≡ err (number error) (packed all.overlong) }
{
    Unpacked {
        answer: Err(error),
        warnings: Warnings::packed(all.overlong),
    }
}

// Unpacks all integers of src into the front of out. If one has padding bits set or they do not fit, out is unchanged.
fn unpack_judged(src: &[u8], out: &mut [i32]) -> Unpacked
    ensures { unpack_stream (stream src.now) out.old ≡ record { answer = unpacked result.answer (counts result.warnings); out = out.new } }
{
    if src.len() <= out.len() && !may_have_padding(src) {
        return all_unpacked(scan_all(src, out));
    }
    let all = scan(src, &mut out[..0]);
    if all.padded {
        return none_unpacked(Error::NonZeroIntPadding, all);
    }
    if out.len() < all.count {
        return none_unpacked(Error::CapacityError, all);
    }
    all_unpacked(scan(src, out))
}

// Unpacks all integers of src into the front of out. A refused call leaves out unchanged.
pub fn unpack(src: &[u8], out: &mut [i32]) -> Unpacked
    ensures { unpack_call src.now out.old ≡ record { answer = unpacked result.answer (counts result.warnings); out = out.new } }
{
    if MAX_INPUT < src.len() {
        return Unpacked {
            answer: Err(Error::InputTooLong),
            warnings: Warnings::none(),
        };
    }
    unpack_judged(src, out)
}

// Whether the packed form of src has at most room bytes. If five bytes for each int fit, no int is looked at.
fn packs_into(src: &[i32], room: usize) -> bool
    ensures { result ≡ leb (length (pack_ints src.now)) room }
{
    if src.len() <= room / 5 {
        return true;
    }
    let mut left = room;
    for int in src {
        let n = written_len(*int);
        if left < n {
            return false;
        }
        left -= n;
    }
    true
}

// Packs all of src into the front of out and returns the number of bytes; if it does not fit, out is unchanged.
pub fn pack(src: &[i32], out: &mut [u8]) -> Result<usize, Error>
    ensures { stored out.old (return (pack_ints src.now)) ≡ record { answer = stored_ints result; out = out.new } }
{
    if packs_into(src, out.len()) {
        return Ok(pack_at(src, out, 0));
    }
    Err(Error::CapacityError)
}
