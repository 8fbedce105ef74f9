// Reading at a place of a slice whose length the caller has judged, a pass over the packed integers of some bytes, and packing some
// ints at a place.
ghost use Rattle.std.specs.Prelude.{◌≡◌, false, cond, ◌||◌, ◌+◌, ◌-◌, ◌≤◌, ◌<◌, ◌^◌, eqb, leb, ltb, length, Ok, Err};
ghost use Rattle.definitions.specs.Areas.{lay_at};
ghost use Rattle.definitions.specs.Packed.{signed, pack_ints};
ghost use Rattle.definitions.specs.Packer.{read_int_at};
ghost use Rattle.definitions.specs.Readers.{plain_int_at};
ghost use Rattle.definitions.specs.Stream.{stream};
ghost use Rattle.format.specs.Numbers.{number};
ghost use Rattle.format.specs.declared.Error.TheVariants.{NonZeroIntPadding};
ghost use Rattle.packer.specs.Answers.{int_read, refusal, missing_as};
ghost use Rattle.packer.specs.Bytes.{more_at};
ghost use Rattle.packer.specs.Scans.{Scanned, stopped_at};

use super::IntRead;
use format::Error;

// The int with the digits d; the sign turns all bits over.
fn signed_value(sign: bool, d: u32) -> i32
    ensures { result ≡ signed sign d }
{
    if sign {
        ints::from_bits(!d)
    } else {
        ints::from_bits(d)
    }
}

// The integer at a place of src.
pub fn read_int(src: &[u8], at: usize) -> Result<IntRead, Error>
    ensures { read_int_at src.now at ≡ int_read result }
{
    if src.len() <= at {
        return Err(Error::UnexpectedEnd);
    }
    let b = src[at] as u32;
    let sign = b / 64 % 2 == 1;
    if b < 128 {
        return Ok(IntRead {
            value: signed_value(sign, b % 64),
            next: at + 1,
            overlong: false,
        });
    }
    read_more(src, at + 1, sign, b % 64)
}

// The bytes of an integer after its first, whose digits are first. There is one way out of the loop with an integer: so the compiler
// neither unrolls it nor finds read_int too long to put into the loops that call it.
fn read_more(src: &[u8], start: usize, sign: bool, first: u32) -> Result<IntRead, Error>
    requires { first < 64 }
    ensures { more_at src.now start 3 64 first sign ≡ int_read result }
{
    let mut digits = first as u64;
    let mut weight: u64 = 64;
    for at in start..src.len() {
        let b = src[at] as u64;
        if is_last(b, weight) {
            return last_byte(sign, digits + b * weight, b, at + 1);
        }
        digits += b % 128 * weight;
        weight *= 128;
    }
    Err(Error::UnexpectedEnd)
}

// The same where at least four bytes follow the first, without a test for the end of src between them.
fn read_four(src: &[u8], start: usize, sign: bool, first: u32) -> Result<IntRead, Error>
    requires { (start + 4 ≤ length src.now) × (first < 64) }
    ensures { more_at src.now start 3 64 first sign ≡ int_read result }
{
    let d1 = first as u64;
    let b1 = src[start] as u64;
    let second = start + 1;
    if b1 < 128 {
        return last_byte(sign, d1 + b1 * 64, b1, second);
    }
    let d2 = d1 + b1 % 128 * 64;
    let b2 = src[second] as u64;
    let third = second + 1;
    if b2 < 128 {
        return last_byte(sign, d2 + b2 * 8192, b2, third);
    }
    let d3 = d2 + b2 % 128 * 8192;
    let b3 = src[third] as u64;
    let fourth = third + 1;
    if b3 < 128 {
        return last_byte(sign, d3 + b3 * 1048576, b3, fourth);
    }
    let d4 = d3 + b3 % 128 * 1048576;
    let b4 = src[fourth] as u64;
    last_byte(sign, d4 + b4 * 134217728, b4, fourth + 1)
}

// The integer at a place of src from which on five bytes or more are left.
fn read_five(src: &[u8], at: usize) -> Result<IntRead, Error>
    requires { at + 5 ≤ length src.now }
    ensures { read_int_at src.now at ≡ int_read result }
{
    let b = src[at] as u32;
    let sign = b / 64 % 2 == 1;
    if b < 128 {
        return Ok(IntRead {
            value: signed_value(sign, b % 64),
            next: at + 1,
            overlong: false,
        });
    }
    read_four(src, at + 1, sign, b % 64)
}

// Whether a byte with a weight is an integer's last: no other follows, or it is the fifth.
fn is_last(b: u64, weight: u64) -> bool
    ensures { result ≡ (ltb b 128 || eqb weight 134217728) }
{
    b < 128 || weight == 134217728
}

// An integer with all its digits, which end in byte b. Those above bit 30 are padding.
fn last_byte(sign: bool, digits: u64, b: u64, next: usize) -> Result<IntRead, Error>
    ensures { result ≡ cond (leb 2147483648 digits) (Err NonZeroIntPadding) (Ok (record { value = signed sign digits; next = next; overlong = eqb b 0 })) }
{
    if 2147483648 <= digits {
        return Err(Error::NonZeroIntPadding);
    }
    Ok(IntRead {
        value: signed_value(sign, digits as u32),
        next,
        overlong: b == 0,
    })
}

// The int at a place of src.
pub fn read_plain_int(src: &[i32], at: usize) -> Result<IntRead, Error>
    ensures { plain_int_at src.now at ≡ int_read result }
{
    if src.len() <= at {
        return Err(Error::UnexpectedEnd);
    }
    Ok(IntRead {
        value: src[at],
        next: at + 1,
        overlong: false,
    })
}

// What one pass over packed integers tells: how many there are up to one that is cut or has padding bits set, and which of the two
// ends them, if one does.
#[derive(Clone, Copy, Default)]
pub struct Totals {
    pub count: usize,
    pub cut: bool,
    pub padded: bool,
    pub overlong: usize,
}

// The totals of both, the second of which ends the integers.
fn joined(t: Totals, rest: Totals) -> Totals
    requires { (t.count + rest.count < 2 ^ 64) × (t.overlong + rest.overlong < 2 ^ 64) }
    ensures { result ≡ record { count = t.count + rest.count; cut = rest.cut; padded = rest.padded; overlong = t.overlong + rest.overlong } }
{
    Totals {
        count: t.count + rest.count,
        overlong: t.overlong + rest.overlong,
        ..rest
    }
}

// All the integers of src over the front of out, which has an entry for each byte. Where five bytes or more are left, no byte is tested
// for being the last of src.
pub fn scan_all(src: &[u8], out: &mut [i32]) -> Totals
    requires { length src.now ≤ length out.old }
    ensures { Scanned (stream src.now) out.old result out.new }
{
    let limit = src.len().saturating_sub(4);
    let mut at: usize = 0;
    let mut t = Totals::default();
    // Where the next integer begins is known only after a turn, so no range has the turns.
    while at < limit {
        let read = read_five(src, at);
        let Ok(int) = read else {
            return stopped(t, read);
        };
        let count = t.count;
        out[count] = int.value;
        t.count += 1;
        t.overlong += ints::one_if(int.overlong);
        at = int.next;
    }
    let count = t.count;
    let rest = scan(&src[at..], &mut out[count..]);
    joined(t, rest)
}

// All the integers of src over the front of out, as far as it goes.
pub fn scan(src: &[u8], out: &mut [i32]) -> Totals
    ensures { Scanned (stream src.now) out.old result out.new }
{
    let mut at: usize = 0;
    let mut t = Totals::default();
    // As above: no range has the turns.
    while at < src.len() {
        let read = read_int(src, at);
        let Ok(int) = read else {
            return stopped(t, read);
        };
        super::put(out, t.count, int.value);
        t.count += 1;
        t.overlong += ints::one_if(int.overlong);
        at = int.next;
    }
    t
}

// Whether an integer is refused since it has padding bits set.
fn has_padding(read: Result<IntRead, Error>) -> bool
    ensures { result ≡ eqb (refusal read) 52 }
{
    matches!(read, Err(Error::NonZeroIntPadding))
}

// The totals at an integer that is refused.
fn stopped(t: Totals, read: Result<IntRead, Error>) -> Totals
    ensures { result ≡ stopped_at t (refusal read) }
{
    let padded = has_padding(read);
    Totals {
        cut: !padded,
        padded,
        ..t
    }
}

// Why an integer that must be present is refused: its padding bits, or the reason given.
pub fn missing(read: Result<IntRead, Error>, error: Error) -> Error
    ensures { number result ≡ missing_as (refusal read) (number error) }
{
    if has_padding(read) {
        return Error::NonZeroIntPadding;
    }
    error
}

// How many bytes the packed form of xs has.
pub fn packed_len(xs: &[i32]) -> usize
    ensures { result ≡ length (pack_ints xs.now) }
{
    let mut n: usize = 0;
    for x in xs {
        n += super::written_len(*x);
    }
    n
}

// Writes the packed form of xs into out from a place on, which has room for it. Answers the place after it.
pub fn pack_at(xs: &[i32], out: &mut [u8], start: usize) -> usize
    requires { start + length (pack_ints xs.now) ≤ length out.old }
    ensures { (result ≡ start + length (pack_ints xs.now)) × (out.new ≡ lay_at start (pack_ints xs.now) out.old) }
{
    let mut at = start;
    for x in xs {
        at = super::put_int(out, at, *x);
    }
    at
}
