// The steps of a message: the receiver's form, the message's numbers, the parts, and how they are joined.
ghost use Rattle.std.specs.Prelude.{◌≡◌, Bool, true, cond, List, ℕ, ◌+◌, ◌*◌, ◌<◌, ◌≤◌, length, take, set};
ghost use Rattle.std.proofs.Math.Option.{none};
ghost use Rattle.definitions.specs.Tables as Tables;
ghost use Rattle.definitions.specs.Areas.{lay, lay_at};
ghost use Rattle.definitions.specs.Receiver as Receiver;
ghost use Rattle.format.specs.Numbers.{number};
ghost use Rattle.ticks.specs.Ticks.{tick_of};
ghost use Rattle.format.specs.Totals.{counts};
ghost use Rattle.format.specs.Sources.{flagged};
ghost use Rattle.receiver.specs.States.{ticks_of, receiver_of, receiver_with, current_in, opened_with, parts_for, part_of, Opens};
ghost use Rattle.receiver.specs.Answers.{refusing, settled, taking, answered, taken, judged_as, Fits};

use super::{CurrentDelta, DeltaReceiver, Received, Receiving};
use format::{Error, Warnings};
use ticks::{Distance, Tick};

// The ticks of a receiver, without the lengths of its parts.
#[derive(Clone, Copy)]
pub struct Ticks {
    pub previous_tick: Option<Tick>,
    pub current: Option<CurrentDelta>,
}

// The result of a message whose lengths are changed in place.
#[derive(Clone, Copy)]
pub struct Taking {
    pub answer: Result<Option<Received>, Error>,
    pub warnings: Warnings,
    pub ticks: Ticks,
}

// The numbers of a part.
#[derive(Clone, Copy)]
pub struct Part {
    pub tick: Tick,
    pub delta_tick: Distance,
    pub num_parts: i32,
    pub part: i32,
    pub crc: i32,
}

// The ticks of a receiver, without the lengths.
pub fn ticks_of(r: DeltaReceiver) -> Ticks
    ensures { result ≡ ticks_of r }
{
    Ticks {
        previous_tick: r.previous_tick,
        current: r.current,
    }
}

// The receiver with these ticks and lengths.
pub fn with_lengths(t: Ticks, parts: [u16; 32]) -> DeltaReceiver
    ensures { receiver_of result ≡ receiver_with t parts }
{
    DeltaReceiver {
        previous_tick: t.previous_tick,
        current: t.current,
        parts,
    }
}

// The result of a message, with the receiver afterwards.
pub fn receiving(a: Taking, lengths: [u16; 32]) -> Receiving
    ensures { (area second : List ℕ) → taken a lengths area second ≡ answered result area second }
{
    Receiving {
        answer: a.answer,
        warnings: a.warnings,
        receiver: with_lengths(a.ticks, lengths),
    }
}

// A refusal before any warning is counted.
pub fn refused(error: Error, r: Ticks) -> Taking
    ensures { (lengths area second : List ℕ) → refusing (number error) (receiver_with r lengths) area second ≡ taken result lengths area second }
{
    Taking {
        answer: Err(error),
        warnings: Warnings::none(),
        ticks: r,
    }
}

// The ticks of a receiver without an unfinished one.
pub fn without_current(previous_tick: Option<Tick>) -> Ticks
    ensures { (lengths : List ℕ) → receiver_with result lengths ≡ record { previous_tick = tick_of previous_tick; current = none; parts = lengths } }
{
    Ticks {
        previous_tick,
        current: None,
    }
}

// How many parts are in.
pub fn count_in(lengths: &[u16]) -> usize
    requires { length lengths.now ≡ 32 }
    ensures { (result ≡ Receiver.count_in lengths.now 32) × (result ≤ 32) }
{
    let mut n: u16 = 0;
    for len in lengths {
        if *len as usize <= DeltaReceiver::PART_SIZE {
            n += 1;
        }
    }
    n as usize
}

// Whether a tick is above the last finished one.
pub fn above_previous(previous: Option<Tick>, tick: Tick) -> bool
    ensures { result ≡ Receiver.above_previous (tick_of previous) tick.0 }
{
    let Some(finished) = previous else {
        return true;
    };
    finished < tick
}

// Whether a receiver with n parts in is in form.
pub fn ticks_form(r: Ticks, n: usize) -> bool
    ensures { (lengths : List ℕ) → n ≡ Receiver.count_in lengths 32 → result ≡ Receiver.receiver_form (receiver_with r lengths) }
{
    let Some(c) = r.current else {
        return n == 0;
    };
    if !above_previous(r.previous_tick, c.tick) {
        return false;
    }
    let k = c.num_parts as usize;
    if DeltaReceiver::MAX_PARTS < k {
        return false;
    }
    if n == 0 {
        return false;
    }
    n < k
}

// Whether a receiver is in form.
pub fn in_form(r: DeltaReceiver) -> bool
    ensures { result ≡ Receiver.receiver_form (receiver_of r) }
{
    ticks_form(ticks_of(r), count_in(&r.parts))
}

// Whether a tick is old.
pub fn is_old(r: Ticks, tick: Tick) -> bool
    ensures { (lengths : List ℕ) → result ≡ Receiver.is_old (receiver_with r lengths) tick.0 }
{
    let Some(c) = r.current else {
        return !above_previous(r.previous_tick, tick);
    };
    tick < c.tick
}

// Whether a tick is the unfinished one.
pub fn is_current(r: Ticks, tick: Tick) -> bool
    ensures { (lengths : List ℕ) → result ≡ Receiver.is_current (receiver_with r lengths) tick.0 }
{
    let Some(c) = r.current else {
        return false;
    };
    c.tick == tick
}

// What a part fixes if it is the first one of its tick.
pub fn first_says(m: Part) -> CurrentDelta
    requires { Tables.num m.num_parts ≤ 32 }
    ensures { current_in result ≡ Receiver.first_says (part_of m) }
{
    CurrentDelta {
        tick: m.tick,
        delta_tick: m.tick.minus(m.delta_tick),
        num_parts: ints::num(m.num_parts) as u32,
        crc: m.crc,
    }
}

// The unfinished tick that a part belongs to; a new tick is opened by the part itself.
pub fn opened(r: Ticks, m: Part) -> CurrentDelta
    requires { Tables.num m.num_parts ≤ 32 }
    ensures { Opens r m result }
{
    match r.current {
        Some(c) if c.tick.is_same(m.tick) => c,
        _ => first_says(m),
    }
}

// Whether a part's base, count or sum is not the first part's.
pub fn differs(o: CurrentDelta, m: Part) -> bool
    ensures { result ≡ Receiver.differs (current_in o) (part_of m) }
{
    let base = m.tick.minus(m.delta_tick);
    if base != o.delta_tick {
        return true;
    }
    let k = o.num_parts as usize;
    if ints::num(m.num_parts) != k {
        return true;
    }
    m.crc != o.crc
}

// Whether part p is in already; none is if the tick is new.
pub fn is_in(current: bool, lengths: &[u16], p: usize) -> bool
    requires { (p < 32) × (length lengths.now ≡ 32) }
    ensures { result ≡ Receiver.is_in (parts_for current lengths.now) p }
{
    current && lengths[p] as usize <= DeltaReceiver::PART_SIZE
}

// Records part p of n bytes; the parts of an older tick are dropped.
pub fn put_length(current: bool, lengths: &mut [u16; 32], p: usize, n: usize)
    requires { (p < 32) × (n ≤ 900) }
    ensures { lengths.new ≡ set (parts_for current lengths.old) p n }
{
    if !current {
        *lengths = [901u16; 32];
    }
    lengths[p] = n as u16;
}

// How many parts are in with one more; n parts of the unfinished tick were in.
pub fn count_with(current: bool, n: usize) -> usize
    requires { n ≤ 32 }
    ensures { result ≡ cond current n 0 + 1 }
{
    if current { n + 1 } else { 1 }
}

// Copies bytes through an array, so that the compiler can move them all at once.
pub fn put_bytes(out: &mut [u8], at: usize, xs: &[u8])
    requires { (length xs.now ≤ 28800) × (at + length xs.now ≤ length out.old) }
    ensures { out.new ≡ lay_at at xs.now out.old }
{
    let mut block = [0u8; 28800];
    ints::checked::copy_bytes(&mut block, 0, xs);
    ints::checked::copy_bytes(out, at, &block[..xs.len()]);
}

// How many leading parts are full. Their bytes lie in the area as they are to be joined.
pub fn full_parts(lengths: &[u16]) -> usize
    requires { length lengths.now ≡ 32 }
    ensures { (result ≤ 32) × ((area : List ℕ) → Receiver.joined lengths.now area result ≡ take (900 * result) area) }
{
    for (i, len) in lengths.iter().enumerate() {
        if *len as usize != DeltaReceiver::PART_SIZE {
            return i;
        }
    }
    DeltaReceiver::MAX_PARTS
}

// Copies part i, if it is in, to a place of the second area. Returns the place after it.
pub fn join_part(lengths: &[u16], i: usize, at: usize, parts: &[u8], joined: &mut [u8]) -> usize
    requires { (length lengths.now ≡ 32) × (i < 32) × (at ≤ 900 * i) × (28800 ≤ length parts.now) × (28800 ≤ length joined.old) }
    ensures { (result ≡ at + length (Receiver.part_in lengths.now parts.now i)) × (result ≤ at + 900) × (joined.new ≡ lay_at at (Receiver.part_in lengths.now parts.now i) joined.old) }
{
    let n = lengths[i] as usize;
    if DeltaReceiver::PART_SIZE < n {
        return at;
    }
    let from = DeltaReceiver::PART_SIZE * i;
    put_bytes(joined, at, &parts[from..from + n]);
    at + n
}

// Copies all parts that are in, in the order of their numbers, to the front of the second area; returns the length.
pub fn join(lengths: &[u16], parts: &[u8], joined: &mut [u8]) -> usize
    requires { (length lengths.now ≡ 32) × (28800 ≤ length parts.now) × (28800 ≤ length joined.old) }
    ensures { (result ≡ length (Receiver.joined lengths.now parts.now 32)) × (joined.new ≡ lay (Receiver.joined lengths.now parts.now 32) joined.old) }
{
    let full = full_parts(lengths);
    let mut at = DeltaReceiver::PART_SIZE * full;
    put_bytes(joined, 0, &parts[..at]);
    for i in full..DeltaReceiver::MAX_PARTS {
        at = join_part(lengths, i, at, parts, joined);
    }
    at
}

// Finishes the tick if the part just taken was the last one missing; n parts are in.
pub fn put_part(
    previous_tick: Option<Tick>,
    o: CurrentDelta,
    n: usize,
    warnings: Warnings,
    lengths: &mut [u16; 32],
    parts: &[u8],
    joined: &mut [u8],
) -> Taking
    requires { (n ≡ Receiver.count_in lengths.old 32) × (28800 ≤ length parts.now) × (28800 ≤ length joined.old) }
    ensures { settled (counts warnings) (Receiver.put_part (tick_of previous_tick) (opened_with o lengths.old) parts.now joined.old) ≡ taken result lengths.new parts.now joined.new }
{
    let k = o.num_parts as usize;
    if n != k {
        return Taking {
            answer: Ok(None),
            warnings,
            ticks: Ticks {
                previous_tick,
                current: Some(o),
            },
        };
    }
    let len = join(lengths, parts, joined);
    *lengths = [901u16; 32];
    let delta = Received::Delta {
        tick: o.tick,
        delta_tick: o.delta_tick,
        len,
        crc: o.crc,
    };
    Taking {
        answer: Ok(Some(delta)),
        warnings,
        ticks: without_current(Some(o.tick)),
    }
}

// Takes part p of a message whose numbers were judged; n parts are in.
pub fn take(
    r: Ticks,
    n: usize,
    m: Part,
    p: usize,
    lengths: &mut [u16; 32],
    data: &[u8],
    parts: &mut [u8],
    joined: &mut [u8],
) -> Taking
    requires num_parts_bound { (Tables.num m.num_parts ≤ 32) × (p < 32) × (length «data».now ≤ 900) × (28800 ≤ length parts.old) × (28800 ≤ length joined.old) }
    requires n_value { (n ≡ Receiver.count_in lengths.old 32) × (n ≤ 32) }
    ensures { taking (receiver_with r lengths.old) (part_of m) p «data».now parts.old joined.old ≡ taken result lengths.new parts.new joined.new }
{
    let current = is_current(r, m.tick);
    let o = opened(r, m);
    let w = Warnings::received(false, differs(o, m));
    if is_in(current, lengths, p) {
        return Taking {
            answer: Err(Error::DuplicatePart),
            warnings: w,
            ticks: r,
        };
    }
    put_length(current, lengths, p, data.len());
    put_bytes(parts, DeltaReceiver::PART_SIZE * p, data);
    let n = count_with(current, n);
    put_part(r.previous_tick, o, n, w, lengths, parts, joined)
}

// Judges a part by the receiver's form, the areas and the part's numbers; n parts are in. Returns the part's number.
pub fn judge(
    r: Ticks,
    n: usize,
    m: Part,
    data: &[u8],
    parts: &[u8],
    joined: &[u8],
) -> Result<usize, Error>
    ensures by_index { (lengths : List ℕ) → n ≡ Receiver.count_in lengths 32 → Receiver.snap_call (receiver_with r lengths) (part_of m) «data».now parts.now joined.now ≡ judged_as result (receiver_with r lengths) (part_of m) «data».now parts.now joined.now }
    ensures fits { Fits result m «data».now parts.now joined.now }
{
    if !ticks_form(r, n) {
        return Err(Error::NotInForm);
    }
    if parts.len() < DeltaReceiver::AREA_SIZE {
        return Err(Error::ScratchTooShort);
    }
    if joined.len() < DeltaReceiver::AREA_SIZE {
        return Err(Error::ScratchTooShort);
    }
    if DeltaReceiver::PART_SIZE < data.len() {
        return Err(Error::PartTooLong);
    }
    if is_old(r, m.tick) {
        return Err(Error::OldDelta);
    }
    let k = ints::num(m.num_parts);
    if DeltaReceiver::MAX_PARTS < k {
        return Err(Error::InvalidNumParts);
    }
    let p = ints::num(m.part);
    if k <= p {
        return Err(Error::InvalidPart);
    }
    Ok(p)
}

// Takes a part of a delta; the lengths are changed in place.
pub fn receive(
    r: Ticks,
    m: Part,
    lengths: &mut [u16; 32],
    data: &[u8],
    parts: &mut [u8],
    joined: &mut [u8],
) -> Taking
    ensures { Receiver.snap_call (receiver_with r lengths.old) (part_of m) «data».now parts.old joined.old ≡ taken result lengths.new parts.new joined.new }
{
    let n = count_in(lengths);
    match judge(r, n, m, data, parts, joined) {
        Ok(p) => take(r, n, m, p, lengths, data, parts, joined),
        Err(e) => refused(e, r),
    }
}
