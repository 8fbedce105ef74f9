// The steps of noting a message in a logbook, over areas with room for one more part and one more tick.
ghost use Rattle.std.specs.Prelude.{◌≡◌, cond, ◌||◌, List, ℕ, ◌+◌, ◌<◌, ◌≤◌, ℤ, pos, length};
ghost use Rattle.definitions.specs.Ints.{signed_less};
ghost use Rattle.definitions.specs.DeltaReading as DeltaReading;
ghost use Rattle.definitions.specs.Logbook as Book;
ghost use Rattle.format.specs.Numbers.{number};
ghost use Rattle.gamenet_snap.specs.Numbers.{numbers};
ghost use Rattle.printer_logbook.specs.States.{parts_in, ticks_in, newest_of, logbook_of, note_of, Room};

use super::{Logbook, Note};
use format::Error;
use gamenet_snap::SnapMsg;
use ticks::Tick;

// Whether a part is among the first n that came.
fn elem(part: usize, came: &[usize], n: usize) -> bool
    requires { n ≤ length came.now }
    ensures { result ≡ DeltaReading.elem part (parts_in n came.now) }
{
    came[..n].contains(&part)
}

// Whether all parts below a count are among the first n that came.
fn all_came(count: usize, came: &[usize], n: usize) -> bool
    requires { n ≤ length came.now }
    ensures { result ≡ Book.all_came count (parts_in n came.now) }
{
    for i in 0..count {
        if !elem(i, came, n) {
            return false;
        }
    }
    true
}

// Whether a tick is among the first n.
fn has_tick(tick: Tick, held: &[i32], n: usize) -> bool
    requires { n ≤ length held.now }
    ensures { result ≡ Book.has_tick tick.0 (ticks_in n held.now) }
{
    for x in &held[..n] {
        if Tick(*x) == tick {
            return true;
        }
    }
    false
}

// Keeps those of the first n ticks that are not below a tick; returns how many.
fn not_below(tick: Tick, held: &mut [i32], n: usize) -> usize
    requires { n ≤ length held.old }
    ensures { (ticks_in result held.new ≡ Book.not_below tick.0 (ticks_in n held.old)) × (result ≤ n) }
{
    let mut kept: usize = 0;
    for i in 0..n {
        let x = held[i];
        if Tick(x) >= tick {
            held[kept] = x;
            kept += 1;
        }
    }
    kept
}

// The lowest of a tick and the first n.
fn lowest(tick: Tick, held: &[i32], n: usize) -> Tick
    requires { n ≤ length held.now }
    ensures { result.0 ≡ Book.lowest tick.0 (ticks_in n held.now) }
{
    let mut low = tick;
    for i in (0..n).rev() {
        low = low.min(Tick(held[i]));
    }
    low
}

// Drops a tick from the first n; returns how many are left.
fn without(tick: Tick, held: &mut [i32], n: usize) -> usize
    requires { n ≤ length held.old }
    ensures { (ticks_in result held.new ≡ Book.without tick.0 (ticks_in n held.old)) × (result ≤ n) }
{
    let mut kept: usize = 0;
    for i in 0..n {
        let x = held[i];
        if Tick(x) != tick {
            held[kept] = x;
            kept += 1;
        }
    }
    kept
}

// Adds a tick; of 101 the lowest is dropped. Returns how many there are then.
fn holding(tick: Tick, held: &mut [i32], n: usize) -> usize
    requires { n < length held.old }
    ensures { ticks_in result held.new ≡ Book.holding tick.0 (ticks_in n held.old) }
{
    let number = tick.0;
    held[n] = number;
    if Logbook::MAX_TICKS < n + 1 {
        let low = lowest(tick, held, n);
        return without(low, held, n + 1);
    }
    n + 1
}

// How many ticks stay held when a base is named.
fn held_for(base: Tick, held: &mut [i32], n: usize) -> usize
    requires { n ≤ length held.old }
    ensures { (ticks_in result held.new ≡ Book.held_for base.0 (ticks_in n held.old)) × (result ≤ n) }
{
    if base.is_negative() {
        return n;
    }
    not_below(base, held, n)
}

// Whether a base is held, or negative.
fn has_base(base: Tick, held: &[i32], n: usize) -> bool
    requires { n ≤ length held.now }
    ensures { result ≡ (signed_less base.0 (pos 0) || Book.has_tick base.0 (ticks_in n held.now)) }
{
    base.is_negative() || has_tick(base, held, n)
}

// Completes a tick whose parts all came: it is held and acknowledged if its base is held or negative.
fn complete(
    tick: Tick,
    base: Tick,
    parts: usize,
    came: &[usize],
    held: &mut [i32],
    ticks: usize,
) -> Note
    requires { ticks < length held.old }
    ensures { Book.complete tick.0 base.0 (parts_in parts came.now) (ticks_in ticks held.old) ≡ note_of result came.now held.new }
{
    if has_base(base, held, ticks) {
        return Note {
            answer: Ok(Some(tick)),
            logbook: Logbook {
                newest: Some(tick),
                parts,
                ticks: holding(tick, held, ticks),
                ack_tick: Some(tick),
            },
        };
    }
    Note {
        answer: Err(Error::UnknownSnap),
        logbook: Logbook {
            newest: Some(tick),
            parts,
            ticks,
            ack_tick: None,
        },
    }
}

// Notes that a part of a tick came; parts is how many came so far, count how many the tick has.
fn part_came(
    g: Logbook,
    tick: Tick,
    base: Tick,
    count: usize,
    parts: usize,
    came: &[usize],
    held: &mut [i32],
) -> Note
    requires { (parts ≤ length came.now) × (g.ticks < length held.old) }
    ensures { (before : List ℕ) → Book.part_came (logbook_of g before held.old) tick.0 base.0 count (parts_in parts came.now) ≡ note_of result came.now held.new }
{
    if all_came(count, came, parts) {
        let ticks = held_for(base, held, g.ticks);
        return complete(tick, base, parts, came, held, ticks);
    }
    let ack_tick = g.ack_tick;
    Note {
        answer: Ok(None),
        logbook: Logbook {
            newest: Some(tick),
            parts,
            ticks: g.ticks,
            ack_tick,
        },
    }
}

// Whether a tick is below the newest, or is the newest with all parts in.
fn late(g: Logbook, tick: Tick, count: usize, came: &[usize]) -> bool
    requires { g.parts ≤ length came.now }
    ensures { result ≡ Book.late (newest_of g) (parts_in g.parts came.now) tick.0 count }
{
    let Some(newest) = g.newest else {
        return false;
    };
    tick < newest || tick == newest && all_came(count, came, g.parts)
}

// How many parts of a tick came: none if it is above the newest.
fn came_of(g: Logbook, tick: Tick) -> usize
    ensures { ((came : List ℕ) → parts_in result came ≡ Book.came_of (newest_of g) (parts_in g.parts came) tick.0) × (result ≤ g.parts) }
{
    let Some(newest) = g.newest else {
        return 0;
    };
    if tick == newest { g.parts } else { 0 }
}

// The answer for a message that changes nothing.
fn refused(g: Logbook, error: Error) -> Note
    ensures { (came : List ℕ) (held : List ℤ) → record { answer = Book.refused (number error); logbook = logbook_of g came held } ≡ note_of result came held }
{
    Note {
        answer: Err(error),
        logbook: g,
    }
}

// Notes a part of a tick, of so many parts, with its base.
pub fn note(
    g: Logbook,
    tick: Tick,
    base: Tick,
    part: usize,
    count: usize,
    came: &mut [usize],
    held: &mut [i32],
) -> Note
    requires { Room g came.old held.old }
    ensures { Book.note (logbook_of g came.old held.old) tick.0 base.0 part count ≡ note_of result came.new held.new }
{
    if late(g, tick, count, came) {
        return refused(g, Error::OldDelta);
    }
    let parts = came_of(g, tick);
    if elem(part, came, parts) {
        return refused(g, Error::DuplicatePart);
    }
    came[parts] = part;
    part_came(g, tick, base, count, parts + 1, came, held)
}

// Notes a message; a single or empty one is part 0 of 1.
pub fn note_message(g: Logbook, m: SnapMsg, came: &mut [usize], held: &mut [i32]) -> Note
    requires { Room g came.old held.old }
    ensures { Book.note_message (logbook_of g came.old held.old) (numbers m) ≡ note_of result came.new held.new }
{
    match m {
        SnapMsg::Snap {
            tick,
            delta_tick,
            num_parts,
            part,
            crc: _,
        } => {
            let base = tick.minus(delta_tick);
            let p = ints::num(part);
            let count = ints::num(num_parts);
            note(g, tick, base, p, count, came, held)
        }
        SnapMsg::SnapSingle {
            tick,
            delta_tick,
            crc: _,
        } => {
            let base = tick.minus(delta_tick);
            note(g, tick, base, 0, 1, came, held)
        }
        SnapMsg::SnapEmpty { tick, delta_tick } => {
            let base = tick.minus(delta_tick);
            note(g, tick, base, 0, 1, came, held)
        }
    }
}
