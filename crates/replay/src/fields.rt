// What cases and answers of several subjects have in common.
ghost use Rattle.io.specs.Counts.{IsPrefixLen};
ghost use Rattle.replay_text.specs.Buffer.{CountsInts};

use format::{Error, Reading, Warnings, row};
use replay_text::line::Line;
use replay_text::words::{int, number};
use ticks::{Distance, Tick};

// The letter of a case, or a zero for an empty line.
pub fn letter(case: &[u8]) -> u8 {
    match case {
        [letter, ..] => *letter,
        [] => 0,
    }
}

// The type or the id that is the i-th word of a case.
pub fn id(case: &[u8], i: usize) -> u16 {
    (number(case, i) % 65536) as u16
}

// A number, but at most the length of an area.
pub fn at_most(n: usize, area: &[i32]) -> usize
    ensures { CountsInts result area.now }
{
    if n <= area.len() { n } else { area.len() }
}

// The number that is the i-th word of a case, but at most the length of an area.
pub fn room(case: &[u8], i: usize, area: &[i32]) -> usize
    ensures { CountsInts result area.now }
{
    at_most(number(case, i), area)
}

// The same for an area of bytes.
pub fn room_for_bytes(case: &[u8], i: usize, area: &[u8]) -> usize
    ensures { IsPrefixLen result area.now }
{
    let n = number(case, i);
    if n <= area.len() { n } else { area.len() }
}

// The ints from one place up to another; none if there are no such places.
pub fn part(area: &[i32], from: usize, to: usize) -> &[i32] {
    if from <= to {
        if to <= area.len() {
            return &area[from..to];
        }
    }
    &area[..0]
}

// The answer to a line that is no case.
pub fn odd() -> Line {
    Line::new().text(b"odd")
}

// The answer for what is not there.
pub fn none() -> Line {
    Line::new().text(b"none")
}

// Adds a refusal.
pub fn refusal(line: Line, e: Error) -> Line {
    line.next_text(b"refused")
        .next_number(u32::from(e) as usize)
}

// The answer that is a refusal.
pub fn refused(e: Error) -> Line {
    refusal(Line::new(), e)
}

// Adds the refusal for two items of one key that differ in length, and the key.
pub fn differing(line: Line, key: i32) -> Line {
    refusal(line, Error::DeltaDifferingSizes).next_int(key)
}

// The tick in a word of a case.
pub fn tick(case: &[u8], i: usize) -> Tick {
    Tick(int(case, i))
}

// The distance in a word of a case.
pub fn distance(case: &[u8], i: usize) -> Distance {
    Distance(int(case, i))
}

// Adds a tick.
pub fn next_tick(line: Line, tick: Tick) -> Line {
    line.next_int(tick.0)
}

// Adds a tick, or a minus if there is none.
pub fn tick_or_none(line: Line, tick: Option<Tick>) -> Line {
    match tick {
        Some(tick) => next_tick(line, tick),
        None => line.next_text(b"-"),
    }
}

// The data of an item.
pub fn item(data: &[i32]) -> Line {
    Line::new().text(b"item").ints(data, data.len())
}

// How many ints were stored, or the refusal.
pub fn stored(answer: Result<usize, Error>) -> Line {
    match answer {
        Ok(count) => Line::new().number(count),
        Err(e) => refused(e),
    }
}

// How many ints were stored, and the ints; or the refusal.
pub fn stored_ints(answer: Result<usize, Error>, area: &[i32]) -> Line {
    stored(answer).ints(area, answer.unwrap_or(0))
}

// How many bytes were written, and the bytes; or the refusal.
pub fn written(answer: Result<usize, Error>, area: &[u8]) -> Line {
    match answer {
        Ok(len) => Line::new().number(len).bytes(area, len),
        Err(e) => refused(e),
    }
}

// Adds the counts of warnings whose places in the row are listed.
pub fn warnings(line: Line, w: Warnings, shown: &[usize]) -> Line {
    let counts = row(w);
    let mut l = line;
    for k in shown {
        if let Some(count) = counts.get(*k) {
            l = l.next_number(*count);
        }
    }
    l
}

// The answer of a call that reads: how many ints were stored, or the refusal; the counts that are shown; and the ints.
pub fn reading(read: Reading, area: &[i32], shown: &[usize]) -> Line {
    let line = warnings(stored(read.answer), read.warnings, shown);
    line.ints(area, read.answer.unwrap_or(0))
}
