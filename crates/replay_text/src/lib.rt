// The text of replayed cases: reading words of a line, and writing answers into a buffer.
#![tactic(auto)]

ghost use Rattle.std.specs.Prelude.{◌≡◌, ◌≤◌, ◌<◌, length, take};
ghost use Rattle.io.specs.Counts.{IsPrefixLen};
ghost use Rattle.io.specs.Digits as Digits;
ghost use Rattle.replay_text.specs.Words as Words;
ghost use Rattle.replay_text.specs.Buffer.{put_byte, puts, put_value, put_values, CountsInts};
ghost use Rattle.replay_text.specs.Numbers as Numbers;
ghost use Rattle.replay_text.specs.Answers as Answers;
ghost use Rattle.format.specs.Numbers.{number};

use format::Error;

pub mod areas;
pub mod input;
pub mod line;
pub mod words;

// How many bytes are before the first b, or in all if there is none.
fn count_until(src: &[u8], b: u8) -> usize
    ensures { (result ≡ length (Words.until b src.now)) × (result ≤ length src.now) }
{
    src.iter().position(|x| *x == b).unwrap_or(src.len())
}

// The bytes before the first b, or all.
pub fn until(src: &[u8], b: u8) -> &[u8]
    ensures { (result.now ≡ Words.until b src.now) × (length result.now ≤ length src.now) }
{
    let n = count_until(src, b);
    &src[..n]
}

// The bytes after the first b, or none.
pub fn after(src: &[u8], b: u8) -> &[u8]
    ensures { result.now ≡ Words.after b src.now }
{
    let n = count_until(src, b);
    if n < src.len() { &src[n + 1..] } else { &[] }
}

// The word of a line with this number, from 0 on; one space separates two words.
pub fn word(line: &[u8], number: usize) -> &[u8]
    ensures { result.now ≡ Words.word number line.now }
{
    let mut rest = line;
    for _ in 0..number {
        rest = after(rest, b' ');
    }
    until(rest, b' ')
}

// The value of a digit: the last four bits of its character, and 9 more for a letter.
fn digit(b: u8) -> u8
    ensures { (result ≡ Numbers.digit b) × (result < 16) }
{
    if b < b'a' { b % 16 } else { (b % 16 + 9) % 16 }
}

// The number with these decimal digits.
pub fn number(text: &[u8]) -> usize
    ensures { result ≡ Numbers.number text.now }
{
    let mut value: usize = 0;
    for b in text {
        value = value % 1000000000000000000 * 10 + usize::from(digit(*b));
    }
    value
}

// The int with these decimal digits, after an optional minus.
pub fn int(text: &[u8]) -> i32
    ensures { result ≡ Numbers.int text.now }
{
    match text {
        [b'-', digits @ ..] => {
            let size = number(digits) % 4294967296;
            ints::wrapping_sub(0, ints::from_bits(size as u32))
        }
        _ => {
            let size = number(text) % 4294967296;
            ints::from_bits(size as u32)
        }
    }
}

// Writes an int into an area at a place; returns the place after it. A full area is unchanged.
#[tactic(auto, unfolding(crate::specs::Buffer::put_value))]
fn put_value(out: &mut [i32], at: usize, value: i32) -> usize
    ensures out_value { put_value value (record { next = at; out = out.old }) ≡ record { next = result; out = out.new } }
    ensures counts_ints { CountsInts result out.new }
{
    if at < out.len() {
        out[at] = value;
        return at + 1;
    }
    out.len()
}

// Writes the ints of a line's words, without the first, to the front of out; returns how many there are.
pub fn ints(line: &[u8], out: &mut [i32]) -> usize
    ensures out_value { put_values (Numbers.ints line.now) (record { next = 0; out = out.old }) ≡ record { next = result; out = out.new } }
    ensures counts_ints { CountsInts result out.new }
{
    let mut next: usize = 0;
    for (i, b) in line.iter().enumerate() {
        if *b == b' ' {
            next = put_value(out, next, int(until(&line[i + 1..], b' ')));
        }
    }
    next
}

// Writes the bytes of these hexadecimal digits to the front of out; returns how many there are.
pub fn bytes(text: &[u8], out: &mut [u8]) -> usize
    ensures out_value { puts (Numbers.bytes text.now) (record { next = 0; out = out.old }) ≡ record { next = result; out = out.new } }
    ensures prefix_len { IsPrefixLen result out.new }
{
    let mut next: usize = 0;
    for i in 0..text.len() / 2 {
        next = put_byte(out, next, digit(text[2 * i]) * 16 + digit(text[2 * i + 1]));
    }
    next
}

// Writes a byte into a buffer at a place; returns the place after it. A full buffer is unchanged.
#[tactic(auto, unfolding(crate::specs::Buffer::put_byte))]
pub fn put_byte(out: &mut [u8], at: usize, b: u8) -> usize
    ensures out_value { put_byte b (record { next = at; out = out.old }) ≡ record { next = result; out = out.new } }
    ensures prefix_len { IsPrefixLen result out.new }
{
    if at < out.len() {
        out[at] = b;
        return at + 1;
    }
    out.len()
}

// Writes a text into a buffer at a place; returns the place after it.
pub fn put(out: &mut [u8], at: usize, text: &[u8]) -> usize
    ensures { puts text.now (record { next = at; out = out.old }) ≡ record { next = result; out = out.new } }
{
    let mut next = at;
    for b in text {
        next = put_byte(out, next, *b);
    }
    next
}

// Writes a number into a buffer at a place; returns the place after it.
pub fn put_number(out: &mut [u8], at: usize, n: usize) -> usize
    ensures { puts (Numbers.decimal n) (record { next = at; out = out.old }) ≡ record { next = result; out = out.new } }
{
    let mut text = [0u8; 20];
    let k = io::decimal(n as u64, &mut text);
    put(out, at, &text[..k])
}

// Writes an int into a buffer at a place; returns the place after it.
pub fn put_int(out: &mut [u8], at: usize, int: i32) -> usize
    ensures { puts (Numbers.signed int) (record { next = at; out = out.old }) ≡ record { next = result; out = out.new } }
{
    if int < 0 {
        let next = put_byte(out, at, b'-');
        return put_number(out, next, (!int as usize) + 1);
    }
    put_number(out, at, int as usize)
}

// Writes the first ints of an area into a buffer, a space before each; returns the place after them.
pub fn put_ints(out: &mut [u8], at: usize, area: &[i32], count: usize) -> usize
    ensures { puts (Numbers.list (take count area.now)) (record { next = at; out = out.old }) ≡ record { next = result; out = out.new } }
{
    let mut next = at;
    for n in &area[..count.min(area.len())] {
        next = put_byte(out, next, b' ');
        next = put_int(out, next, *n);
    }
    next
}

// The character of a hexadecimal digit.
fn glyph(d: u8) -> u8
    requires { d < 16 }
    ensures { result ≡ Digits.hex_digit_ascii d }
{
    if d < 10 { b'0' + d } else { b'a' - 10 + d }
}

// Writes bytes into a buffer as hexadecimal digits, or a minus if there are none; returns the place after them.
pub fn put_hex(out: &mut [u8], at: usize, bytes: &[u8]) -> usize
    ensures { puts (Numbers.hex bytes.now) (record { next = at; out = out.old }) ≡ record { next = result; out = out.new } }
{
    if bytes.len() == 0 {
        return put_byte(out, at, b'-');
    }
    let mut next = at;
    for b in bytes {
        next = put_byte(out, next, glyph(*b / 16));
        next = put_byte(out, next, glyph(*b % 16));
    }
    next
}

// Writes a space and the first bytes of an area into a buffer, as put_hex does; returns the place after them.
pub fn put_bytes(out: &mut [u8], at: usize, area: &[u8], count: usize) -> usize
    ensures { puts (Answers.bytes (take count area.now)) (record { next = at; out = out.old }) ≡ record { next = result; out = out.new } }
{
    let next = put_byte(out, at, b' ');
    put_hex(out, next, &area[..count.min(area.len())])
}

// Writes a space and a number into a buffer at a place; returns the place after them.
pub fn put_next(out: &mut [u8], at: usize, n: usize) -> usize
    ensures { puts (Answers.next n) (record { next = at; out = out.old }) ≡ record { next = result; out = out.new } }
{
    let next = put_byte(out, at, b' ');
    put_number(out, next, n)
}

// Writes the answer for a refused call at the front of a buffer; returns the place after it.
pub fn put_refused(out: &mut [u8], e: Error) -> usize
    ensures { puts (Answers.refused (number e)) (record { next = 0; out = out.old }) ≡ record { next = result; out = out.new } }
{
    let next = put(out, 0, b"refused");
    put_next(out, next, u32::from(e) as usize)
}

// Writes the answer for a line that is no case at the front of a buffer; returns the place after it.
pub fn put_odd(out: &mut [u8]) -> usize
    ensures { puts Answers.odd (record { next = 0; out = out.old }) ≡ record { next = result; out = out.new } }
{
    put(out, 0, b"odd")
}
