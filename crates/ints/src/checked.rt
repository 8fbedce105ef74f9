// Sums and differences of two slices of equal length, copies of bytes, and ints moved up, in a slice that has room for them.
ghost use Rattle.std.specs.Prelude.{◌≡◌, ◌+◌, ◌<◌, ◌≤◌, length, drop, pos, slice_index_or};
ghost use Rattle.definitions.specs.Ints.{wrapping_add, wrapping_sub};
ghost use Rattle.definitions.specs.Areas.{lay_at};
ghost use Rattle.definitions.specs.DeltaMaking.{zip_with};
ghost use Rattle.ints.specs.Copies.{shifted};

// The sum of entry i of both slices.
fn sum_at(a: &[i32], b: &[i32], i: usize) -> i32
    requires { (i < length a.now) × (i < length b.now) }
    ensures { result ≡ wrapping_add (slice_index_or a.now i (pos 0)) (slice_index_or b.now i (pos 0)) }
{
    super::wrapping_add(a[i], b[i])
}

// Writes the sums of four entries of two slices, from entry i on.
fn add_four(out: &mut [i32], at: usize, a: &[i32], b: &[i32], i: usize)
    requires { (length a.now ≡ length b.now) × (at + length a.now ≤ length out.old) × (i + 4 ≤ length a.now) }
    ensures { lay_at (at + i) (drop i (zip_with wrapping_add a.now b.now)) out.old ≡ lay_at (at + (i + 4)) (drop (i + 4) (zip_with wrapping_add a.now b.now)) out.new }
{
    let w = sum_at(a, b, i);
    let x = sum_at(a, b, i + 1);
    let y = sum_at(a, b, i + 2);
    let z = sum_at(a, b, i + 3);
    out[at + i] = w;
    out[at + (i + 1)] = x;
    out[at + (i + 2)] = y;
    out[at + (i + 3)] = z;
}

// Writes the sums from entry start on.
fn add_from(out: &mut [i32], at: usize, a: &[i32], b: &[i32], start: usize)
    requires { (length a.now ≡ length b.now) × (at + length a.now ≤ length out.old) × (start ≤ length a.now) }
    ensures { out.new ≡ lay_at (at + start) (drop start (zip_with wrapping_add a.now b.now)) out.old }
{
    for i in start..a.len() {
        out[at + i] = sum_at(a, b, i);
    }
}

// Writes the sums of two slices, entry by entry, into out from place at on; four in each turn, for speed.
pub fn add_into(out: &mut [i32], at: usize, a: &[i32], b: &[i32])
    requires { (length a.now ≡ length b.now) × (at + length a.now ≤ length out.old) }
    ensures { out.new ≡ lay_at at (zip_with wrapping_add a.now b.now) out.old }
{
    let mut i: usize = 0;
    while i + 4 <= a.len() {
        add_four(out, at, a, b, i);
        i += 4;
    }
    add_from(out, at, a, b, i);
}

// Writes the differences of two slices, entry by entry, into out from place at on.
pub fn sub_into(out: &mut [i32], at: usize, a: &[i32], b: &[i32])
    requires { (length a.now ≡ length b.now) × (at + length a.now ≤ length out.old) }
    ensures { out.new ≡ lay_at at (zip_with wrapping_sub a.now b.now) out.old }
{
    for i in 0..a.len() {
        out[at + i] = super::wrapping_sub(a[i], b[i]);
    }
}

// Copies the bytes xs into out from place at on.
pub fn copy_bytes(out: &mut [u8], at: usize, xs: &[u8])
    requires { at + length xs.now ≤ length out.old }
    ensures { out.new ≡ lay_at at xs.now out.old }
{
    out[at..at + xs.len()].copy_from_slice(xs);
}

// Moves the ints between two places up.
pub fn shift(area: &mut [i32], from: usize, to: usize, by: usize)
    requires { (from ≤ to) × (to + by ≤ length area.old) }
    ensures { area.new ≡ shifted area.old from to by }
{
    area.copy_within(from..to, from + by);
}
