// Table areas: the test of their form, and functions on an area that passed it.
ghost use Rattle.std.specs.Prelude.{◌≡◌, Bool, true, cond, ℕ, ◌+◌, ◌-◌, ◌/◌, ◌<◌, ◌≤◌, ◌^◌, pos, length, get_or, take, drop, set};
ghost use Rattle.std.proofs.Math.Option.{some};
ghost use Rattle.std.specs.Int.Signed.{mag};
ghost use Rattle.definitions.specs.Ints.{bits};
ghost use Rattle.definitions.specs.Tables.{table_of, items, find, is_some, all, ends, fits, count, start, key_at, values_at, item_at, walk, nat};
ghost use Rattle.definitions.specs.Tables as Tables;
ghost use Rattle.definitions.specs.TableCalls.{nth};
ghost use Rattle.laws.specs.TableFind.{Place};
ghost use Rattle.table.specs.Held.{Head, Held, form_of, data_in};
ghost use Rattle.table.specs.Offsets.{behind_at, joined, tally};
ghost use Rattle.table.specs.Keys.{Rising, last_key};

use search::first_not;

pub mod search;

// The number of items, and of ints, of the table with which an area begins.
#[derive(Clone, Copy)]
pub struct TableForm {
    pub items: usize,
    pub ints: usize,
}

// A summary of some items' offsets: how many are above the one before, and the bitwise or of all of them.
#[derive(Clone, Copy)]
pub struct Offsets {
    pub behind: u32,
    pub bits: u32,
}

// The count at place i; a negative int gives 2^32.
pub fn nat_at(area: &[i32], i: usize) -> usize
    requires { i < length area.now }
    ensures { (result ≡ nat area.now i) × (result ≤ 2 ^ 32) × (mag (get_or area.now i (pos 0)) < 2 ^ 31) }
{
    ints::num(area[i])
}

// The bits of the int at place i.
pub fn bits_at(area: &[i32], i: usize) -> usize
    requires { i < length area.now }
    ensures { (result ≡ bits (get_or area.now i (pos 0))) × (result < 2 ^ 32) × (mag (get_or area.now i (pos 0)) < 2 ^ 31) }
{
    ints::to_bits(area[i]) as usize
}

// The count at a place that holds one, by its bits.
pub fn count_at(area: &[i32], i: usize) -> usize
    requires { (i < length area.now) × (nat area.now i < 2 ^ 32) }
    ensures { result ≡ nat area.now i }
{
    bits_at(area, i)
}

// The byte offset of item i of n, or of the end of the last item.
pub fn edge(area: &[i32], n: usize, i: usize) -> usize
    requires { (n ≡ count area.now) × (2 + n ≤ length area.now) }
    ensures { (result ≡ Tables.edge area.now i) × (result ≤ 2 ^ 32) }
{
    if i < n {
        nat_at(area, 2 + i)
    } else {
        nat_at(area, 0)
    }
}

// 1 if item i, not the first, begins after the one before, else 0.
fn is_behind(area: &[i32], i: usize) -> u32
    requires { (0 < i) × (2 + i < length area.now) }
    ensures { (result ≡ cond (behind_at area.now (i - 1)) 1 0) × (result ≤ 1) }
{
    if ints::signed_less(area[1 + i], area[2 + i]) {
        return 1;
    }
    0
}

// For all n items but the first: how many begin after the one before, and the bitwise or of their offsets. No turn leaves the loop, so that
// the compiler can vectorize it.
fn join_offsets(area: &[i32], n: usize) -> Offsets
    requires { (2 + n ≤ length area.now) × (n ≤ 1024) }
    ensures { (result.behind ≡ tally (behind_at area.now) (n - 1)) × (result.bits ≡ joined area.now (n - 1)) }
{
    let mut behind: u32 = 0;
    let mut bits: u32 = 0;
    for i in 1..n {
        behind += is_behind(area, i);
        bits |= ints::to_bits(area[2 + i]);
    }
    Offsets { behind, bits }
}

// Whether the items' offsets are those of a written table.
fn ends_fit(area: &[i32], n: usize, size: usize) -> bool
    requires { Head area.now n size }
    ensures { result ≡ all (ends area.now) n }
{
    if n == 0 {
        return true;
    }
    if size % 4 != 0 {
        return false;
    }
    if size <= bits_at(area, 1 + n) {
        return false;
    }
    let offsets = join_offsets(area, n);
    if offsets.bits % 4 != 0 {
        return false;
    }
    offsets.behind as usize + 1 == n
}

// The bits of the key of item i of n, if the offsets are those of a written table; body is the area past the offsets.
fn key_bits(area: &[i32], body: &[i32], n: usize, size: usize, i: usize) -> usize
    requires { Head area.now n size × (all (ends area.now) n ≡ true) × (i < n) × (body.now ≡ drop (2 + n) area.now) }
    ensures { (result ≡ key_at area.now i) × (result < 2 ^ 32) × (mag (get_or area.now (start area.now i) (pos 0)) < 2 ^ 31) }
{
    let here = bits_at(area, 2 + i);
    bits_at(body, here / 4)
}

// The key of item i, or 2^32 if it is not above the last one.
fn after_item(area: &[i32], body: &[i32], n: usize, size: usize, i: usize, last: usize) -> usize
    requires { Rising area.now n size i last × (i < n) × (body.now ≡ drop (2 + n) area.now) }
    ensures { result ≡ last_key area.now (i + 1) }
{
    let key = key_bits(area, body, n, size, i);
    if key <= last {
        return 4294967296;
    }
    key
}

// The key of the second item from item i on, or 2^32 if one of the two is not above the one before.
fn after_two(area: &[i32], body: &[i32], n: usize, size: usize, i: usize, last: usize) -> usize
    requires { Rising area.now n size i last × (i + 2 ≤ n) × (body.now ≡ drop (2 + n) area.now) }
    ensures { result ≡ last_key area.now (i + 2) }
{
    let half = after_item(area, body, n, size, i, last);
    if half == 4294967296 {
        return 4294967296;
    }
    after_item(area, body, n, size, i + 1, half)
}

// The key of the fourth item from item i on, or 2^32 if one of the four is not above the one before.
fn after_four(area: &[i32], body: &[i32], n: usize, size: usize, i: usize, last: usize) -> usize
    requires { Rising area.now n size i last × (i + 4 ≤ n) × (body.now ≡ drop (2 + n) area.now) }
    ensures { result ≡ last_key area.now (i + 4) }
{
    let half = after_two(area, body, n, size, i, last);
    if half == 4294967296 {
        return 4294967296;
    }
    after_two(area, body, n, size, i + 2, half)
}

// The key of the eighth item from item i on, or 2^32 if one of the eight is not above the one before.
fn after_eight(area: &[i32], body: &[i32], n: usize, size: usize, i: usize, last: usize) -> usize
    requires { Rising area.now n size i last × (i + 8 ≤ n) × (body.now ≡ drop (2 + n) area.now) }
    ensures { result ≡ last_key area.now (i + 8) }
{
    let half = after_four(area, body, n, size, i, last);
    if half == 4294967296 {
        return 4294967296;
    }
    after_four(area, body, n, size, i + 4, half)
}

// Whether the keys from one item on are those of a written table, if the keys before are; start is the last of these.
fn keys_fit_from(
    area: &[i32],
    body: &[i32],
    n: usize,
    size: usize,
    from: usize,
    start: usize,
) -> bool
    requires { Rising area.now n size from start × (from ≤ n) × (body.now ≡ drop (2 + n) area.now) }
    ensures { result ≡ all (fits area.now) n }
{
    let mut last = start;
    for i in from..n {
        last = after_item(area, body, n, size, i, last);
        if last == 4294967296 {
            return false;
        }
    }
    true
}

// Whether the items' keys are those of a written table, if the offsets are. Each turn takes eight items, for speed.
fn keys_fit(area: &[i32], n: usize, size: usize) -> bool
    requires { Head area.now n size × (all (ends area.now) n ≡ true) }
    ensures { result ≡ all (fits area.now) n }
{
    if n == 0 {
        return true;
    }
    let first = 2 + n;
    let body = &area[first..];
    let mut i: usize = 1;
    let mut last = key_bits(area, body, n, size, 0);
    while i + 8 <= n {
        last = after_eight(area, body, n, size, i, last);
        if last == 4294967296 {
            return false;
        }
        i += 8;
    }
    keys_fit_from(area, body, n, size, i, last)
}

// Whether the items' offsets and keys are those of a written table.
pub fn all_fit(area: &[i32], n: usize, size: usize) -> bool
    requires { Head area.now n size }
    ensures { result ≡ all (fits area.now) n }
{
    ends_fit(area, n, size) && keys_fit(area, n, size)
}

// The form of an area, if it begins with a written table.
pub fn form(area: &[i32]) -> Option<TableForm>
    ensures { result ≡ form_of (table_of area.now) }
{
    if area.len() < 2 {
        return None;
    }
    let size = nat_at(area, 0);
    let n = nat_at(area, 1);
    if 1024 < n {
        return None;
    }
    let ints = 2 + n + size / 4;
    if 16384 < ints {
        return None;
    }
    if area.len() < ints {
        return None;
    }
    if edge(area, n, 0) != 0 {
        return None;
    }
    if all_fit(area, n, size) {
        Some(TableForm { items: n, ints })
    } else {
        None
    }
}

// The place where item i of n begins, which holds its key.
fn key_place(area: &[i32], n: usize, i: usize) -> usize
    requires { Held area.now n × (i < n) }
    ensures { result ≡ start area.now i }
{
    2 + n + bits_at(area, 2 + i) / 4
}

// The place where item i of n begins, or where the last one ends.
pub fn start_at(area: &[i32], n: usize, i: usize) -> usize
    requires { Held area.now n × (i ≤ n) }
    ensures { result ≡ start area.now i }
{
    if i < n {
        return key_place(area, n, i);
    }
    2 + n + bits_at(area, 0) / 4
}

// The key of item i of n.
pub fn key_at(area: &[i32], n: usize, i: usize) -> i32
    requires { Held area.now n × (i < n) }
    ensures { bits result ≡ key_at area.now i }
{
    let at = key_place(area, n, i);
    area[at]
}

// The data of item i of n, as a part of the area.
pub fn data_at(area: &[i32], n: usize, i: usize) -> &[i32]
    requires { Held area.now n × (i < n) }
    ensures { result.now ≡ values_at area.now i }
{
    let from = key_place(area, n, i) + 1;
    let to = start_at(area, n, i + 1);
    &area[from..to]
}

// The place of a key among the n items, by binary search: the items before it have lesser keys, read as unsigned.
pub fn place(area: &[i32], n: usize, key: i32) -> usize
    requires { Held area.now n }
    ensures { Place area.now (bits key) result }
{
    first_not(n, |i| ints::unsigned_less(key_at(area, n, i), key))
}

// The place of the item with a key among the n items, or n if there is none.
pub fn find(area: &[i32], n: usize, key: i32) -> usize
    requires { Held area.now n }
    ensures { Tables.find (bits key) (items area.now) ≡ data_in area.now n result }
{
    let p = place(area, n, key);
    if p < n && key_at(area, n, p) == key {
        return p;
    }
    n
}

// The sum of the data ints of the n items, item by item. Each item begins where the one before it ends.
pub fn crc(area: &[i32], n: usize) -> i32
    requires { Held area.now n }
    ensures { result ≡ Tables.crc (items area.now) }
{
    let mut total: i32 = 0;
    let mut at = 2 + n;
    for i in 0..n {
        let from = at + 1;
        let to = start_at(area, n, i + 1);
        total = ints::wrapping_add(total, ints::sum(&area[from..to]));
        at = to;
    }
    total
}

// The place of the first of the n items with a negative key, by binary search. Such keys come last in a written table, and first in a walk.
pub fn walk_start(area: &[i32], n: usize) -> usize
    requires { Held area.now n }
    ensures { Place area.now (2 ^ 31) result }
{
    first_not(n, |i| !ints::signed_less(key_at(area, n, i), 0))
}

// The place of the i-th of the n items in signed key order.
pub fn walk_place(area: &[i32], n: usize, i: usize) -> usize
    requires { Held area.now n × (i < n) }
    ensures { (result < n) × (nth (walk (items area.now)) i ≡ some (item_at area.now result)) }
{
    let at = walk_start(area, n) + i;
    if at < n {
        return at;
    }
    at - n
}

// Writes a count, as an int, into an area.
pub fn put(area: &mut [i32], i: usize, v: usize)
    requires { (i < length area.old) × (v < 2 ^ 31) }
    ensures { area.new ≡ set area.old i (pos v) }
{
    area[i] = v as i32;
}

// The place of a key, searched from an item on before which all keys are less.
pub fn next_place(area: &[i32], n: usize, from: usize, key: i32) -> usize
    requires { Held area.now n × (from ≤ n) × ((i : ℕ) → i < from → key_at area.now i < bits key) }
    ensures { Place area.now (bits key) result }
{
    for i in from..n {
        if !ints::unsigned_less(key_at(area, n, i), key) {
            return i;
        }
    }
    n
}

// Whether the item at a key's place has that key.
pub fn has_key(area: &[i32], n: usize, place: usize, key: i32) -> bool
    requires { Held area.now n × Place area.now (bits key) place }
    ensures { result ≡ is_some (find (bits key) (items area.now)) }
{
    place < n && key_at(area, n, place) == key
}
