// Ints that begin with a delta under known sizes: the test of their form, and functions on ints that passed it.
ghost use Rattle.std.specs.Prelude.{◌≡◌, ◌&&◌, [], ◌∷◌, ◌+◌, ◌/◌, ◌%◌, ◌<◌, ◌≤◌, ◌^◌, ltb, eqb, pos, length, take, drop};
ghost use Rattle.definitions.specs.Ints.{bits};
ghost use Rattle.definitions.specs.Areas.{lay_at};
ghost use Rattle.definitions.specs.Tables.{nat, all};
ghost use Rattle.definitions.specs.Deltas.{rank, deleted_at, known_size, update_key, data_at, size_at, update_end, deleted_fits};
ghost use Rattle.definitions.specs.Deltas as Deltas;
ghost use Rattle.laws.specs.DeltaShape.{Update};
ghost use Rattle.delta_form.specs.Reached.{Under, Reached};
ghost use Rattle.delta_form.specs.Held.{size_from, form_of, end_of, updates_form_of};

use table::checked::{bits_at, count_at, nat_at, put};

// The numbers of deleted keys, of updates and of ints of a delta.
#[derive(Clone, Copy)]
pub struct DeltaForm {
    pub deleted: usize,
    pub updated: usize,
    pub ints: usize,
}

// The known size of a type, or 2^32 if none is known.
pub fn known_size(sizes: &[i32], raw_type_id: usize) -> usize
    ensures { (known_size sizes.now raw_type_id ≡ size_from result) × (result ≤ 2 ^ 32) }
{
    if raw_type_id < sizes.len() {
        return nat_at(sizes, raw_type_id);
    }
    4294967296
}

// The place of the differences of the update at place p.
pub fn data_at(area: &[i32], sizes: &[i32], p: usize) -> usize
    requires { p < length area.now }
    ensures { (result ≡ data_at sizes.now area.now p) × (p + 2 ≤ result) × (result ≤ p + 3) }
{
    if known_size(sizes, nat_at(area, p)) < 4294967296 {
        return p + 2;
    }
    p + 3
}

// How many differences the update at place p has.
pub fn size_at(area: &[i32], sizes: &[i32], p: usize) -> usize
    requires { (p < length area.now) × (data_at sizes.now area.now p ≤ length area.now) }
    ensures { (result ≡ size_at sizes.now area.now p) × (result ≤ 2 ^ 32) }
{
    let size = known_size(sizes, nat_at(area, p));
    if size < 4294967296 {
        return size;
    }
    nat_at(area, p + 2)
}

// The place after the update at place p.
pub fn update_end(area: &[i32], sizes: &[i32], p: usize) -> usize
    requires { (p < length area.now) × (data_at sizes.now area.now p ≤ length area.now) }
    ensures { result ≡ update_end sizes.now area.now p }
{
    data_at(area, sizes, p) + size_at(area, sizes, p)
}

// How many differences the update at place p of a delta area has, where all sizes are written.
pub fn update_size(area: &[i32], p: usize) -> usize
    requires { Update [] area.now p }
    ensures { (result ≡ size_at [] area.now p) × (result < 2 ^ 32) }
{
    count_at(area, p + 2)
}

// The place after the update at place p of a delta area.
pub fn next_update(area: &[i32], p: usize) -> usize
    requires { Update [] area.now p }
    ensures { result ≡ update_end [] area.now p }
{
    p + 3 + update_size(area, p)
}

// The differences of the update at place p, as a part of the area.
pub fn update_data<'a>(area: &'a [i32], sizes: &[i32], p: usize) -> &'a [i32]
    requires { Update sizes.now area.now p }
    ensures { result.now ≡ take (size_at sizes.now area.now p) (drop (data_at sizes.now area.now p) area.now) }
{
    let from = data_at(area, sizes, p);
    let to = from + size_at(area, sizes, p);
    &area[from..to]
}

// The bits of the key of the update at place p.
fn update_bits(area: &[i32], p: usize) -> usize
    requires { (p + 2 ≤ length area.now) × (nat area.now p < 65536) × (nat area.now (p + 1) < 65536) }
    ensures { (result ≡ update_key area.now p) × (result < 2 ^ 32) }
{
    count_at(area, p) * 65536 + count_at(area, p + 1)
}

// The key of the update at place p.
pub fn update_key(area: &[i32], p: usize) -> i32
    requires { (p + 2 ≤ length area.now) × (nat area.now p < 65536) × (nat area.now (p + 1) < 65536) }
    ensures { bits result ≡ update_key area.now p }
{
    ints::from_bits(update_bits(area, p) as u32)
}

// The place of a key, given by its bits, among all keys in signed order.
pub fn rank(key: usize) -> usize
    requires { key < 2 ^ 32 }
    ensures { (result ≡ Deltas.rank key) × (result < 2 ^ 32) }
{
    (key + 2147483648) % 4294967296
}

// Whether the n deleted keys rise in signed order.
pub fn deleted_fit(area: &[i32], n: usize) -> bool
    requires { 3 + n ≤ length area.now }
    ensures { result ≡ all (deleted_fits area.now) n }
{
    if n == 0 {
        return true;
    }
    let mut last = area[3];
    for i in 1..n {
        let next = area[3 + i];
        if !ints::signed_less(last, next) {
            return false;
        }
        last = next;
    }
    true
}

// The place after the update at place p, if the update is within the area and its type and id have 16 bits.
pub fn update_fits(area: &[i32], sizes: &[i32], p: usize) -> Option<usize>
    requires { p ≤ length area.now }
    ensures { result ≡ end_of sizes.now area.now p }
{
    if area.len() - p < 2 {
        return None;
    }
    if 65535 < nat_at(area, p) {
        return None;
    }
    if 65535 < nat_at(area, p + 1) {
        return None;
    }
    let from = data_at(area, sizes, p);
    if area.len() < from {
        return None;
    }
    let size = size_at(area, sizes, p);
    if 4294967295 < size {
        return None;
    }
    if area.len() - from < size {
        return None;
    }
    Some(from + size)
}

// If n updates follow one another from a place on, with keys that rise in signed order, all above the key of the update before: the place after them.
fn updates_fit_above(
    area: &[i32],
    sizes: &[i32],
    start: usize,
    n: usize,
    before: i32,
) -> Option<usize>
    requires { start ≤ length area.now }
    ensures { result ≡ updates_form_of sizes.now area.now start (Deltas.rank (bits before) + 1) n }
{
    let mut p = start;
    let mut last = before;
    for _ in 0..n {
        let end = update_fits(area, sizes, p)?;
        let key = update_key(area, p);
        if !ints::signed_less(last, key) {
            return None;
        }
        last = key;
        p = end;
    }
    Some(p)
}

// If n updates follow one another from a place on, with keys that rise in signed order: the place after them.
pub fn updates_fit(area: &[i32], sizes: &[i32], start: usize, n: usize) -> Option<usize>
    requires { start ≤ length area.now }
    ensures { result ≡ updates_form_of sizes.now area.now start 0 n }
{
    if n == 0 {
        return Some(start);
    }
    let end = update_fits(area, sizes, start)?;
    updates_fit_above(area, sizes, end, n - 1, update_key(area, start))
}

// The form of some ints, if they begin with a delta under known sizes.
pub fn form(area: &[i32], sizes: &[i32]) -> Option<DeltaForm>
    ensures { result ≡ form_of sizes.now area.now }
{
    if area.len() < 3 {
        return None;
    }
    if nat_at(area, 2) != 0 {
        return None;
    }
    let deleted = nat_at(area, 0);
    let updated = nat_at(area, 1);
    if 4294967295 < deleted {
        return None;
    }
    if 4294967295 < updated {
        return None;
    }
    if area.len() - 3 < deleted {
        return None;
    }
    if !deleted_fit(area, deleted) {
        return None;
    }
    let ints = updates_fit(area, sizes, 3 + deleted, updated)?;
    Some(DeltaForm {
        deleted,
        updated,
        ints,
    })
}

// The place of the first deleted key not below key in signed order, from start on; all keys before start are below it.
pub fn deleted_from(src: &[i32], deleted: usize, start: usize, key: i32) -> usize
    requires { (3 + deleted ≤ length src.now) × (start ≤ deleted) × Under src.now start (rank (bits key)) }
    ensures { Reached src.now deleted result (rank (bits key)) }
{
    for i in start..deleted {
        if !ints::signed_less(src[3 + i], key) {
            return i;
        }
    }
    deleted
}

// Whether there is an i-th deleted key and it equals key.
pub fn has_deleted(src: &[i32], deleted: usize, i: usize, key: i32) -> bool
    requires { 3 + deleted ≤ length src.now }
    ensures { result ≡ (ltb i deleted && eqb (deleted_at src.now i) (bits key)) }
{
    i < deleted && src[3 + i] == key
}

// Writes three counts into out from place at on.
pub fn put_counts(out: &mut [i32], at: usize, a: usize, b: usize, c: usize)
    requires { (at + 3 ≤ length out.old) × (a < 2 ^ 31) × (b < 2 ^ 31) × (c < 2 ^ 31) }
    ensures { out.new ≡ lay_at at (pos a ∷ pos b ∷ pos c ∷ []) out.old }
{
    put(out, at, a);
    put(out, at + 1, b);
    put(out, at + 2, c);
}

// Writes the type, the id and the size of an update into out from place at on.
pub fn write_head(out: &mut [i32], at: usize, key: i32, size: usize)
    requires { (at + 3 ≤ length out.old) × (size < 2 ^ 31) }
    ensures { out.new ≡ lay_at at (pos (bits key / 65536) ∷ pos (bits key % 65536) ∷ pos size ∷ []) out.old }
{
    let raw_type_id = format::key_to_raw_type_id(key) as usize;
    let id = format::key_to_id(key) as usize;
    put_counts(out, at, raw_type_id, id, size);
}
