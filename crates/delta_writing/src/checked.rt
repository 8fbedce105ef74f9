// Writes deltas of areas whose form was checked, under known sizes: header and deleted keys unchanged, then the updates.
ghost use Rattle.std.specs.Prelude.{◌≡◌, [], ◌+◌, ◌≤◌, length};
ghost use Rattle.definitions.specs.Areas.{lay_at};
ghost use Rattle.definitions.specs.Outcome.{return};
ghost use Rattle.definitions.specs.Packed.{pack_ints};
ghost use Rattle.definitions.specs.Stored.{stored};
ghost use Rattle.definitions.specs.Tables.{nat};
ghost use Rattle.definitions.specs.Deltas.{known_size, update_ints, updates_ints, size_at, update_at, updates, delta_ints, delta_in};
ghost use Rattle.definitions.specs.DeltaCalls.{is_size, sizes_match};
ghost use Rattle.laws.specs.DeltaShape.{Update, Updates};
ghost use Rattle.laws.specs.DeltaWriting.{rest_ints};
ghost use Rattle.format.specs.Answers.{stored_ints};
ghost use Rattle.delta_form.specs.Held.{HeldDelta};

use delta_form::checked::{known_size, next_update};
use format::Error;
use packer::checked::{pack_at, packed_len};
use table::checked::nat_at;

// Whether the size of the update at a place equals the known size, if one is known.
fn size_matches(area: &[i32], p: usize, sizes: &[i32]) -> bool
    requires { Update [] area.now p }
    ensures { result ≡ is_size (known_size sizes.now (nat area.now p)) (size_at [] area.now p) }
{
    let size = known_size(sizes, nat_at(area, p));
    if size < 4294967296 {
        return size == nat_at(area, p + 2);
    }
    true
}

// Whether the known sizes equal those of the updates of an area in form.
pub fn sizes_match(area: &[i32], deleted: usize, updated: usize, sizes: &[i32]) -> bool
    requires { HeldDelta [] area.now deleted updated }
    ensures { result ≡ sizes_match sizes.now (delta_in [] area.now).updated }
{
    let mut p = 3 + deleted;
    for _ in 0..updated {
        if !size_matches(area, p, sizes) {
            return false;
        }
        p = next_update(area, p);
    }
    true
}

// What is written of the update at a place after its type and id: its size unless known, and its differences, as a part of the area.
fn update_rest<'a>(area: &'a [i32], p: usize, sizes: &[i32]) -> &'a [i32]
    requires { Update [] area.now p }
    ensures { result.now ≡ rest_ints sizes.now area.now p }
{
    let end = next_update(area, p);
    if known_size(sizes, nat_at(area, p)) < 4294967296 {
        let from = p + 3;
        return &area[from..end];
    }
    let from = p + 2;
    &area[from..end]
}

// How many ints the n updates from a place on take when written.
fn updates_len(area: &[i32], start: usize, n: usize, sizes: &[i32]) -> usize
    requires { (start ≤ length area.now) × Updates [] area.now start n }
    ensures { result ≡ length (updates_ints sizes.now (updates [] area.now start n)) }
{
    let mut total: usize = 0;
    let mut p = start;
    for _ in 0..n {
        let rest = update_rest(area, p, sizes);
        total += 2 + rest.len();
        p = next_update(area, p);
    }
    total
}

// Writes the update at a place into out, which has room for it, at a place; returns the place after it.
fn write_update(area: &[i32], p: usize, sizes: &[i32], out: &mut [i32], at: usize) -> usize
    requires { Update [] area.now p × (at + length (update_ints sizes.now (update_at [] area.now p)) ≤ length out.old) }
    ensures { (result ≡ at + length (update_ints sizes.now (update_at [] area.now p))) × (out.new ≡ lay_at at (update_ints sizes.now (update_at [] area.now p)) out.old) }
{
    let behind = p + 2;
    ints::copy_into(out, at, &area[p..behind]);
    let rest = update_rest(area, p, sizes);
    ints::copy_into(out, at + 2, rest);
    at + 2 + rest.len()
}

// Writes the n updates from a place on into out, which has room for them, from a place on; returns the place after them.
fn write_updates(
    area: &[i32],
    start: usize,
    n: usize,
    sizes: &[i32],
    out: &mut [i32],
    first: usize,
) -> usize
    requires { Updates [] area.now start n × (first + length (updates_ints sizes.now (updates [] area.now start n)) ≤ length out.old) }
    ensures { (result ≡ first + length (updates_ints sizes.now (updates [] area.now start n))) × (out.new ≡ lay_at first (updates_ints sizes.now (updates [] area.now start n)) out.old) }
{
    let mut at = first;
    let mut p = start;
    for _ in 0..n {
        at = write_update(area, p, sizes, out, at);
        p = next_update(area, p);
    }
    at
}

// Writes a delta's ints under known sizes into the front of out; if they do not fit, out is unchanged.
pub fn write_ints(
    area: &[i32],
    deleted: usize,
    updated: usize,
    sizes: &[i32],
    out: &mut [i32],
) -> Result<usize, Error>
    requires { HeldDelta [] area.now deleted updated }
    ensures { stored out.old (return (delta_ints sizes.now (delta_in [] area.now))) ≡ record { answer = stored_ints result; out = out.new } }
{
    let front = 3 + deleted;
    let n = front + updates_len(area, front, updated, sizes);
    if out.len() < n {
        return Err(Error::CapacityError);
    }
    ints::copy_into(out, 0, &area[..front]);
    Ok(write_updates(area, front, updated, sizes, out, front))
}

// How many bytes the n updates from a place on take when packed.
fn updates_packed_len(area: &[i32], start: usize, n: usize, sizes: &[i32]) -> usize
    requires { (start ≤ length area.now) × Updates [] area.now start n }
    ensures { result ≡ length (pack_ints (updates_ints sizes.now (updates [] area.now start n))) }
{
    let mut total: usize = 0;
    let mut p = start;
    for _ in 0..n {
        let behind = p + 2;
        total += packed_len(&area[p..behind]);
        total += packed_len(update_rest(area, p, sizes));
        p = next_update(area, p);
    }
    total
}

// Packs the update at a place into out, which has room for it, at a place; returns the place after it.
fn pack_update(area: &[i32], p: usize, sizes: &[i32], out: &mut [u8], at: usize) -> usize
    requires { Update [] area.now p × (at + length (pack_ints (update_ints sizes.now (update_at [] area.now p))) ≤ length out.old) }
    ensures { (result ≡ at + length (pack_ints (update_ints sizes.now (update_at [] area.now p)))) × (out.new ≡ lay_at at (pack_ints (update_ints sizes.now (update_at [] area.now p))) out.old) }
{
    let behind = p + 2;
    let next = pack_at(&area[p..behind], out, at);
    pack_at(update_rest(area, p, sizes), out, next)
}

// Packs the n updates from a place on into out, which has room for them, from a place on; returns the place after them.
fn pack_updates(
    area: &[i32],
    start: usize,
    n: usize,
    sizes: &[i32],
    out: &mut [u8],
    first: usize,
) -> usize
    requires { Updates [] area.now start n × (first + length (pack_ints (updates_ints sizes.now (updates [] area.now start n))) ≤ length out.old) }
    ensures { (result ≡ first + length (pack_ints (updates_ints sizes.now (updates [] area.now start n)))) × (out.new ≡ lay_at first (pack_ints (updates_ints sizes.now (updates [] area.now start n))) out.old) }
{
    let mut at = first;
    let mut p = start;
    for _ in 0..n {
        at = pack_update(area, p, sizes, out, at);
        p = next_update(area, p);
    }
    at
}

// Writes the same delta packed; returns the number of bytes.
pub fn write_packed(
    area: &[i32],
    deleted: usize,
    updated: usize,
    sizes: &[i32],
    out: &mut [u8],
) -> Result<usize, Error>
    requires { HeldDelta [] area.now deleted updated }
    ensures { stored out.old (return (pack_ints (delta_ints sizes.now (delta_in [] area.now)))) ≡ record { answer = stored_ints result; out = out.new } }
{
    let front = 3 + deleted;
    let bytes = packed_len(&area[..front]) + updates_packed_len(area, front, updated, sizes);
    if out.len() < bytes {
        return Err(Error::CapacityError);
    }
    let at = pack_at(&area[..front], out, 0);
    Ok(pack_updates(area, front, updated, sizes, out, at))
}
