// Reads ints that hold a delta under known sizes and rise already: writes them into an area with sizes, and counts updates of deleted keys.
ghost use Rattle.std.specs.Prelude.{◌≡◌, ◌&&◌, [], ◌+◌, ◌≤◌, ltb, eqb, pos, length};
ghost use Rattle.definitions.specs.Ints.{bits};
ghost use Rattle.definitions.specs.Areas.{lay_at};
ghost use Rattle.definitions.specs.Outcome.{return};
ghost use Rattle.definitions.specs.Stored.{stored};
ghost use Rattle.definitions.specs.Deltas.{rank, deleted_at, size_at, update_ints, updates_ints, written_delta, update_at, updates, delta_in};
ghost use Rattle.definitions.specs.Deltas as Deltas;
ghost use Rattle.laws.specs.DeltaShape.{updates_end, Update, Updates};
ghost use Rattle.laws.specs.DeltaReadBack.{delete_updates};
ghost use Rattle.format.specs.Answers.{stored_ints};
ghost use Rattle.format.specs.Sources.{deleted_counts};
ghost use Rattle.delta_form.specs.Held.{HeldDelta};
ghost use Rattle.delta_reading.specs.Answers.{OrderedRead};
ghost use Rattle.delta_form.specs.Reached.{Under, Reached};

use delta_form::checked::{
    deleted_from, form, has_deleted, known_size, size_at, update_data, update_end, update_key,
};
use format::Error;
use table::checked::nat_at;

// The result of reading ints that rise already: the answer, and how many updates are of deleted keys.
#[derive(Clone, Copy)]
pub struct Ordered {
    pub answer: Result<usize, Error>,
    pub delete_updates: usize,
}

// How many ints the n updates from a place on take with their sizes written.
fn updates_len(src: &[i32], sizes: &[i32], start: usize, n: usize) -> usize
    requires { (start ≤ length src.now) × Updates sizes.now src.now start n }
    ensures { result ≡ length (updates_ints [] (updates sizes.now src.now start n)) }
{
    let mut total: usize = 0;
    let mut p = start;
    for _ in 0..n {
        total += 3 + size_at(src, sizes, p);
        p = update_end(src, sizes, p);
    }
    total
}

// The size of the update at a place, as an int.
fn size_int(src: &[i32], sizes: &[i32], p: usize) -> i32
    requires { Update sizes.now src.now p }
    ensures { result ≡ pos (size_at sizes.now src.now p) }
{
    let raw_type_id = nat_at(src, p);
    if known_size(sizes, raw_type_id) < 4294967296 {
        return sizes[raw_type_id];
    }
    src[p + 2]
}

// Writes the update at a place with its size into out, which has room for it, at a place; returns the place after it.
fn write_update(src: &[i32], sizes: &[i32], p: usize, out: &mut [i32], at: usize) -> usize
    requires { Update sizes.now src.now p × (at + length (update_ints [] (update_at sizes.now src.now p)) ≤ length out.old) }
    ensures { (result ≡ at + length (update_ints [] (update_at sizes.now src.now p))) × (out.new ≡ lay_at at (update_ints [] (update_at sizes.now src.now p)) out.old) }
{
    let behind = p + 2;
    ints::copy_into(out, at, &src[p..behind]);
    let size_place = at + 2;
    out[size_place] = size_int(src, sizes, p);
    let data = update_data(src, sizes, p);
    ints::copy_into(out, at + 3, data);
    at + 3 + data.len()
}

// Writes the n updates from a place on with their sizes into out, which has room for them, from a place on; returns the place after them.
fn write_updates(
    src: &[i32],
    sizes: &[i32],
    start: usize,
    n: usize,
    out: &mut [i32],
    first: usize,
) -> usize
    requires { Updates sizes.now src.now start n × (first + length (updates_ints [] (updates sizes.now src.now start n)) ≤ length out.old) }
    ensures { (result ≡ first + length (updates_ints [] (updates sizes.now src.now start n))) × (out.new ≡ lay_at first (updates_ints [] (updates sizes.now src.now start n)) out.old) }
{
    let mut at = first;
    let mut p = start;
    for _ in 0..n {
        at = write_update(src, sizes, p, out, at);
        p = update_end(src, sizes, p);
    }
    at
}

// Writes a delta of ints in form under known sizes, with all sizes, into the front of out; if it does not fit, out is unchanged.
pub fn write_area(
    src: &[i32],
    sizes: &[i32],
    deleted: usize,
    updated: usize,
    out: &mut [i32],
) -> Result<usize, Error>
    requires { HeldDelta sizes.now src.now deleted updated }
    ensures { stored out.old (return (written_delta (delta_in sizes.now src.now))) ≡ record { answer = stored_ints result; out = out.new } }
{
    let front = 3 + deleted;
    let n = front + updates_len(src, sizes, front, updated);
    if out.len() < n {
        return Err(Error::CapacityError);
    }
    ints::copy_into(out, 0, &src[..front]);
    Ok(write_updates(src, sizes, front, updated, out, front))
}

// Copies ints to the front of out; if they do not fit, out is unchanged.
fn copy_whole(src: &[i32], out: &mut [i32]) -> Result<usize, Error>
    ensures { stored out.old (return src.now) ≡ record { answer = stored_ints result; out = out.new } }
{
    if ints::copy_into(out, 0, src) {
        return Ok(src.len());
    }
    Err(Error::CapacityError)
}

// Writes a delta that takes up all of the ints, with all sizes, into the front of out. If no size is known, the ints are copied as they are.
fn write_whole(
    src: &[i32],
    sizes: &[i32],
    deleted: usize,
    updated: usize,
    out: &mut [i32],
) -> Result<usize, Error>
    requires { HeldDelta sizes.now src.now deleted updated × (length src.now ≡ updates_end sizes.now src.now (3 + Deltas.num_deleted src.now) (Deltas.num_updated src.now)) }
    ensures { stored out.old (return (written_delta (delta_in sizes.now src.now))) ≡ record { answer = stored_ints result; out = out.new } }
{
    if sizes.len() == 0 {
        return copy_whole(src, out);
    }
    write_area(src, sizes, deleted, updated, out)
}

// How many updates are of deleted keys, by one walk along both lists, which rise in signed order.
pub fn count_delete_updates(src: &[i32], sizes: &[i32], deleted: usize, updated: usize) -> usize
    requires { HeldDelta sizes.now src.now deleted updated }
    ensures { (delete_updates (delta_in sizes.now src.now).deleted (delta_in sizes.now src.now).updated ≡ deleted_counts result) × (result ≤ updated) }
{
    let mut total: usize = 0;
    let mut i: usize = 0;
    let mut p = 3 + deleted;
    for _ in 0..updated {
        let key = update_key(src, p);
        i = deleted_from(src, deleted, i, key);
        total += ints::one_if(has_deleted(src, deleted, i, key));
        p = update_end(src, sizes, p);
    }
    total
}

// How many updates are of deleted keys; none if no key is deleted.
fn num_delete_updates(src: &[i32], sizes: &[i32], deleted: usize, updated: usize) -> usize
    requires { HeldDelta sizes.now src.now deleted updated }
    ensures { (delete_updates (delta_in sizes.now src.now).deleted (delta_in sizes.now src.now).updated ≡ deleted_counts result) × (result ≤ updated) }
{
    if deleted == 0 {
        return 0;
    }
    count_delete_updates(src, sizes, deleted, updated)
}

// Reads a delta of ints that rise already into the front of out; other ints are not read, and out is unchanged.
pub fn read_ordered(src: &[i32], sizes: &[i32], out: &mut [i32]) -> Option<Ordered>
    ensures { OrderedRead sizes.now src.now out.old out.new result }
{
    let form = form(src, sizes)?;
    if form.ints != src.len() {
        return None;
    }
    let answer = write_whole(src, sizes, form.deleted, form.updated, out);
    let delete_updates = num_delete_updates(src, sizes, form.deleted, form.updated);
    Some(Ordered {
        answer,
        delete_updates,
    })
}
