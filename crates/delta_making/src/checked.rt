// The delta between the tables of two areas.
ghost use Rattle.std.specs.Prelude.{◌≡◌, true, ◌+◌, ◌<◌, ◌≤◌, length};
ghost use Rattle.definitions.specs.Areas.{lay_at};
ghost use Rattle.definitions.specs.Stored.{stored};
ghost use Rattle.definitions.specs.Tables.{items, item_at, key_at, values_at, find};
ghost use Rattle.definitions.specs.Deltas.{written_delta};
ghost use Rattle.definitions.specs.DeltaCalls.{clash_of};
ghost use Rattle.definitions.specs.DeltaMaking.{agree, alike, first_clash, lacking, delta_from};
ghost use Rattle.laws.specs.TableFind.{Place};
ghost use Rattle.table.specs.Held.{Held};
ghost use Rattle.laws.specs.CreateLaws.{created_ints};
ghost use Rattle.delta_making.specs.Answers.{made_ints, made_clash};
ghost use Rattle.delta_making.specs.Parts.{part, deleted_ints, change_ints, changes_ints, key_below};

use super::MakeError;
use format::Error;
use table::checked::{data_at, has_key, key_at, next_place, start_at, walk_start};

// Whether item i of the target is as long as the base's item with its key, if there is one; p is the key's place in the base.
pub fn is_as_long(base: &[i32], nb: usize, p: usize, target: &[i32], nt: usize, i: usize) -> bool
    requires { Held base.now nb × Held target.now nt × (i < nt) × Place base.now (key_at target.now i) p }
    ensures { result ≡ agree (find (key_at target.now i) (items base.now)) (values_at target.now i) }
{
    !has_key(base, nb, p, key_at(target, nt, i))
        || data_at(base, nb, p).len() == data_at(target, nt, i).len()
}

// The first item of the target that is not as long as the base's item with its key, or nt if there is none.
pub fn find_differing(base: &[i32], nb: usize, target: &[i32], nt: usize) -> usize
    requires { Held base.now nb × Held target.now nt }
    ensures { first_clash (items base.now) (items target.now) ≡ key_below target.now nt result }
{
    let mut p = 0;
    for i in 0..nt {
        p = next_place(base, nb, p, key_at(target, nt, i));
        if !is_as_long(base, nb, p, target, nt, i) {
            return i;
        }
    }
    nt
}

// How many of the base's items the target lacks.
pub fn count_deleted(base: &[i32], nb: usize, target: &[i32], nt: usize) -> usize
    requires { Held base.now nb × Held target.now nt }
    ensures { (result ≡ length (lacking (items target.now) (items base.now))) × (result ≤ nb) }
{
    let mut p = 0;
    let mut deleted: usize = 0;
    for i in 0..nb {
        let key = key_at(base, nb, i);
        p = next_place(target, nt, p, key);
        deleted += ints::one_if(!has_key(target, nt, p, key));
    }
    deleted
}

// Writes the keys of a range of the base's items that the target lacks into out, from a place on. Returns the place after them.
pub fn write_deleted(
    base: &[i32],
    nb: usize,
    from: usize,
    to: usize,
    target: &[i32],
    nt: usize,
    out: &mut [i32],
    at: usize,
) -> usize
    requires { Held base.now nb × Held target.now nt × (from ≤ to) × (to ≤ nb)
        × (at + length (deleted_ints (items target.now) (part from to (items base.now))) ≤ length out.old) }
    ensures value { result ≡ at + length (deleted_ints (items target.now) (part from to (items base.now))) }
    ensures out_after { out.new ≡ lay_at at (deleted_ints (items target.now) (part from to (items base.now))) out.old }
{
    let mut p = 0;
    let mut w = at;
    for i in from..to {
        let key = key_at(base, nb, i);
        p = next_place(target, nt, p, key);
        if !has_key(target, nt, p, key) {
            out[w] = key;
            w += 1;
        }
    }
    w
}

// Writes the update of item i of the target, whose key has place p in the base, into out. Returns the place after it.
pub fn write_update(
    base: &[i32],
    nb: usize,
    p: usize,
    target: &[i32],
    nt: usize,
    i: usize,
    out: &mut [i32],
    at: usize,
) -> usize
    requires { Held base.now nb × Held target.now nt × (i < nt) × Place base.now (key_at target.now i) p
        × (agree (find (key_at target.now i) (items base.now)) (values_at target.now i) ≡ true)
        × (at + length (change_ints (items base.now) (item_at target.now i)) ≤ length out.old) }
    ensures value { result ≡ at + length (change_ints (items base.now) (item_at target.now i)) }
    ensures out_after { out.new ≡ lay_at at (change_ints (items base.now) (item_at target.now i)) out.old }
{
    let key = key_at(target, nt, i);
    let to = data_at(target, nt, i);
    let end = at + 3 + to.len();
    delta_form::checked::write_head(out, at, key, to.len());
    if has_key(base, nb, p, key) {
        let from = data_at(base, nb, p);
        ints::checked::sub_into(out, at + 3, to, from);
        return end;
    }
    ints::copy_into(out, at + 3, to);
    end
}

// Writes the updates of a range of the target's items into out from a place on. Returns the place after them.
pub fn write_updates(
    base: &[i32],
    nb: usize,
    target: &[i32],
    nt: usize,
    from: usize,
    to: usize,
    out: &mut [i32],
    at: usize,
) -> usize
    requires { Held base.now nb × Held target.now nt × (from ≤ to) × (to ≤ nt) × (alike (items base.now) (items target.now) ≡ true)
        × (at + length (changes_ints (items base.now) (part from to (items target.now))) ≤ length out.old) }
    ensures value { result ≡ at + length (changes_ints (items base.now) (part from to (items target.now))) }
    ensures out_after { out.new ≡ lay_at at (changes_ints (items base.now) (part from to (items target.now))) out.old }
{
    let mut p = 0;
    let mut w = at;
    for i in from..to {
        p = next_place(base, nb, p, key_at(target, nt, i));
        w = write_update(base, nb, p, target, nt, i, out, w);
    }
    w
}

// Writes the delta, with the given number of deleted keys, to the front of out. Each list starts with the negative keys, which come last in the tables.
pub fn write_delta(
    base: &[i32],
    nb: usize,
    target: &[i32],
    nt: usize,
    deleted: usize,
    out: &mut [i32],
)
    requires { Held base.now nb × Held target.now nt × (alike (items base.now) (items target.now) ≡ true)
        × (deleted ≡ length (lacking (items target.now) (items base.now))) × (deleted ≤ nb)
        × (length (written_delta (delta_from (items base.now) (items target.now))) ≤ length out.old) }
    ensures { out.new ≡ lay_at 0 (written_delta (delta_from (items base.now) (items target.now))) out.old }
{
    let b = walk_start(base, nb);
    let t = walk_start(target, nt);
    delta_form::checked::put_counts(out, 0, deleted, nt, 0);
    let w1 = write_deleted(base, nb, b, nb, target, nt, out, 3);
    let w2 = write_deleted(base, nb, 0, b, target, nt, out, w1);
    let w3 = write_updates(base, nb, target, nt, t, nt, out, w2);
    write_updates(base, nb, target, nt, 0, t, out, w3);
}

// Writes the delta from a base of nb items to a target of nt items to the front of out, or tells the first key that clashes. A refused call
// leaves out as it was.
pub fn create(
    base: &[i32],
    nb: usize,
    target: &[i32],
    nt: usize,
    out: &mut [i32],
) -> Result<usize, MakeError>
    requires { Held base.now nb × Held target.now nt }
    ensures target_value { stored out.old (created_ints (items base.now) (items target.now)) ≡ record { answer = made_ints result; out = out.new } }
    ensures result_value { made_clash result ≡ clash_of (made_ints result) (items base.now) (items target.now) }
{
    let i = find_differing(base, nb, target, nt);
    if i < nt {
        return Err(MakeError::DifferingSizes(key_at(target, nt, i)));
    }
    let deleted = count_deleted(base, nb, target, nt);
    let end = start_at(target, nt, nt);
    // Three counts, the deleted keys, and for each item three ints and its data.
    let ints = 3 + deleted + (nt + (end - 2));
    if out.len() < ints {
        return Err(MakeError::Refused(Error::CapacityError));
    }
    write_delta(base, nb, target, nt, deleted, out);
    Ok(ints)
}
