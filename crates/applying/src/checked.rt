// Applies a delta to its base, both in areas in form: judges first, then merges in two passes, for keys below 2^31 and for the others.
ghost use Rattle.std.specs.Prelude.{◌≡◌, true, cond, Err, [], ◌∷◌, ◌+◌, ◌-◌, ◌*◌, ◌<◌, ◌≤◌, ◌^◌, pos, length, set};
ghost use Rattle.std.proofs.Math.Option.{some, none};
ghost use Rattle.definitions.specs.Ints.{bits};
ghost use Rattle.definitions.specs.Areas.{lay_at};
ghost use Rattle.definitions.specs.Tables.{key_at, body, written, items};
ghost use Rattle.definitions.specs.TableCalls.{stored_table};
ghost use Rattle.definitions.specs.Deltas.{update_key, update_at, updates, delta_in};
ghost use Rattle.definitions.specs.DeltaMaking.{agree, sums};
ghost use Rattle.definitions.specs.Applying.{apply_delta};
ghost use Rattle.laws.specs.DeltaShape.{Update, Updates};
ghost use Rattle.laws.specs.ApplyFound.{item};
ghost use Rattle.laws.specs.ApplyJudging.{good, judge_delta, applied_table};
ghost use Rattle.laws.specs.ApplyMerge.{Ahead, merged};
ghost use Rattle.laws.specs.ApplyHalves.{HighBefore, NextLow};
ghost use Rattle.laws.specs.ApplyWriting.{Room, wrote};
ghost use Rattle.table.specs.Held.{Held};
ghost use Rattle.delta_form.specs.Held.{HeldDelta};
ghost use Rattle.apply_judging.specs.Judging.{DeletedKeys};
ghost use Rattle.applying.specs.Answers.{applied_ints};
ghost use Rattle.applying.specs.Merging.{rest_of, Going, Comes, Turned};

use apply_judging::checked::{deleted_near, is_deleted, judge};
use delta_form::checked::{next_update, update_data, update_key};
use format::Error;
use table::checked::{data_at, key_at, put, walk_start};

// The result of applying: the answer, and whether the base lacks a deleted key.
#[derive(Clone, Copy)]
pub struct Applied {
    pub answer: Result<usize, Error>,
    pub unknown_delete: bool,
}

// The state of a merge: next item of the base, place of the next update, updates left, hint among the deleted keys, items written, place of the next item.
#[derive(Clone, Copy)]
pub struct Merge {
    pub item: usize,
    pub update: usize,
    pub left: usize,
    pub hint: usize,
    pub items: usize,
    pub at: usize,
}

// The next step of a merge.
#[derive(Clone, Copy)]
pub enum Next {
    Item,
    Both,
    Update,
}

// A place among the updates, and how many are left from there.
#[derive(Clone, Copy)]
pub struct Low {
    pub update: usize,
    pub left: usize,
}

// The differences of the update at a place.
fn differences(delta: &[i32], p: usize) -> &[i32]
    requires { Update [] delta.now p }
    ensures { result.now ≡ (update_at [] delta.now p).values }
{
    update_data(delta, &delta[..0], p)
}

// Writes the offset and the key of item m of n, whose key is at a place.
fn put_head(out: &mut [i32], n: usize, m: usize, at: usize, key: i32)
    requires { (2 + m < length out.old) × (2 + n ≤ at) × (at < length out.old) × (at ≤ 16384) }
    ensures { out.new ≡ set (set out.old (2 + m) (pos (4 * (at - (2 + n))))) at key }
{
    put(out, 2 + m, 4 * (at - (2 + n)));
    out[at] = key;
}

// Writes item m of n: its offset, and from a place on its key and its data.
fn put_item(out: &mut [i32], n: usize, m: usize, at: usize, key: i32, values: &[i32])
    requires { Room n (length out.old) m at (item (bits key) values.now ∷ []) }
    ensures { out.new ≡ wrote n out.old m at (item (bits key) values.now ∷ []) }
{
    put_head(out, n, m, at, key);
    let from = at + 1;
    let to = from + values.len();
    ints::copy_into(&mut out[from..to], 0, values);
}

// The same for an update: its data is the differences, added to the base's data if there is any.
fn put_sums(
    out: &mut [i32],
    n: usize,
    m: usize,
    at: usize,
    key: i32,
    has_old: bool,
    old: &[i32],
    more: &[i32],
)
    requires { (agree (cond has_old (some old.now) none) more.now ≡ true)
        × Room n (length out.old) m at (item (bits key) (sums (cond has_old (some old.now) none) more.now) ∷ []) }
    ensures { out.new
        ≡ wrote n out.old m at (item (bits key) (sums (cond has_old (some old.now) none) more.now) ∷ []) }
{
    put_head(out, n, m, at, key);
    let from = at + 1;
    let to = from + more.len();
    // The lengths agree and the part has the room, so this is not refused.
    let _ = format::apply_item_delta(has_old, old, more, &mut out[from..to]);
}

// Passes the next item of the base, which comes before all updates: copies it, unless its key is deleted.
fn pass_item(
    base: &[i32],
    nb: usize,
    to: usize,
    delta: &[i32],
    deleted: usize,
    n: usize,
    out: &mut [i32],
    s: Merge,
) -> Merge
    requires { Held base.now nb × DeletedKeys delta.now deleted × Going base.now nb to delta.now deleted n (length out.old) s
        × (s.item < to) × Ahead (key_at base.now s.item) (updates [] delta.now s.update s.left) }
    ensures { Turned base.now nb to delta.now deleted n out.old s out.new result }
{
    let key = key_at(base, nb, s.item);
    let hint = deleted_near(delta, deleted, s.hint, key);
    if is_deleted(delta, deleted, hint, key) {
        return Merge {
            item: s.item + 1,
            hint,
            ..s
        };
    }
    let values = data_at(base, nb, s.item);
    put_item(out, n, s.items, s.at, key, values);
    Merge {
        item: s.item + 1,
        hint,
        items: s.items + 1,
        at: s.at + 1 + values.len(),
        ..s
    }
}

// Writes the next item of the base with the differences of its update added.
fn add_update(
    base: &[i32],
    nb: usize,
    to: usize,
    delta: &[i32],
    deleted: usize,
    n: usize,
    out: &mut [i32],
    s: Merge,
) -> Merge
    requires { Held base.now nb × Going base.now nb to delta.now deleted n (length out.old) s
        × (s.item < to) × (0 < s.left) × (key_at base.now s.item ≡ update_key delta.now s.update) }
    ensures { Turned base.now nb to delta.now deleted n out.old s out.new result }
{
    let key = update_key(delta, s.update);
    let old = data_at(base, nb, s.item);
    let more = differences(delta, s.update);
    put_sums(out, n, s.items, s.at, key, true, old, more);
    Merge {
        item: s.item + 1,
        update: next_update(delta, s.update),
        left: s.left - 1,
        items: s.items + 1,
        at: s.at + 1 + old.len(),
        ..s
    }
}

// Writes the next update, of a key that the base lacks.
fn put_update(
    base: &[i32],
    nb: usize,
    to: usize,
    delta: &[i32],
    deleted: usize,
    n: usize,
    out: &mut [i32],
    s: Merge,
) -> Merge
    requires { Held base.now nb × Going base.now nb to delta.now deleted n (length out.old) s
        × (0 < s.left) × (s.item < to → update_key delta.now s.update < key_at base.now s.item) }
    ensures { Turned base.now nb to delta.now deleted n out.old s out.new result }
{
    let key = update_key(delta, s.update);
    let more = differences(delta, s.update);
    put_sums(out, n, s.items, s.at, key, false, &more[..0], more);
    Merge {
        update: next_update(delta, s.update),
        left: s.left - 1,
        items: s.items + 1,
        at: s.at + 1 + more.len(),
        ..s
    }
}

// The next step of a merge: an item of the base alone, an item with its update, or an update of a key that the base lacks.
fn next_of(base: &[i32], nb: usize, to: usize, delta: &[i32], s: Merge) -> Next
    requires { Held base.now nb × (to ≤ nb) × Updates [] delta.now s.update s.left × (0 < (to - s.item) + s.left) }
    ensures { Comes base.now to delta.now s result }
{
    if s.left == 0 {
        return Next::Item;
    }
    if to <= s.item {
        return Next::Update;
    }
    let own = key_at(base, nb, s.item);
    let key = update_key(delta, s.update);
    if ints::unsigned_less(own, key) {
        return Next::Item;
    }
    if own == key {
        return Next::Both;
    }
    Next::Update
}

// Merges the next item of the base, or the next update, or both. Each case is called once, so that the compiler keeps the state of the merge in registers.
fn merge_one(
    base: &[i32],
    nb: usize,
    to: usize,
    delta: &[i32],
    deleted: usize,
    n: usize,
    out: &mut [i32],
    s: Merge,
) -> Merge
    requires { Held base.now nb × DeletedKeys delta.now deleted × Going base.now nb to delta.now deleted n (length out.old) s
        × (0 < (to - s.item) + s.left) }
    ensures { Turned base.now nb to delta.now deleted n out.old s out.new result }
{
    match next_of(base, nb, to, delta, s) {
        Next::Item => pass_item(base, nb, to, delta, deleted, n, out, s),
        Next::Both => add_update(base, nb, to, delta, deleted, n, out, s),
        Next::Update => put_update(base, nb, to, delta, deleted, n, out, s),
    }
}

// Merges the base's items from one to another with the updates from a place on, both in unsigned order.
fn merge_part(
    base: &[i32],
    nb: usize,
    to: usize,
    delta: &[i32],
    deleted: usize,
    n: usize,
    out: &mut [i32],
    start: Merge,
) -> Merge
    requires { Held base.now nb × DeletedKeys delta.now deleted × Going base.now nb to delta.now deleted n (length out.old) start }
    ensures { (result.items ≡ start.items + length (rest_of base.now to delta.now deleted start))
        × (result.at ≡ start.at + length (body (rest_of base.now to delta.now deleted start)))
        × (out.new ≡ wrote n out.old start.items start.at (rest_of base.now to delta.now deleted start)) }
{
    let mut s = start;
    // A turn takes an item, an update or both, so no range has the turns.
    while s.item < to || 0 < s.left {
        s = merge_one(base, nb, to, delta, deleted, n, out, s);
    }
    s
}

// Where the updates with keys that are not negative begin, and how many there are.
fn low_updates(delta: &[i32], from: usize, updated: usize) -> Low
    requires { Updates [] delta.now from updated }
    ensures { HighBefore delta.now from updated result.update result.left × NextLow (updates [] delta.now result.update result.left) }
{
    let mut p = from;
    for i in 0..updated {
        if !ints::signed_less(update_key(delta, p), 0) {
            return Low {
                update: p,
                left: updated - i,
            };
        }
        p = next_update(delta, p);
    }
    Low { update: p, left: 0 }
}

// Writes the table that the delta makes, of so many items and ints, into the front of out.
fn write_table(
    base: &[i32],
    nb: usize,
    delta: &[i32],
    deleted: usize,
    updated: usize,
    n: usize,
    ints: usize,
    out: &mut [i32],
)
    requires { Held base.now nb × HeldDelta [] delta.now deleted updated × (judge_delta (items base.now) (delta_in [] delta.now) ≡ good n ints)
        × (n ≤ 1024) × (ints ≤ 16384) × (ints ≤ length out.old) }
    ensures { out.new ≡ lay_at 0 (written (applied_table (items base.now) (delta_in [] delta.now))) out.old }
{
    let half = walk_start(base, nb);
    let low = low_updates(delta, 3 + deleted, updated);
    put(out, 0, 4 * (ints - (2 + n)));
    put(out, 1, n);
    let start = Merge {
        item: 0,
        update: low.update,
        left: low.left,
        hint: 0,
        items: 0,
        at: 2 + n,
    };
    let mid = merge_part(base, nb, half, delta, deleted, n, out, start);
    let rest = Merge {
        item: half,
        update: 3 + deleted,
        left: updated - low.left,
        hint: 0,
        items: mid.items,
        at: mid.at,
    };
    merge_part(base, nb, nb, delta, deleted, n, out, rest);
}

// The refusal: nothing is made.
fn refused(error: Error, unknown_delete: bool) -> Applied
    ensures { result ≡ record { answer = Err error; unknown_delete = unknown_delete } }
{
    Applied {
        answer: Err(error),
        unknown_delete,
    }
}

// Applies a delta of so many deleted keys and updates to a base of nb items, into the front of out; a refused call leaves out unchanged.
pub fn apply(
    base: &[i32],
    nb: usize,
    delta: &[i32],
    deleted: usize,
    updated: usize,
    out: &mut [i32],
) -> Applied
    requires { Held base.now nb × HeldDelta [] delta.now deleted updated }
    ensures { stored_table out.old (apply_delta (items base.now) (delta_in [] delta.now)) ≡ record { answer = applied_ints result; out = out.new } }
{
    let all = judge(base, nb, delta, deleted, updated);
    let unknown_delete = all.unknown_delete;
    match all.judged {
        Err(e) => refused(e, unknown_delete),
        Ok(fine) => {
            if out.len() < fine.ints {
                return refused(Error::CapacityError, unknown_delete);
            }
            write_table(
                base, nb, delta, deleted, updated, fine.items, fine.ints, out,
            );
            Applied {
                answer: Ok(fine.ints),
                unknown_delete,
            }
        }
    }
}
