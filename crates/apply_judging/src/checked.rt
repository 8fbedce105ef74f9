// Judges a delta against its base: the refusals in the order of the updates, and the sizes of the result.
ghost use Rattle.std.specs.Prelude.{◌≡◌, true, [], ◌+◌, ◌<◌, ◌≤◌, ◌^◌, length};
ghost use Rattle.definitions.specs.Ints.{bits};
ghost use Rattle.definitions.specs.Tables.{items, body, find, is_some};
ghost use Rattle.definitions.specs.Tables as Tables;
ghost use Rattle.definitions.specs.Deltas.{rank, update_key, update_at, updates, delta_in};
ghost use Rattle.definitions.specs.DeltaMaking.{agree};
ghost use Rattle.definitions.specs.DeltaReading.{elem};
ghost use Rattle.definitions.specs.Applying.{kept};
ghost use Rattle.laws.specs.TableFind.{Place};
ghost use Rattle.laws.specs.DeltaShape.{Update};
ghost use Rattle.laws.specs.ApplyJudging.{kept_of, judge_length, judge_new, judge_update, judge_updates, judge_delta, has_unknown};
ghost use Rattle.table.specs.Held.{Held};
ghost use Rattle.delta_form.specs.Held.{HeldDelta};
ghost use Rattle.delta_form.specs.Reached.{Reached};
ghost use Rattle.apply_judging.specs.Judging.{DeletedKeys, deleted_of, judged_of, Within};

use delta_form::checked::{deleted_from, has_deleted, next_update, update_key, update_size};
use format::Error;
use table::checked::{data_at, has_key, key_at, nat_at, next_place};

// How many items and ints the result of a delta that is not refused has.
#[derive(Clone, Copy)]
pub struct Fine {
    pub items: usize,
    pub ints: usize,
}

// How many items, and how many ints their keys and data take.
#[derive(Clone, Copy)]
pub struct Sizes {
    pub items: usize,
    pub ints: usize,
}

// The result of judging a delta: its judgement, and whether the base lacks a deleted key.
#[derive(Clone, Copy)]
pub struct Judgement {
    pub judged: Result<Fine, Error>,
    pub unknown_delete: bool,
}

// Whether there is an item i of n and it has the key.
fn is_key_of(area: &[i32], n: usize, i: usize, key: i32) -> bool
    requires { Held area.now n }
    ensures { result ≡ true → Place area.now (bits key) i }
{
    i < n && key_at(area, n, i) == key
}

// The place of a key among the n items, searched from a hint on, or else from the start.
fn place_from(area: &[i32], n: usize, hint: usize, key: i32) -> usize
    requires { Held area.now n × (hint ≤ n) }
    ensures { Place area.now (bits key) result }
{
    if 0 < hint && ints::unsigned_less(key_at(area, n, hint - 1), key) {
        return next_place(area, n, hint, key);
    }
    next_place(area, n, 0, key)
}

// The place of a key among the n items, if the previous key was at the place before: most often the next one.
fn place_near(area: &[i32], n: usize, before: usize, key: i32) -> usize
    requires { Held area.now n × (before ≤ n) }
    ensures { Place area.now (bits key) result }
{
    let next = before + 1;
    if is_key_of(area, n, next, key) {
        return next;
    }
    place_from(area, n, before, key)
}

// The place of the first deleted key not below key in signed order, searched from a hint on, or else from the start.
pub fn deleted_near(delta: &[i32], deleted: usize, hint: usize, key: i32) -> usize
    requires { DeletedKeys delta.now deleted × (hint ≤ deleted) }
    ensures { Reached delta.now deleted result (rank (bits key)) }
{
    if 0 < hint && ints::signed_less(delta[2 + hint], key) {
        return deleted_from(delta, deleted, hint, key);
    }
    deleted_from(delta, deleted, 0, key)
}

// Whether a key is deleted, given the place of the first deleted key not below it.
pub fn is_deleted(delta: &[i32], deleted: usize, place: usize, key: i32) -> bool
    requires { DeletedKeys delta.now deleted × Reached delta.now deleted place (rank (bits key)) }
    ensures { result ≡ elem (bits key) (deleted_of delta.now deleted) }
{
    has_deleted(delta, deleted, place, key)
}

// Whether the update at a place is as long as the base's data, if there is any; b is the place of its key in the base.
fn is_as_long(base: &[i32], nb: usize, b: usize, delta: &[i32], p: usize) -> bool
    requires { Held base.now nb × Update [] delta.now p × Place base.now (update_key delta.now p) b }
    ensures { result ≡ agree (find (update_key delta.now p) (items base.now)) (update_at [] delta.now p).values }
{
    !has_key(base, nb, b, update_key(delta, p))
        || data_at(base, nb, b).len() == update_size(delta, p)
}

// Whether the base keeps the key of the update at a place, given the key's places.
fn is_kept(
    base: &[i32],
    nb: usize,
    b: usize,
    delta: &[i32],
    deleted: usize,
    g: usize,
    p: usize,
) -> bool
    requires { Held base.now nb × DeletedKeys delta.now deleted × Update [] delta.now p × Place base.now (update_key delta.now p) b
        × Reached delta.now deleted g (rank (update_key delta.now p)) }
    ensures { result ≡ is_some (kept_of (deleted_of delta.now deleted) (items base.now) (update_key delta.now p)) }
{
    let key = update_key(delta, p);
    !is_deleted(delta, deleted, g, key) && has_key(base, nb, b, key)
}

// So many items and ints, if the lengths agree; else the refusal.
fn judge_length(same: bool, items: usize, ints: usize) -> Result<Fine, Error>
    requires { (items ≤ 1024) × (ints ≤ 16384) }
    ensures { (judged_of result ≡ judge_length same items ints) × Within result }
{
    if same {
        return Ok(Fine { items, ints });
    }
    Err(Error::DeltaDifferingSizes)
}

// One more item, with so many ints of data.
fn judge_new(same: bool, size: usize, items: usize, ints: usize) -> Result<Fine, Error>
    requires { (size < 2 ^ 32) × (items ≤ 1024) × (ints ≤ 16384) }
    ensures { (judged_of result ≡ judge_new same size items ints) × Within result }
{
    if 1023 < items {
        return Err(Error::TooManyItems);
    }
    let more = ints + (2 + size);
    if 16384 < more {
        return Err(Error::TooLongSnap);
    }
    judge_length(same, items + 1, more)
}

// Judges the update at a place, for a table of so many items and ints, given its key's places in the base and among the deleted keys.
fn judge_update(
    base: &[i32],
    nb: usize,
    b: usize,
    delta: &[i32],
    deleted: usize,
    g: usize,
    p: usize,
    items: usize,
    ints: usize,
) -> Result<Fine, Error>
    requires { Held base.now nb × DeletedKeys delta.now deleted × Update [] delta.now p × Place base.now (update_key delta.now p) b
        × Reached delta.now deleted g (rank (update_key delta.now p)) × (items ≤ 1024) × (ints ≤ 16384) }
    ensures { (judged_of result ≡ judge_update (deleted_of delta.now deleted) (Tables.items base.now) (update_at [] delta.now p) items ints) × Within result }
{
    let same = is_as_long(base, nb, b, delta, p);
    if is_kept(base, nb, b, delta, deleted, g, p) {
        return judge_length(same, items, ints);
    }
    judge_new(same, update_size(delta, p), items, ints)
}

// Judges all updates, for a table of so many items and ints, in one walk along them, the base and the deleted keys.
fn judge_updates(
    base: &[i32],
    nb: usize,
    delta: &[i32],
    deleted: usize,
    updated: usize,
    items: usize,
    ints: usize,
) -> Result<Fine, Error>
    requires { Held base.now nb × HeldDelta [] delta.now deleted updated × (items ≤ 1024) × (ints ≤ 16384) }
    ensures { (judged_of result ≡ judge_updates (deleted_of delta.now deleted) (Tables.items base.now) (updates [] delta.now (3 + deleted) updated) items ints) × Within result }
{
    let mut so_far = Fine { items, ints };
    let mut p = 3 + deleted;
    let mut b = 0;
    let mut g = 0;
    for _ in 0..updated {
        let key = update_key(delta, p);
        b = place_near(base, nb, b, key);
        g = deleted_near(delta, deleted, g, key);
        so_far = judge_update(base, nb, b, delta, deleted, g, p, so_far.items, so_far.ints)?;
        p = next_update(delta, p);
    }
    Ok(so_far)
}

// How many items the base keeps, and how many ints their keys and data take, in one walk along the base.
fn count_kept(base: &[i32], nb: usize, delta: &[i32], deleted: usize) -> Sizes
    requires { Held base.now nb × DeletedKeys delta.now deleted }
    ensures { (result.items ≡ length (kept (deleted_of delta.now deleted) (Tables.items base.now)))
        × (result.ints ≡ length (body (kept (deleted_of delta.now deleted) (Tables.items base.now)))) }
{
    let mut g = 0;
    let mut n: usize = 0;
    let mut w: usize = 0;
    for i in 0..nb {
        let key = key_at(base, nb, i);
        g = deleted_near(delta, deleted, g, key);
        if !is_deleted(delta, deleted, g, key) {
            n += 1;
            w += 1 + data_at(base, nb, i).len();
        }
    }
    Sizes { items: n, ints: w }
}

// How many items the base keeps, and how many ints their keys and data take. If no key is deleted, it keeps all.
fn kept_sizes(base: &[i32], nb: usize, delta: &[i32], deleted: usize) -> Sizes
    requires { Held base.now nb × DeletedKeys delta.now deleted }
    ensures { (result.items ≡ length (kept (deleted_of delta.now deleted) (Tables.items base.now)))
        × (result.ints ≡ length (body (kept (deleted_of delta.now deleted) (Tables.items base.now)))) }
{
    if deleted == 0 {
        return Sizes {
            items: nb,
            ints: nat_at(base, 0) / 4,
        };
    }
    count_kept(base, nb, delta, deleted)
}

// Judges a delta of so many deleted keys and updates, and says whether the base lacks a deleted key.
pub fn judge(base: &[i32], nb: usize, delta: &[i32], deleted: usize, updated: usize) -> Judgement
    requires { Held base.now nb × HeldDelta [] delta.now deleted updated }
    ensures { (judged_of result.judged ≡ judge_delta (items base.now) (delta_in [] delta.now)) × Within result.judged
        × (result.unknown_delete ≡ has_unknown (items base.now) (delta_in [] delta.now)) }
{
    let kept = kept_sizes(base, nb, delta, deleted);
    let unknown_delete = kept.items + deleted != nb;
    let judged = judge_updates(
        base,
        nb,
        delta,
        deleted,
        updated,
        kept.items,
        2 + kept.items + kept.ints,
    );
    Judgement {
        judged,
        unknown_delete,
    }
}
