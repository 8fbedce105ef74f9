// The steps of a call on a store: checking its form, dropping tables, finding the base, and adding a table.
ghost use Rattle.std.specs.Prelude.{◌≡◌, true, false, not, ◌&&◌, List, [], ◌∷◌, ℕ, ◌+◌, ◌<◌, ◌≤◌, ℤ, negsuc, length, take, Ok, Err, Some};
ghost use Rattle.std.proofs.Math.Option.{Option, some, none};
ghost use Rattle.definitions.specs.Outcome.{ok};
ghost use Rattle.definitions.specs.Deltas.{delta_in};
ghost use Rattle.definitions.specs.Ints.{signed_less};
ghost use Rattle.definitions.specs.Tables.{written, count, table_of};
ghost use Rattle.definitions.specs.Tables as Tables;
ghost use Rattle.definitions.specs.Receiver as Receiver;
ghost use Rattle.definitions.specs.Storage as Store;
ghost use Rattle.definitions.specs.DeltaCalls.{clash_of};
ghost use Rattle.definitions.specs.StorageCalls.{laid_out, add_delta_call, clash_with};
ghost use Rattle.format.specs.Numbers.{number};
ghost use Rattle.format.specs.Totals.{counts};
ghost use Rattle.table.specs.Held.{Held, form_of};
ghost use Rattle.laws.specs.StoreForm.{store_room, LaidIn};
ghost use Rattle.store_area.specs.Held.{snaps_in, HeldStore, Leaves};
ghost use Rattle.store_area.specs.Stores.{storage_form, holds_in, Holds};
ghost use Rattle.laws.specs.CreateLaws.{created_ints};
ghost use Rattle.laws.specs.AddingLaws.{adding_to};
ghost use Rattle.delta_making.specs.Answers.{made_ints, made_clash};
ghost use Rattle.delta_making.specs.declared.MakeError.TheVariants.{Refused};
ghost use Rattle.delta_form.specs.Held.{HeldDelta};
ghost use Rattle.typed_applying.specs.Answers.{typed_table, table_with, Stands};
ghost use Rattle.storage.specs.Taking.{sum_of, takings, refusing, warned, base_in, Applies, adding_on};
ghost use Rattle.storage.specs.States.{store_of, ack_of, delta_of};
ghost use Rattle.storage.specs.Answers.{settings, addings, added_in, added_clash};
ghost use Rattle.storage.specs.Steps.{making, added_of, store_after, tables_after};

use super::{Added, Adding, Setting, Storage, Taking};
use delta_making::MakeError;
use delta_making::checked::create;
use format::{Error, Warnings};
use store_area::checked::{Left, cut, drop_older, newest_tick, push, table_at, tick_at, used};
use ticks::Tick;
use typed_applying::checked::{Typed, apply_typed};

// The numbers of a delta: its sum, if one was sent, the tick of its base, and its own tick.
#[derive(Clone, Copy)]
pub struct Sent {
    pub crc: Option<i32>,
    pub delta_tick: Tick,
    pub tick: Tick,
}

// Whether a base tick is negative and not -1.
pub fn is_weird(tick: Tick) -> bool
    ensures { result ≡ Store.is_negative tick.0 && not (Receiver.same tick.0 (negsuc 0)) }
{
    tick.is_negative() && tick != Tick(-1)
}

// The warnings for a base tick.
pub fn weird(tick: Tick) -> Warnings
    ensures { Store.warn_weird tick.0 ≡ ok tt (counts result) }
{
    Warnings::taken(is_weird(tick), false, 0)
}

// Checks the form of a store and its area; returns how many ints the tables take.
pub fn form(s: Storage, area: &[i32]) -> Option<usize>
    ensures { result ≡ storage_form (Store.storage_of (store_of s) area.now) }
{
    if Storage::MAX_STORED_SNAPSHOT < s.count {
        return None;
    }
    store_area::checked::form(area, s.count)
}

// The store with so many tables and a base tick.
pub fn with_delta(s: Storage, count: usize, tick: Tick) -> Storage
    ensures { store_of result ≡ record { count = count; ack_tick = ack_of s; delta_tick = some tick.0 } }
{
    Storage {
        count,
        delta_tick: Some(tick),
        ..s
    }
}

// The store with so many tables, and no base tick.
pub fn without_delta(s: Storage, count: usize) -> Storage
    ensures { store_of result ≡ record { count = count; ack_tick = ack_of s; delta_tick = none } }
{
    Storage {
        count,
        delta_tick: None,
        ..s
    }
}

// The store with so many tables.
pub fn with_count(s: Storage, count: usize) -> Storage
    ensures { store_of result ≡ record { count = count; ack_tick = ack_of s; delta_tick = delta_of s } }
{
    Storage { count, ..s }
}

// Whether the oldest of so many tables has this tick.
pub fn is_oldest(area: &[i32], count: usize, tick: Tick) -> bool
    requires { HeldStore area.now count }
    ensures { result ≡ Store.is_held (Store.oldest_at tick.0 (snaps_in count area.now)) }
{
    count != 0 && tick_at(area, count, count - 1) == tick
}

// Drops the tables older than a tick that is not negative, and sets it as the base tick if its table is then the oldest.
pub fn set_base(s: Storage, tick: Tick, area: &mut [i32], ints: usize) -> Setting
    requires { Holds (store_of s) area.old ints × (Store.is_negative tick.0 ≡ false) }
    ensures { laid_out area.old (Store.set_delta_tick tick.0 (holds_in (store_of s) area.old)) ≡ settings result area.new }
{
    let left = drop_older(area, s.count, ints, tick);
    if is_oldest(area, left.count, tick) {
        return Setting {
            answer: Ok(()),
            warnings: Warnings::none(),
            storage: with_delta(s, left.count, tick),
        };
    }
    Setting {
        answer: Err(Error::UnknownSnap),
        warnings: Warnings::none(),
        storage: without_delta(s, left.count),
    }
}

// The refusal of a call that adds nothing.
pub fn not_added(s: Storage, error: Error) -> Adding
    ensures { (result.answer ≡ Err (Refused error)) × (store_of result.storage ≡ store_of s) }
{
    Adding {
        answer: Err(MakeError::Refused(error)),
        storage: s,
    }
}

// Writes the delta from a base to a target of nt items into the front of delta; if the store has no room for the target, only judges it.
pub fn make(
    base: &[i32],
    target: &[i32],
    nt: usize,
    room: bool,
    delta: &mut [i32],
) -> Result<usize, MakeError>
    requires { Held base.now (count base.now) × Held target.now nt }
    ensures target_value { making room delta.old (created_ints (Tables.items base.now) (Tables.items target.now)) ≡ record { answer = made_ints result; out = delta.new } }
    ensures result_value { made_clash result ≡ clash_of (made_ints result) (Tables.items base.now) (Tables.items target.now) }
{
    let nb = table::checked::nat_at(base, 1);
    if room {
        return create(base, nb, target, nt, delta);
    }
    match create(base, nb, target, nt, &mut delta[..0]) {
        Ok(_) => Err(MakeError::Refused(Error::CapacityError)),
        Err(MakeError::DifferingSizes(key)) => Err(MakeError::DifferingSizes(key)),
        Err(MakeError::Refused(_)) => Err(MakeError::Refused(Error::CapacityError)),
    }
}

// Makes the delta of a table of nt items from its base: the oldest table, including the new one, if a base tick is set, else the empty table.
pub fn make_delta(
    s: Storage,
    area: &[i32],
    table: &[i32],
    nt: usize,
    room: bool,
    delta: &mut [i32],
) -> Result<usize, MakeError>
    requires { HeldStore area.now s.count × Held table.now nt }
    ensures table_value { (tick : ℤ) → making room delta.old (created_ints (Store.chosen_base (delta_of s) (record { tick = tick; snap = Tables.items table.now }) (snaps_in s.count area.now)).snap (Tables.items table.now)) ≡ record { answer = made_ints result; out = delta.new } }
    ensures result_value { (tick : ℤ) → made_clash result ≡ clash_of (made_ints result)
        (Store.chosen_base (delta_of s) (record { tick = tick; snap = Tables.items table.now }) (snaps_in s.count area.now)).snap
        (Tables.items table.now) }
{
    let Some(_) = s.delta_tick else {
        let empty = [0i32; 2];
        return make(&empty, table, nt, room, delta);
    };
    if s.count == 0 {
        return make(table, table, nt, room, delta);
    }
    let base = table_at(area, s.count, s.count - 1);
    make(base, table, nt, room, delta)
}

// The tick of that base for a table with this tick; -1 for the empty table.
pub fn base_tick(s: Storage, area: &[i32], tick: Tick) -> Tick
    requires { HeldStore area.now s.count }
    ensures { (t : Tables.Table) → result.0 ≡ (Store.chosen_base (delta_of s) (record { tick = tick.0; snap = t }) (snaps_in s.count area.now)).tick }
{
    let Some(_) = s.delta_tick else {
        return Tick(-1);
    };
    if s.count == 0 {
        return tick;
    }
    tick_at(area, s.count, s.count - 1)
}

// The answer for an added table: its base and its delta's length, the key that clashes, or why it is refused.
pub fn answer(base: Tick, res: Result<usize, MakeError>) -> Result<Added, MakeError>
    ensures { result ≡ added_of base res }
{
    let ints = res?;
    Ok(Added { base, ints })
}

// Adds a table.
pub fn store(
    s: Storage,
    answer: Result<Added, MakeError>,
    tick: Tick,
    table: &[i32],
    area: &mut [i32],
    ints: usize,
) -> Adding
    requires { Holds (store_of s) area.old ints × (s.count < 100) × (length table.now ≤ 16384) × (ints + (length table.now + 2) ≤ length area.old) }
    ensures { (result.answer ≡ answer) × (store_of result.storage ≡ record { count = s.count + 1; ack_tick = ack_of s; delta_tick = delta_of s }) × ((t : Tables.Table) → table.now ≡ written t → LaidIn (length area.old) (record { tick = tick.0; snap = t } ∷ snaps_in s.count area.old) area.new) }
{
    push(area, s.count, ints, tick, table);
    Adding {
        answer,
        storage: with_count(s, s.count + 1),
    }
}

// Adds a table if its delta was made; else adds nothing.
pub fn finish(
    s: Storage,
    base: Tick,
    res: Result<usize, MakeError>,
    tick: Tick,
    table: &[i32],
    area: &mut [i32],
    ints: usize,
) -> Adding
    requires { Holds (store_of s) area.old ints × (s.count < 100) × (length table.now ≤ 16384) × ((n : ℕ) → res ≡ Ok n → ints + (length table.now + 2) ≤ length area.old) }
    ensures { (result.answer ≡ added_of base res) × (store_of result.storage ≡ store_after (store_of s) res) × ((t : Tables.Table) → table.now ≡ written t → LaidIn (length area.old) (tables_after (snaps_in s.count area.old) (record { tick = tick.0; snap = t }) res) area.new) }
{
    let answer = answer(base, res);
    match res {
        Ok(_) => store(s, answer, tick, table, area, ints),
        Err(_) => Adding { answer, storage: s },
    }
}

// Adds a table of so many items and ints to a store that is not full.
pub fn add(
    s: Storage,
    tick: Tick,
    table: &[i32],
    items: usize,
    size: usize,
    delta: &mut [i32],
    area: &mut [i32],
    ints: usize,
) -> Adding
    requires { Holds (store_of s) area.old ints × (s.count < 100) × (Some (record { items = items; ints = size }) ≡ form_of (table_of table.now)) }
    ensures delta_value { adding_to (holds_in (store_of s) area.old) (record { tick = tick.0; snap = Tables.items table.now }) area.old delta.old ≡ addings result area.new delta.new }
    ensures answer_value { added_clash result.answer ≡ clash_with (added_in result.answer) (record { tick = tick.0; snap = Tables.items table.now })
        (some (holds_in (store_of s) area.old)) }
{
    let room = ints + (size + 2) <= area.len();
    let result = make_delta(s, area, table, items, room, delta);
    let base = base_tick(s, area, tick);
    finish(s, base, result, tick, &table[..size], area, ints)
}

// The refusal of a delta before anything is counted.
pub fn not_taken(s: Storage, error: Error) -> Taking
    ensures { (area : List ℤ) → refusing (number error) (store_of s) area ≡ takings result area }
{
    Taking {
        answer: Err(error),
        warnings: Warnings::none(),
        storage: s,
    }
}

// Whether a tick is above that of the newest of so many tables, or above -1 if there are none.
pub fn is_newer(area: &[i32], count: usize, tick: Tick) -> bool
    requires { HeldStore area.now count }
    ensures { result ≡ signed_less (Store.newest_tick (snaps_in count area.now)) tick.0 }
{
    newest_tick(area, count) < tick
}

// Drops the tables older than a base; a negative tick names the empty table and drops nothing.
pub fn drop_for(area: &mut [i32], count: usize, ints: usize, tick: Tick) -> Left
    requires { HeldStore area.old count × (ints ≡ store_room (snaps_in count area.old)) }
    ensures { Leaves area.old (Store.drop_for tick.0 (snaps_in count area.old)) result.count result.ints area.new }
{
    if tick.is_negative() {
        return Left { count, ints };
    }
    drop_older(area, count, ints, tick)
}

// Whether the base of a tick is held: the oldest of so many tables, or the empty one.
pub fn has_base(area: &[i32], count: usize, tick: Tick) -> bool
    requires { HeldStore area.now count }
    ensures { result ≡ Store.is_held (base_in tick.0 (snaps_in count area.now)) }
{
    tick.is_negative() || is_oldest(area, count, tick)
}

// Applies a delta to that base, into the front of scratch.
pub fn apply_on(
    area: &[i32],
    count: usize,
    tick: Tick,
    delta: &[i32],
    deleted: usize,
    updated: usize,
    scratch: &mut [i32],
) -> Typed
    requires { HeldStore area.now count × (Store.is_held (base_in tick.0 (snaps_in count area.now)) ≡ true) × HeldDelta [] delta.now deleted updated × (16384 ≤ length scratch.old) }
    ensures { Applies (base_in tick.0 (snaps_in count area.now)) (delta_in [] delta.now) scratch.new result }
{
    if tick.is_negative() {
        let empty = [0i32; 2];
        return apply_typed(&empty, 0, delta, deleted, updated, scratch);
    }
    let base = table_at(area, count, count - 1);
    let nb = table::checked::nat_at(base, 1);
    apply_typed(base, nb, delta, deleted, updated, scratch)
}

// The warnings of a delta that was applied to the base of a tick.
pub fn taken_warnings(tick: Tick, made: Typed) -> Warnings
    ensures { (t : Tables.Table) → warned tick.0 (typed_table t made) ≡ table_with t made.table (counts result) }
{
    Warnings::taken(is_weird(tick), made.unknown_delete, made.excess)
}

// Whether a table of n items has the sum that was sent, if one was.
pub fn sum_fits(m: Sent, table: &[i32], n: usize) -> bool
    requires { Held table.now n }
    ensures { result ≡ Store.sum_fits (sum_of m) (Tables.items table.now) }
{
    let Some(crc) = m.crc else {
        return true;
    };
    crc == table::checked::crc(table, n)
}

// How many of so many tables stay when one more is added.
pub fn stay(count: usize) -> usize
    requires { count ≤ 100 }
    ensures { (result ≤ count) × (result ≤ 99) × ((l : List Store.StoredSnap) → length l ≡ count → take result l ≡ take 99 l) }
{
    count.min(Storage::MAX_STORED_SNAPSHOT - 1)
}

// The store with so many tables, and a tick acknowledged.
pub fn with_ack(s: Storage, count: usize, tick: Tick) -> Storage
    ensures { store_of result ≡ record { count = count; ack_tick = some tick.0; delta_tick = delta_of s } }
{
    Storage {
        count,
        ack_tick: Some(tick),
        ..s
    }
}

// The store with so many tables, and no tick acknowledged.
pub fn without_ack(s: Storage, count: usize) -> Storage
    ensures { store_of result ≡ record { count = count; ack_tick = none; delta_tick = delta_of s } }
{
    Storage {
        count,
        ack_tick: None,
        ..s
    }
}

// Adds and acknowledges a table whose sum is right, if the area has room; the 101st pushes out the oldest.
pub fn hold(
    s: Storage,
    tick: Tick,
    table: &[i32],
    area: &mut [i32],
    ints: usize,
    warnings: Warnings,
) -> Taking
    requires { Holds (store_of s) area.old ints × (length table.now ≤ 16384) }
    ensures { (t : Tables.Table) (sum : Option ℤ) → table.now ≡ written t → Store.sum_fits sum t ≡ true → laid_out area.old (Store.add_table (length area.old) sum tick.0 (holds_in (store_of s) area.old) (ok t (counts warnings))) ≡ takings result area.new }
{
    let kept = stay(s.count);
    let used = used(area, s.count, kept);
    if area.len() < used + (table.len() + 2) {
        return Taking {
            answer: Err(Error::CapacityError),
            warnings,
            storage: s,
        };
    }
    cut(area, s.count, ints, kept);
    push(area, kept, used, tick, table);
    Taking {
        answer: Ok(tick),
        warnings,
        storage: with_ack(s, kept + 1, tick),
    }
}

// Adds the table that a delta made at the front of scratch, if nothing is wrong with it.
pub fn hold_made(
    s: Storage,
    m: Sent,
    made: Typed,
    area: &mut [i32],
    ints: usize,
    scratch: &[i32],
) -> Taking
    requires { Holds (store_of s) area.old ints × Stands scratch.now made.table }
    ensures { laid_out area.old (Store.add_table (length area.old) (sum_of m) m.tick.0 (holds_in (store_of s) area.old) (warned m.delta_tick.0 (typed_table (Tables.items scratch.now) made))) ≡ takings result area.new }
{
    let warnings = taken_warnings(m.delta_tick, made);
    match made.table {
        Err(error) => Taking {
            answer: Err(error),
            warnings,
            storage: s,
        },
        Ok(form) => {
            if sum_fits(m, scratch, form.items) {
                return hold(s, m.tick, &scratch[..form.ints], area, ints, warnings);
            }
            Taking {
                answer: Err(Error::InvalidCrc),
                warnings,
                storage: without_ack(s, s.count),
            }
        }
    }
}

// Takes a delta for a new tick: drops older tables; the base must then be held.
pub fn take_on(
    s: Storage,
    m: Sent,
    delta: &[i32],
    deleted: usize,
    updated: usize,
    area: &mut [i32],
    ints: usize,
    scratch: &mut [i32],
) -> Taking
    requires { Holds (store_of s) area.old ints × HeldDelta [] delta.now deleted updated × (16384 ≤ length scratch.old) }
    ensures { laid_out area.old (adding_on (length area.old) (sum_of m) m.delta_tick.0 m.tick.0 (delta_in [] delta.now) (holds_in (store_of s) area.old)) ≡ takings result area.new }
{
    let base = m.delta_tick;
    let left = drop_for(area, s.count, ints, base);
    if !has_base(area, left.count, base) {
        return Taking {
            answer: Err(Error::UnknownSnap),
            warnings: Warnings::none(),
            storage: without_ack(s, left.count),
        };
    }
    let made = apply_on(area, left.count, base, delta, deleted, updated, scratch);
    hold_made(with_count(s, left.count), m, made, area, left.ints, scratch)
}

// Takes a delta for a tick, after store and delta were judged. Leaves scratch in any state.
pub fn take_judged(
    s: Storage,
    m: Sent,
    delta: &[i32],
    deleted: usize,
    updated: usize,
    area: &mut [i32],
    ints: usize,
    scratch: &mut [i32],
) -> Taking
    requires { Holds (store_of s) area.old ints × HeldDelta [] delta.now deleted updated × (16384 ≤ length scratch.old) }
    ensures { laid_out area.old (Store.add_delta (length area.old) (sum_of m) m.delta_tick.0 m.tick.0 (delta_in [] delta.now) (holds_in (store_of s) area.old)) ≡ takings result area.new }
{
    if !is_newer(area, s.count, m.tick) {
        return not_taken(s, Error::StoreOldDelta);
    }
    take_on(s, m, delta, deleted, updated, area, ints, scratch)
}

// Takes a delta for a tick. Leaves scratch in any state.
pub fn take(s: Storage, m: Sent, delta: &[i32], area: &mut [i32], scratch: &mut [i32]) -> Taking
    ensures { add_delta_call (store_of s) area.old (sum_of m) m.delta_tick.0 m.tick.0 delta.now (length scratch.old) ≡ takings result area.new }
{
    let Some(ints) = form(s, area) else {
        return not_taken(s, Error::NotInForm);
    };
    let Some(form) = delta_form::checked::form(delta, &delta[..0]) else {
        return not_taken(s, Error::NotInForm);
    };
    if scratch.len() < 16384 {
        return not_taken(s, Error::ScratchTooShort);
    }
    take_judged(s, m, delta, form.deleted, form.updated, area, ints, scratch)
}
