// The calls on a store as C sees them.
#![tactic(auto)]

ghost use Rattle.std.specs.Prelude.{◌≡◌, length};
ghost use Rattle.definitions.specs.Areas.{cleared};
ghost use Rattle.definitions.specs.Storage.{beside, fresh_storage};
ghost use Rattle.definitions.specs.StorageCalls.{add_delta_call, reset_call, set_delta_tick_call, add_snap_call, add_snap_clash, tick_call, table_call};
ghost use Rattle.boundary.specs.Boundary.{status, output, part_into, key_or, ended, given};
ghost use Rattle.boundary_states.specs.Rows.{store_ticks, store_counts, held_store};
ghost use Rattle.storage.specs.Answers.{added_in, added_clash};
ghost use Rattle.capi_storage.specs.Told.{Told, ToldAdded};

use boundary::checked::{number, part_into};
use boundary_states::checked::{load_storage, save_storage, write_storage};
use delta_making::MakeError;
use format::{Error, WARNING_KINDS, row};
use storage::{Added, Storage};
use ticks::Tick;

// A store without tables.
#[unsafe(no_mangle)]
pub extern "C" fn cef_storage_new(ticks: &mut [i32; 2], counts: &mut [u32; 3])
    ensures ticks_after { ticks.new ≡ store_ticks (beside fresh_storage) }
    ensures counts_after { counts.new ≡ store_counts (beside fresh_storage) }
{
    write_storage(Storage::new(), ticks, counts);
}

// Empties the store and its area, whatever it held; the base tick stays.
#[unsafe(no_mangle)]
pub extern "C" fn cef_storage_reset(ticks: &mut [i32; 2], counts: &mut [u32; 3], area: &mut [i32])
    ensures ticks_after { ticks.new ≡ store_ticks (reset_call (held_store ticks.old counts.old) area.old).store }
    ensures counts_after { counts.new ≡ store_counts (reset_call (held_store ticks.old counts.old) area.old).store }
    ensures area_after { area.new ≡ (reset_call (held_store ticks.old counts.old) area.old).area }
{
    let s = load_storage(ticks, counts);
    let emptied = s.reset(area);
    write_storage(emptied, ticks, counts);
}

// The tick of the i-th table, the newest first.
#[unsafe(no_mangle)]
pub extern "C" fn cef_storage_snap_tick(
    ticks: &[i32; 2],
    counts: &[u32; 3],
    area: &[i32],
    i: usize,
    tick: &mut i32,
    end: &mut u32,
) -> u32
    ensures value { result ≡ status (tick_call (held_store ticks.now counts.now) area.now i) }
    ensures tick_after { tick.new ≡ output (key_or tick.old) tick.old (tick_call (held_store ticks.now counts.now) area.now i) }
    ensures end_after { end.new ≡ output ended end.old (tick_call (held_store ticks.now counts.now) area.now i) }
{
    let s = load_storage(ticks, counts);
    match s.snap_tick(area, i) {
        Ok(Some(at)) => {
            *tick = at.0;
            *end = 0;
            0
        }
        Ok(None) => {
            *end = 1;
            0
        }
        Err(e) => u32::from(e),
    }
}

// Copies the i-th table, the newest first, into the front of out; nothing if there is no such table.
#[unsafe(no_mangle)]
pub extern "C" fn cef_storage_snap(
    ticks: &[i32; 2],
    counts: &[u32; 3],
    area: &[i32],
    i: usize,
    out: &mut [i32],
    count: &mut usize,
) -> u32
    ensures value { result ≡ status (part_into (table_call (held_store ticks.now counts.now) area.now i) out.old).answer }
    ensures out_after { out.new ≡ (part_into (table_call (held_store ticks.now counts.now) area.now i) out.old).out }
    ensures count_after { count.new ≡ output (λ n. n) count.old (part_into (table_call (held_store ticks.now counts.now) area.now i) out.old).answer }
{
    let s = load_storage(ticks, counts);
    part_into(s.snap(area, i), out, count)
}

// Sets the base of the tables that are added; a negative tick sets none.
#[unsafe(no_mangle)]
pub extern "C" fn cef_storage_set_delta_tick(
    ticks: &mut [i32; 2],
    counts: &mut [u32; 3],
    tick: i32,
    area: &mut [i32],
    warnings: &mut [usize; WARNING_KINDS],
) -> u32
    ensures { Told (set_delta_tick_call (held_store ticks.old counts.old) area.old tick) ticks.old counts.old ticks.new counts.new area.new warnings.new result }
{
    let s = load_storage(ticks, counts);
    let set = s.set_delta_tick(Tick(tick), area);
    *warnings = row(set.warnings);
    save_storage(set.storage, ticks, counts);
    number(set.answer)
}

// Sets the outputs for an added table; returns the number of the answer.
fn tell(a: Result<Added, MakeError>, base: &mut i32, count: &mut usize, clash: &mut i32) -> u32
    ensures value { result ≡ status (added_in a) }
    ensures base_after { base.new ≡ output (λ x. x.base) base.old (added_in a) }
    ensures count_after { count.new ≡ output (λ x. x.ints) count.old (added_in a) }
    ensures clash_after { clash.new ≡ key_or clash.old (added_clash a) }
{
    match a {
        Ok(added) => {
            *base = added.base.0;
            *count = added.ints;
            0
        }
        Err(MakeError::DifferingSizes(key)) => {
            *clash = key;
            u32::from(Error::DeltaDifferingSizes)
        }
        Err(MakeError::Refused(e)) => u32::from(e),
    }
}

// Adds a table, and makes its delta against the base that is set, else against the empty table; if items of one key differ in length, sets
// clash to the least such key, read as unsigned.
#[unsafe(no_mangle)]
pub extern "C" fn cef_storage_add_snap(
    ticks: &mut [i32; 2],
    counts: &mut [u32; 3],
    tick: i32,
    table: &[i32],
    delta: &mut [i32],
    area: &mut [i32],
    base: &mut i32,
    count: &mut usize,
    clash: &mut i32,
) -> u32
    ensures told_added { ToldAdded (add_snap_call (held_store ticks.old counts.old) area.old tick table.now delta.old) (record { ticks = ticks.old; counts = counts.old; base = base.old; count = count.old }) (record { ticks = ticks.new; counts = counts.new; base = base.new; count = count.new }) area.new delta.new result }
    ensures clash_after { clash.new ≡ key_or clash.old
        (add_snap_clash (held_store ticks.old counts.old) area.old tick table.now delta.old) }
{
    let s = load_storage(ticks, counts);
    let added = s.add_snap(Tick(tick), table, delta, area);
    save_storage(added.storage, ticks, counts);
    tell(added.answer, base, count, clash)
}

// Takes a delta for a tick and applies it to its base; the resulting table is held and acknowledged.
#[unsafe(no_mangle)]
pub extern "C" fn cef_storage_add_delta(
    ticks: &mut [i32; 2],
    counts: &mut [u32; 3],
    has_crc: u32,
    crc: i32,
    delta_tick: i32,
    tick: i32,
    delta: &[i32],
    area: &mut [i32],
    scratch: &mut [i32],
    warnings: &mut [usize; WARNING_KINDS],
) -> u32
    ensures told { Told (add_delta_call (held_store ticks.old counts.old) area.old (given has_crc crc) delta_tick tick delta.now (length scratch.old)) ticks.old counts.old ticks.new counts.new area.new warnings.new result }
    ensures scratch_after { scratch.new ≡ cleared scratch.old }
{
    let s = load_storage(ticks, counts);
    let base = Tick(delta_tick);
    let taking = s.add_delta(has_crc != 0, crc, base, Tick(tick), delta, area, scratch);
    *warnings = row(taking.warnings);
    save_storage(taking.storage, ticks, counts);
    number(taking.answer)
}
