// The calls on tables as C sees them.
#![tactic(auto)]

ghost use Rattle.std.specs.Prelude.{◌≡◌, length};
ghost use Rattle.definitions.specs.Areas.{cleared};
ghost use Rattle.definitions.specs.Tables.{key_of};
ghost use Rattle.definitions.specs.TableCalls.{empty_call, read_call, read_from_ints_call, write_to_ints_call, write_call, num_items_call, has_item_call, crc_call, walk_key_call, add_item_call};
ghost use Rattle.format.specs.Totals as Totals;
ghost use Rattle.boundary.specs.Boundary as Boundary;
ghost use Rattle.boundary.specs.Boundary.{status, warnings_of, output, item_into, key_or, ended};
ghost use Rattle.capi_tables.specs.Items.{item_in, walk_item_in};

use boundary::checked::{flag, part_into, told, told_reading};
use format::WARNING_KINDS;

// Writes the empty table into the front of out.
#[unsafe(no_mangle)]
pub extern "C" fn cef_table_empty(out: &mut [i32], count: &mut usize) -> u32
    ensures value { result ≡ status (empty_call out.old).answer }
    ensures out_after { out.new ≡ (empty_call out.old).out }
    ensures count_after { count.new ≡ output (λ n. n) count.old (empty_call out.old).answer }
{
    told(raw_snap::empty(out), count)
}

// Reads a packed table into the front of out.
#[unsafe(no_mangle)]
pub extern "C" fn cef_table_read(
    src: &[u8],
    out: &mut [i32],
    scratch: &mut [i32],
    count: &mut usize,
    warnings: &mut [usize; WARNING_KINDS],
) -> u32
    ensures value { result ≡ status (read_call src.now out.old (length scratch.old)).answer }
    ensures out_after { out.new ≡ (read_call src.now out.old (length scratch.old)).out }
    ensures scratch_after { scratch.new ≡ cleared scratch.old }
    ensures count_after { count.new ≡ output (λ n. n) count.old (read_call src.now out.old (length scratch.old)).answer }
    ensures warnings_after { warnings.new ≡ Totals.row (warnings_of (read_call src.now out.old (length scratch.old)).answer) }
{
    told_reading(raw_snap::read(src, out, scratch), count, warnings)
}

// Reads a table from ints into the front of out.
#[unsafe(no_mangle)]
pub extern "C" fn cef_table_read_from_ints(
    src: &[i32],
    out: &mut [i32],
    count: &mut usize,
    warnings: &mut [usize; WARNING_KINDS],
) -> u32
    ensures value { result ≡ status (read_from_ints_call src.now out.old).answer }
    ensures out_after { out.new ≡ (read_from_ints_call src.now out.old).out }
    ensures count_after { count.new ≡ output (λ n. n) count.old (read_from_ints_call src.now out.old).answer }
    ensures warnings_after { warnings.new ≡ Totals.row (warnings_of (read_from_ints_call src.now out.old).answer) }
{
    told_reading(raw_snap::read_from_ints(src, out), count, warnings)
}

// Packs a table into the front of out.
#[unsafe(no_mangle)]
pub extern "C" fn cef_table_write(area: &[i32], out: &mut [u8], count: &mut usize) -> u32
    ensures value { result ≡ status (write_call area.now out.old).answer }
    ensures out_after { out.new ≡ (write_call area.now out.old).out }
    ensures count_after { count.new ≡ output (λ n. n) count.old (write_call area.now out.old).answer }
{
    told(raw_snap::write(area, out), count)
}

// Writes a table's written form into the front of out.
#[unsafe(no_mangle)]
pub extern "C" fn cef_table_write_to_ints(area: &[i32], out: &mut [i32], count: &mut usize) -> u32
    ensures value { result ≡ status (write_to_ints_call area.now out.old).answer }
    ensures out_after { out.new ≡ (write_to_ints_call area.now out.old).out }
    ensures count_after { count.new ≡ output (λ n. n) count.old (write_to_ints_call area.now out.old).answer }
{
    told(raw_snap::write_to_ints(area, out), count)
}

// How many items a table has.
#[unsafe(no_mangle)]
pub extern "C" fn cef_table_num_items(area: &[i32], count: &mut usize) -> u32
    ensures value { result ≡ status (num_items_call area.now) }
    ensures count_after { count.new ≡ output (λ n. n) count.old (num_items_call area.now) }
{
    told(raw_snap::num_items(area), count)
}

// Whether a table has an item.
#[unsafe(no_mangle)]
pub extern "C" fn cef_table_has_item(area: &[i32], raw_type_id: u16, id: u16, has: &mut u32) -> u32
    ensures value { result ≡ status (has_item_call area.now (key_of raw_type_id id)) }
    ensures has_after { has.new ≡ output Boundary.flag has.old (has_item_call area.now (key_of raw_type_id id)) }
{
    told(raw_snap::has_item(area, raw_type_id, id).map(flag), has)
}

// Copies the data of an item into the front of out; nothing if there is no such item. An empty part may mean a refusal: `has_item` tells.
#[tactic(auto, unfolding(boundary::specs::Boundary::item_into, boundary::specs::Boundary::part_into, definitions::specs::Stored::stored, definitions::specs::TableCalls::item_call))]
#[unsafe(no_mangle)]
pub extern "C" fn cef_table_item(
    area: &[i32],
    raw_type_id: u16,
    id: u16,
    out: &mut [i32],
    count: &mut usize,
) -> u32
    ensures value { result ≡ status (item_into (item_in area.now (key_of raw_type_id id)) out.old).answer }
    ensures out_after { out.new ≡ (item_into (item_in area.now (key_of raw_type_id id)) out.old).out }
    ensures count_after { count.new ≡ output (λ n. n) count.old (item_into (item_in area.now (key_of raw_type_id id)) out.old).answer }
{
    let part = raw_snap::item(area, raw_type_id, id);
    if !part.is_empty() {
        return part_into(part, out, count);
    }
    match raw_snap::has_item(area, raw_type_id, id) {
        Ok(_) => part_into(part, out, count),
        Err(e) => u32::from(e),
    }
}

// The sum of all data ints.
#[unsafe(no_mangle)]
pub extern "C" fn cef_table_crc(area: &[i32], crc: &mut i32) -> u32
    ensures value { result ≡ status (crc_call area.now) }
    ensures crc_after { crc.new ≡ output (λ s. s) crc.old (crc_call area.now) }
{
    told(raw_snap::crc(area), crc)
}

// The key of the i-th item in signed key order.
#[unsafe(no_mangle)]
pub extern "C" fn cef_table_walk_key(area: &[i32], i: usize, key: &mut i32, end: &mut u32) -> u32
    ensures value { result ≡ status (walk_key_call area.now i) }
    ensures key_after { key.new ≡ output (key_or key.old) key.old (walk_key_call area.now i) }
    ensures end_after { end.new ≡ output ended end.old (walk_key_call area.now i) }
{
    match raw_snap::walk_key(area, i) {
        Ok(Some(k)) => {
            *key = k;
            *end = 0;
            0
        }
        Ok(None) => {
            *end = 1;
            0
        }
        Err(e) => u32::from(e),
    }
}

// Copies the data of the i-th item in that order into the front of out; nothing past the end. An empty part may mean a refusal: `walk_key` tells.
#[tactic(auto, unfolding(boundary::specs::Boundary::item_into, boundary::specs::Boundary::part_into, definitions::specs::Stored::stored, definitions::specs::TableCalls::walk_item_call))]
#[unsafe(no_mangle)]
pub extern "C" fn cef_table_walk_item(
    area: &[i32],
    i: usize,
    out: &mut [i32],
    count: &mut usize,
) -> u32
    ensures value { result ≡ status (item_into (walk_item_in area.now i) out.old).answer }
    ensures out_after { out.new ≡ (item_into (walk_item_in area.now i) out.old).out }
    ensures count_after { count.new ≡ output (λ n. n) count.old (item_into (walk_item_in area.now i) out.old).answer }
{
    let values = raw_snap::walk_item(area, i);
    if !values.is_empty() {
        return part_into(values, out, count);
    }
    match raw_snap::walk_key(area, i) {
        Ok(_) => part_into(values, out, count),
        Err(e) => u32::from(e),
    }
}

// Adds an item to a table at its place by key.
#[unsafe(no_mangle)]
pub extern "C" fn cef_table_add_item(
    area: &mut [i32],
    raw_type_id: u16,
    id: u16,
    values: &[i32],
    count: &mut usize,
) -> u32
    ensures value { result ≡ status (add_item_call area.old (record { key = key_of raw_type_id id; values = values.now })).answer }
    ensures area_after { area.new ≡ (add_item_call area.old (record { key = key_of raw_type_id id; values = values.now })).out }
    ensures count_after { count.new ≡ output (λ n. n) count.old (add_item_call area.old (record { key = key_of raw_type_id id; values = values.now })).answer }
{
    told(
        raw_snap::raw_builder::add_item(area, raw_type_id, id, values),
        count,
    )
}
