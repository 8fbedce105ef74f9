// Tables of keyed items in lent areas of ints.
#![tactic(auto)]

ghost use Rattle.std.specs.Prelude.{◌≡◌, length};
ghost use Rattle.definitions.specs.Areas.{cleared};
ghost use Rattle.definitions.specs.Tables.{key_of};
ghost use Rattle.definitions.specs.TableCalls.{empty_call, read_call, read_from_ints_call, write_to_ints_call, write_call, num_items_call, has_item_call, item_call, crc_call, walk_key_call, walk_item_call};
ghost use Rattle.definitions.specs.Applying.{raw_read_with_delta_call};
ghost use Rattle.format.specs.Totals.{counts};
ghost use Rattle.format.specs.Answers.{stored_ints, stored_with};
ghost use Rattle.raw_snap.specs.Answers.{item_count, has_item, checksum, walked};

use format::{Error, Reading, Warnings};

pub mod checked;
pub mod raw_builder;

// Writes the empty table.
pub fn empty(out: &mut [i32]) -> Result<usize, Error>
    ensures { empty_call out.old ≡ record { answer = stored_ints result; out = out.new } }
{
    if out.len() < 2 {
        return Err(Error::CapacityError);
    }
    out[0] = 0;
    out[1] = 0;
    Ok(2)
}

// How many items a table has.
pub fn num_items(area: &[i32]) -> Result<usize, Error>
    ensures { num_items_call area.now ≡ item_count result }
{
    match table::checked::form(area) {
        Some(form) => Ok(form.items),
        None => Err(Error::NotInForm),
    }
}

// Whether a table has an item.
pub fn has_item(area: &[i32], raw_type_id: u16, id: u16) -> Result<bool, Error>
    ensures { has_item_call area.now (key_of raw_type_id id) ≡ has_item result }
{
    let Some(form) = table::checked::form(area) else {
        return Err(Error::NotInForm);
    };
    Ok(table::checked::find(area, form.items, format::key(raw_type_id, id)) < form.items)
}

// The data of an item, as a part of the area; empty if there is no such item.
pub fn item(area: &[i32], raw_type_id: u16, id: u16) -> &[i32]
    ensures { result.now ≡ item_call area.now (key_of raw_type_id id) }
{
    let Some(form) = table::checked::form(area) else {
        return &area[..0];
    };
    let at = table::checked::find(area, form.items, format::key(raw_type_id, id));
    if at < form.items {
        return table::checked::data_at(area, form.items, at);
    }
    &area[..0]
}

// The sum of all data ints.
pub fn crc(area: &[i32]) -> Result<i32, Error>
    ensures { crc_call area.now ≡ checksum result }
{
    let Some(form) = table::checked::form(area) else {
        return Err(Error::NotInForm);
    };
    Ok(table::checked::crc(area, form.items))
}

// The key of the i-th item in signed key order.
pub fn walk_key(area: &[i32], i: usize) -> Result<Option<i32>, Error>
    ensures { walk_key_call area.now i ≡ walked result }
{
    let Some(form) = table::checked::form(area) else {
        return Err(Error::NotInForm);
    };
    if form.items <= i {
        return Ok(None);
    }
    let at = table::checked::walk_place(area, form.items, i);
    Ok(Some(table::checked::key_at(area, form.items, at)))
}

// The data of the i-th item in that order, as a part of the area; empty past the end.
pub fn walk_item(area: &[i32], i: usize) -> &[i32]
    ensures { result.now ≡ walk_item_call area.now i }
{
    let Some(form) = table::checked::form(area) else {
        return &area[..0];
    };
    if form.items <= i {
        return &area[..0];
    }
    let at = table::checked::walk_place(area, form.items, i);
    table::checked::data_at(area, form.items, at)
}

// Reads a table from ints into the front of out; returns how many ints it takes there. A refused call leaves out unchanged.
pub fn read_from_ints(src: &[i32], out: &mut [i32]) -> Reading
    ensures { read_from_ints_call src.now out.old ≡ record { answer = stored_with result.answer (counts result.warnings); out = out.new } }
{
    if 1048576 < src.len() {
        return checked::refused(Error::InputTooLong);
    }
    let read = table_reading::checked::read_table(src, out);
    Reading {
        answer: read.answer,
        warnings: Warnings::table(0, ints::one_if(read.excess), 0),
    }
}

// Reads a packed table into the front of out. Scratch needs at least 16,384 entries and one for each byte; it is all zeros afterwards.
pub fn read(src: &[u8], out: &mut [i32], scratch: &mut [i32]) -> Reading
    ensures { (read_call src.now out.old (length scratch.old) ≡ record { answer = stored_with result.answer (counts result.warnings); out = out.new }) × (scratch.new ≡ cleared scratch.old) }
{
    let read = checked::read_packed(src, out, scratch);
    ints::clear(scratch);
    read
}

// Applies a delta to its base and writes the table into the front of out; returns how many ints it takes there. Scratch needs at least 16,384
// entries; it is all zeros afterwards. A refused call leaves out unchanged.
pub fn read_with_delta(base: &[i32], delta: &[i32], out: &mut [i32], scratch: &mut [i32]) -> Reading
    ensures { (raw_read_with_delta_call base.now delta.now out.old (length scratch.old) ≡ record { answer = stored_with result.answer (counts result.warnings); out = out.new }) × (scratch.new ≡ cleared scratch.old) }
{
    let read = checked::apply_delta(base, delta, out, scratch.len());
    ints::clear(scratch);
    read
}

// Writes a table's written form into the front of out; returns the number of ints. If it does not fit, out is unchanged.
pub fn write_to_ints(area: &[i32], out: &mut [i32]) -> Result<usize, Error>
    ensures { write_to_ints_call area.now out.old ≡ record { answer = stored_ints result; out = out.new } }
{
    let Some(form) = table::checked::form(area) else {
        return Err(Error::NotInForm);
    };
    checked::copy_table(area, form.ints, out)
}

// Packs a table into the front of out; returns the number of bytes. If it does not fit, out is unchanged.
pub fn write(area: &[i32], out: &mut [u8]) -> Result<usize, Error>
    ensures { write_call area.now out.old ≡ record { answer = stored_ints result; out = out.new } }
{
    if let Some(form) = table::checked::form(area) {
        packer::pack(&area[..form.ints], out)
    } else {
        Err(Error::NotInForm)
    }
}
