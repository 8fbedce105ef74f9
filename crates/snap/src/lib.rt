// Tables whose items have numbers or kinds of 16 bytes as types, in lent areas of ints.
#![tactic(auto)]

ghost use Rattle.std.specs.Prelude.{◌≡◌, length};
ghost use Rattle.definitions.specs.Areas.{cleared};
ghost use Rattle.definitions.specs.Types.{typed_read_call, typed_read_from_ints_call, typed_read_with_delta_call, typed_item_call, typed_has_item_call, raw_type_id_call, type_id_call};
ghost use Rattle.format.specs.Totals.{counts};
ghost use Rattle.format.specs.Answers.{stored_with};
ghost use Rattle.raw_snap.specs.Answers.{has_item};
ghost use Rattle.snap.specs.Answers.{type_of, raw_type, type_found};

use format::{Error, Reading};
use table::checked::{data_at, find, form};

pub mod checked;

// A type: a number, or a kind, whose 16 bytes are four big-endian ints.
#[derive(Clone, Copy)]
pub enum TypeId {
    Ordinal(u16),
    Uuid(i32, i32, i32, i32),
}

// Reads a table from ints, with sound types, into the front of out; returns how many ints it takes there. Scratch needs at least 16,384 entries;
// it is all zeros afterwards. A refused call leaves out unchanged.
pub fn read_from_ints(src: &[i32], out: &mut [i32], scratch: &mut [i32]) -> Reading
    ensures { (typed_read_from_ints_call src.now out.old (length scratch.old) ≡ record { answer = stored_with result.answer (counts result.warnings); out = out.new }) × (scratch.new ≡ cleared scratch.old) }
{
    let read = checked::read_ints(src, out, scratch.len());
    ints::clear(scratch);
    read
}

// Reads a packed table with sound types into the front of out. Scratch needs at least 16,384 entries and one for each byte; it is all zeros afterwards.
pub fn read(src: &[u8], out: &mut [i32], scratch: &mut [i32]) -> Reading
    ensures { (typed_read_call src.now out.old (length scratch.old) ≡ record { answer = stored_with result.answer (counts result.warnings); out = out.new }) × (scratch.new ≡ cleared scratch.old) }
{
    let read = checked::read_packed(src, out, scratch);
    ints::clear(scratch);
    read
}

// Applies a delta to its base, with sound types, into the front of out; returns how many ints the table takes there. Scratch needs at least
// 16,384 entries; it is all zeros afterwards. A refused call leaves out unchanged.
pub fn read_with_delta(base: &[i32], delta: &[i32], out: &mut [i32], scratch: &mut [i32]) -> Reading
    ensures { (typed_read_with_delta_call base.now delta.now out.old (length scratch.old) ≡ record { answer = stored_with result.answer (counts result.warnings); out = out.new }) × (scratch.new ≡ cleared scratch.old) }
{
    let read = checked::apply_delta(base, delta, out, scratch);
    ints::clear(scratch);
    read
}

// The raw type of a type.
pub fn raw_type_id(area: &[i32], type_id: TypeId) -> Result<Option<u16>, Error>
    ensures { raw_type_id_call area.now (type_of type_id) ≡ raw_type result }
{
    let Some(form) = form(area) else {
        return Err(Error::NotInForm);
    };
    checked::raw_of(area, form.items, type_id)
}

// The type of a raw type.
pub fn type_id(area: &[i32], raw_type_id: u16) -> Result<Option<TypeId>, Error>
    ensures { type_id_call area.now raw_type_id ≡ type_found result }
{
    let Some(form) = form(area) else {
        return Err(Error::NotInForm);
    };
    Ok(checked::type_of(area, form.items, raw_type_id))
}

// Whether a table has an item.
pub fn has_item(area: &[i32], type_id: TypeId, id: u16) -> Result<bool, Error>
    ensures { typed_has_item_call area.now (type_of type_id) id ≡ has_item result }
{
    let Some(form) = form(area) else {
        return Err(Error::NotInForm);
    };
    match checked::raw_of(area, form.items, type_id)? {
        None => Ok(false),
        Some(raw) => Ok(checked::has_raw(area, form.items, raw, id)),
    }
}

// The data of an item, as a part of the area; empty if there is no such item.
pub fn item(area: &[i32], type_id: TypeId, id: u16) -> &[i32]
    ensures { result.now ≡ typed_item_call area.now (type_of type_id) id }
{
    let Some(form) = form(area) else {
        return &area[..0];
    };
    let Ok(Some(raw)) = checked::raw_of(area, form.items, type_id) else {
        return &area[..0];
    };
    let at = find(area, form.items, format::key(raw, id));
    if at < form.items {
        return data_at(area, form.items, at);
    }
    &area[..0]
}
