// Deltas between tables, in lent areas of ints.
#![tactic(auto)]

ghost use Rattle.std.specs.Prelude.{◌≡◌, length};
ghost use Rattle.definitions.specs.Areas.{cleared};
ghost use Rattle.definitions.specs.DeltaCalls.{clear_call, create_call, create_clash, write_to_ints_call, write_call, read_from_ints_call, read_call};
ghost use Rattle.delta_making.specs.Answers.{made_ints, made_clash};
ghost use Rattle.format.specs.Totals.{counts};
ghost use Rattle.format.specs.Answers.{stored_ints, stored_with};

use delta_form::checked::form;
use delta_making::MakeError;
use delta_writing::checked::{sizes_match, write_ints, write_packed};
use format::{Error, Reading};

pub mod checked;

// Writes the empty delta.
pub fn clear(out: &mut [i32]) -> Result<usize, Error>
    ensures { clear_call out.old ≡ record { answer = stored_ints result; out = out.new } }
{
    if out.len() < 3 {
        return Err(Error::CapacityError);
    }
    out[0] = 0;
    out[1] = 0;
    out[2] = 0;
    Ok(3)
}

// Writes the delta from a base table to a target table into the front of out; if items of one key differ in length, returns the least such
// key, read as unsigned. A refused call leaves out unchanged.
pub fn create(base: &[i32], target: &[i32], out: &mut [i32]) -> Result<usize, MakeError>
    ensures out_value { create_call base.now target.now out.old ≡ record { answer = made_ints result; out = out.new } }
    ensures result_value { made_clash result ≡ create_clash base.now target.now out.old }
{
    let Some(b) = table::checked::form(base) else {
        return Err(MakeError::Refused(Error::NotInForm));
    };
    let Some(t) = table::checked::form(target) else {
        return Err(MakeError::Refused(Error::NotInForm));
    };
    delta_making::checked::create(base, b.items, target, t.items, out)
}

// Writes a delta's ints under known sizes into the front of out; returns the number of ints. A refused call leaves out unchanged.
pub fn write_to_ints(area: &[i32], sizes: &[i32], out: &mut [i32]) -> Result<usize, Error>
    ensures { write_to_ints_call area.now sizes.now out.old ≡ record { answer = stored_ints result; out = out.new } }
{
    let Some(delta) = form(area, &area[..0]) else {
        return Err(Error::NotInForm);
    };
    if !sizes_match(area, delta.deleted, delta.updated, sizes) {
        return Err(Error::KnownSizeDiffers);
    }
    write_ints(area, delta.deleted, delta.updated, sizes, out)
}

// Packs a delta under known sizes into the front of out; returns the number of bytes. A refused call leaves out unchanged.
pub fn write(area: &[i32], sizes: &[i32], out: &mut [u8]) -> Result<usize, Error>
    ensures { write_call area.now sizes.now out.old ≡ record { answer = stored_ints result; out = out.new } }
{
    let Some(delta) = form(area, &area[..0]) else {
        return Err(Error::NotInForm);
    };
    if sizes_match(area, delta.deleted, delta.updated, sizes) {
        write_packed(area, delta.deleted, delta.updated, sizes, out)
    } else {
        Err(Error::KnownSizeDiffers)
    }
}

// Reads a delta from ints under known sizes into the front of out; returns how many ints it takes there. A refused call leaves out unchanged.
// Scratch needs at least 16,384 entries; it is all zeros afterwards.
pub fn read_from_ints(src: &[i32], sizes: &[i32], out: &mut [i32], scratch: &mut [i32]) -> Reading
    ensures { (read_from_ints_call src.now sizes.now out.old (length scratch.old) ≡ record { answer = stored_with result.answer (counts result.warnings); out = out.new }) × (scratch.new ≡ cleared scratch.old) }
{
    let read = checked::judge_ints(src, sizes, out, scratch);
    ints::clear(scratch);
    read
}

// Reads a packed delta under known sizes into the front of out. Scratch needs at least 16,384 entries and one for each byte; it is all zeros afterwards.
pub fn read(src: &[u8], sizes: &[i32], out: &mut [i32], scratch: &mut [i32]) -> Reading
    ensures { (read_call src.now sizes.now out.old (length scratch.old) ≡ record { answer = stored_with result.answer (counts result.warnings); out = out.new }) × (scratch.new ≡ cleared scratch.old) }
{
    let read = checked::judge_packed(src, sizes, out, scratch);
    ints::clear(scratch);
    read
}
