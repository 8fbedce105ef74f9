// The steps of reading a packed table and of applying a delta, with their warnings; and copying a table.
ghost use Rattle.std.specs.Prelude.{◌≡◌, length, Some};
ghost use Rattle.definitions.specs.Warnings.{plus};
ghost use Rattle.definitions.specs.Outcome.{refuse};
ghost use Rattle.definitions.specs.Tables.{count, table_of};
ghost use Rattle.definitions.specs.TableCalls.{read_call, write_to_ints_call};
ghost use Rattle.definitions.specs.Applying.{raw_read_with_delta_call};
ghost use Rattle.laws.specs.WarningLaws.{packed};
ghost use Rattle.format.specs.Numbers.{number};
ghost use Rattle.format.specs.Totals.{counts};
ghost use Rattle.format.specs.Answers.{stored_ints, stored_with};
ghost use Rattle.format.specs.Sources.{excess, uuid_excess};
ghost use Rattle.table.specs.Held.{form_of};
ghost use Rattle.raw_snap.specs.Applied.{Judged};
ghost use Rattle.raw_snap.specs.Unpacking.{UnpacksTo};

use applying::checked::apply;
use format::{Error, Reading, Warnings};
use packer::checked::Totals;
use table_reading::checked::read_table;

// The refusal of a call before anything is read.
pub fn refused(error: Error) -> Reading
    ensures { refuse (number error) ≡ stored_with result.answer (counts result.warnings) }
{
    Reading {
        answer: Err(error),
        warnings: Warnings::none(),
    }
}

// Unpacks a packed table into the front of scratch, which needs at least 16,384 entries and one for each byte. Returns what the packer counted,
// or the answer to a call whose ints can't be read.
pub fn unpack(src: &[u8], scratch: &mut [i32]) -> Result<Totals, Reading>
    ensures { UnpacksTo src.now (length scratch.old) scratch.new result }
{
    if scratch.len() < 16384 {
        return Err(refused(Error::ScratchTooShort));
    }
    if scratch.len() < src.len() {
        return Err(refused(Error::ScratchTooShort));
    }
    if 1048576 < src.len() {
        return Err(refused(Error::InputTooLong));
    }
    let all = packer::checked::scan_all(src, scratch);
    if all.padded {
        return Err(Reading {
            answer: Err(Error::NonZeroIntPadding),
            warnings: Warnings::packed(all.overlong),
        });
    }
    Ok(all)
}

// The warnings of reading a packed table: the packer's, and those for a cut integer, for ints left over, and for kinds.
pub fn packed_warnings(all: Totals, more: bool, kinds: usize) -> Warnings
    ensures { counts result ≡ plus (packed all.overlong) (plus (excess all.cut) (plus (excess more) (uuid_excess kinds))) }
{
    let excess = ints::one_if(all.cut) + ints::one_if(more);
    Warnings::table(all.overlong, excess, kinds)
}

// Reads a packed table into the front of out. Leaves scratch in any state.
pub fn read_packed(src: &[u8], out: &mut [i32], scratch: &mut [i32]) -> Reading
    ensures { read_call src.now out.old (length scratch.old) ≡ record { answer = stored_with result.answer (counts result.warnings); out = out.new } }
{
    match unpack(src, scratch) {
        Err(read) => read,
        Ok(all) => {
            let read = read_table(&scratch[..all.count], out);
            Reading {
                answer: read.answer,
                warnings: packed_warnings(all, read.excess, 0),
            }
        }
    }
}

// What a base and a delta hold: so many items, deleted keys and updates.
#[derive(Clone, Copy)]
pub struct Areas {
    pub items: usize,
    pub deleted: usize,
    pub updated: usize,
}

// Judges the forms of a base and a delta; scratch has so many entries.
pub fn judge_areas(base: &[i32], delta: &[i32], scratch: usize) -> Result<Areas, Error>
    ensures { Judged base.now delta.now scratch result }
{
    let Some(form) = table::checked::form(base) else {
        return Err(Error::NotInForm);
    };
    let Some(changes) = delta_form::checked::form(delta, &delta[..0]) else {
        return Err(Error::NotInForm);
    };
    if scratch < 16384 {
        return Err(Error::ScratchTooShort);
    }
    Ok(Areas {
        items: form.items,
        deleted: changes.deleted,
        updated: changes.updated,
    })
}

// Applies a delta to its base, into the front of out; scratch has so many entries.
pub fn apply_delta(base: &[i32], delta: &[i32], out: &mut [i32], scratch: usize) -> Reading
    ensures { raw_read_with_delta_call base.now delta.now out.old scratch ≡ record { answer = stored_with result.answer (counts result.warnings); out = out.new } }
{
    match judge_areas(base, delta, scratch) {
        Err(e) => refused(e),
        Ok(areas) => {
            let applied = apply(base, areas.items, delta, areas.deleted, areas.updated, out);
            Reading {
                answer: applied.answer,
                warnings: Warnings::applied(applied.unknown_delete, 0),
            }
        }
    }
}

// Copies the table of n ints that an area begins with to the front of out; if it does not fit, out is unchanged.
pub fn copy_table(area: &[i32], n: usize, out: &mut [i32]) -> Result<usize, Error>
    requires { Some (record { items = count area.now; ints = n }) ≡ form_of (table_of area.now) }
    ensures { write_to_ints_call area.now out.old ≡ record { answer = stored_ints result; out = out.new } }
{
    if ints::copy_into(out, 0, &area[..n]) {
        return Ok(n);
    }
    Err(Error::CapacityError)
}
