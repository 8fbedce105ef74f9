// The steps of reading a table with types and of applying a delta, and the types of a table in form.
ghost use Rattle.std.specs.Prelude.{◌≡◌, ◌∷◌, [], ◌<◌, length, take, Ok};
ghost use Rattle.definitions.specs.Warnings.{plus};
ghost use Rattle.definitions.specs.Outcome.{return};
ghost use Rattle.definitions.specs.Tables.{items, item_at, key_of};
ghost use Rattle.definitions.specs.Tables as Tables;
ghost use Rattle.definitions.specs.TableCalls.{stored_table};
ghost use Rattle.definitions.specs.Types.{typed_read_call, typed_read_from_ints_call, typed_read_with_delta_call, same_ints, kind_number, type_id};
ghost use Rattle.laws.specs.WarningLaws.{packed};
ghost use Rattle.format.specs.Totals.{counts};
ghost use Rattle.format.specs.Answers.{stored_with};
ghost use Rattle.format.specs.Sources.{excess, uuid_excess, typed_counts};
ghost use Rattle.table.specs.Held.{Held};
ghost use Rattle.table_reading.specs.Reading.{Ints};
ghost use Rattle.typed_applying.specs.Answers.{Stands};
ghost use Rattle.typed_applying.specs.Answers as Applying;
ghost use Rattle.snap.specs.Answers.{type_of, raw_type, type_found, number_in, names_kind, typed_items, typed_table, raw_type_in};

use super::TypeId;
use format::{Error, Reading, Warnings};
use raw_snap::checked::{copy_table, judge_areas, packed_warnings, refused, unpack};
use table::checked::{data_at, find, key_at};
use table_reading::checked::{place_items, read_header, write_table};
use typed_applying::checked::{Typed, apply_typed};
use types::checked::judge;
use types::checked::picked::Picked;

// The result of placing the items of a table, and how many kinds have more than four ints.
#[derive(Clone, Copy)]
pub struct Placing {
    pub answer: Result<usize, Error>,
    pub kinds: usize,
}

// Writes a table of n items that take len ints, with sound types, into the front of out; returns the number of ints, or why it is refused.
pub fn place_typed(src: &[i32], n: usize, len: usize, out: &mut [i32]) -> Placing
    requires { Ints src.now n len }
    ensures { stored_table out.old (typed_items src.now n) ≡ record { answer = stored_with result.answer (uuid_excess result.kinds); out = out.new } }
{
    let mut index = [0u16; 1024];
    if let Err(e) = place_items(src, n, len, &mut index) {
        return Placing {
            answer: Err(e),
            kinds: 0,
        };
    }
    let judged = judge(Picked {
        src,
        n,
        index: &index,
    });
    let kinds = judged.excess;
    if let Err(e) = judged.types {
        return Placing {
            answer: Err(e),
            kinds,
        };
    }
    let total = 2 + n + len;
    if out.len() < total {
        return Placing {
            answer: Err(Error::CapacityError),
            kinds,
        };
    }
    write_table(src, n, len, &index, out);
    Placing {
        answer: Ok(total),
        kinds,
    }
}

// The result of reading a table with types, whether ints were left over, and how many kinds have more than four ints.
#[derive(Clone, Copy)]
pub struct Found {
    pub answer: Result<usize, Error>,
    pub excess: bool,
    pub kinds: usize,
}

// Reads a table from ints, with sound types, into the front of out.
pub fn read_typed(src: &[i32], out: &mut [i32]) -> Found
    ensures { stored_table out.old (typed_table src.now) ≡ record { answer = stored_with result.answer (plus (excess result.excess) (uuid_excess result.kinds)); out = out.new } }
{
    match read_header(src) {
        Err(e) => Found {
            answer: Err(e),
            excess: false,
            kinds: 0,
        },
        Ok(header) => {
            let placing = place_typed(src, header.items, header.len, out);
            Found {
                answer: placing.answer,
                excess: header.excess,
                kinds: placing.kinds,
            }
        }
    }
}

// Reads a table from ints, with sound types, into the front of out; scratch has so many entries.
pub fn read_ints(src: &[i32], out: &mut [i32], scratch: usize) -> Reading
    ensures { typed_read_from_ints_call src.now out.old scratch ≡ record { answer = stored_with result.answer (counts result.warnings); out = out.new } }
{
    if scratch < 16384 {
        return refused(Error::ScratchTooShort);
    }
    if 1048576 < src.len() {
        return refused(Error::InputTooLong);
    }
    let read = read_typed(src, out);
    Reading {
        answer: read.answer,
        warnings: Warnings::table(0, ints::one_if(read.excess), read.kinds),
    }
}

// Reads a packed table with sound types into the front of out. Leaves scratch in any state.
pub fn read_packed(src: &[u8], out: &mut [i32], scratch: &mut [i32]) -> Reading
    ensures { typed_read_call src.now out.old (length scratch.old) ≡ record { answer = stored_with result.answer (counts result.warnings); out = out.new } }
{
    match unpack(src, scratch) {
        Err(read) => read,
        Ok(all) => {
            let read = read_typed(&scratch[..all.count], out);
            Reading {
                answer: read.answer,
                warnings: packed_warnings(all, read.excess, read.kinds),
            }
        }
    }
}

// Stores the table that a delta made at the front of an area into the front of out.
pub fn store_made(made: Typed, area: &[i32], out: &mut [i32]) -> Reading
    requires { Stands area.now made.table }
    ensures { stored_table out.old (Applying.typed_table (items area.now) made) ≡ record { answer = stored_with result.answer (counts result.warnings); out = out.new } }
{
    let warnings = Warnings::applied(made.unknown_delete, made.excess);
    match made.table {
        Err(e) => Reading {
            answer: Err(e),
            warnings,
        },
        Ok(form) => Reading {
            answer: copy_table(area, form.ints, out),
            warnings,
        },
    }
}

// Applies a delta to its base, with sound types, into the front of out. Leaves scratch in any state.
pub fn apply_delta(base: &[i32], delta: &[i32], out: &mut [i32], scratch: &mut [i32]) -> Reading
    ensures { typed_read_with_delta_call base.now delta.now out.old (length scratch.old) ≡ record { answer = stored_with result.answer (counts result.warnings); out = out.new } }
{
    match judge_areas(base, delta, scratch.len()) {
        Err(e) => refused(e),
        Ok(areas) => {
            let made = apply_typed(
                base,
                areas.items,
                delta,
                areas.deleted,
                areas.updated,
                scratch,
            );
            store_made(made, scratch, out)
        }
    }
}

// Whether these are the first four ints of some data.
pub fn names(data: &[i32], a: i32, b: i32, c: i32, d: i32) -> bool
    ensures { result ≡ same_ints (take 4 «data».now) (a ∷ b ∷ c ∷ d ∷ []) }
{
    data.len() >= 4 && data[0] == a && data[1] == b && data[2] == c && data[3] == d
}

// Whether item i of n is of type 0 and names this kind.
pub fn names_kind(area: &[i32], n: usize, i: usize, a: i32, b: i32, c: i32, d: i32) -> bool
    requires { Held area.now n × (i < n) }
    ensures { result ≡ names_kind (a ∷ b ∷ c ∷ d ∷ []) (item_at area.now i) }
{
    format::key_to_raw_type_id(key_at(area, n, i)) == 0 && names(data_at(area, n, i), a, b, c, d)
}

// The number of a kind among the n items, if an item names it.
pub fn kind_number(area: &[i32], n: usize, a: i32, b: i32, c: i32, d: i32) -> Option<u16>
    requires { Held area.now n }
    ensures { kind_number (a ∷ b ∷ c ∷ d ∷ []) (items area.now) ≡ number_in result }
{
    for i in 0..n {
        if names_kind(area, n, i, a, b, c, d) {
            return Some(format::key_to_id(key_at(area, n, i)));
        }
    }
    None
}

// The raw type of a type in a table of n items.
pub fn raw_of(area: &[i32], n: usize, type_id: TypeId) -> Result<Option<u16>, Error>
    requires { Held area.now n }
    ensures { raw_type_in (items area.now) (type_of type_id) ≡ raw_type result }
{
    match type_id {
        TypeId::Ordinal(number) => {
            if number == 0 || number >= 16384 {
                Err(Error::InvalidTypeId)
            } else {
                Ok(Some(number))
            }
        }
        TypeId::Uuid(a, b, c, d) => Ok(kind_number(area, n, a, b, c, d)),
    }
}

// The type of a raw type in a table of n items, if the table has it.
pub fn type_of(area: &[i32], n: usize, raw_type_id: u16) -> Option<TypeId>
    requires { Held area.now n }
    ensures { return (type_id (items area.now) raw_type_id) ≡ type_found (Ok result) }
{
    if raw_type_id == 0 {
        return None;
    }
    if raw_type_id < 16384 {
        return Some(TypeId::Ordinal(raw_type_id));
    }
    let at = find(area, n, format::key(0, raw_type_id));
    if n <= at {
        return None;
    }
    let data = data_at(area, n, at);
    if data.len() < 4 {
        return None;
    }
    Some(TypeId::Uuid(data[0], data[1], data[2], data[3]))
}

// Whether there is an item with a raw type and an id among the n items.
pub fn has_raw(area: &[i32], n: usize, raw_type_id: u16, id: u16) -> bool
    requires { Held area.now n }
    ensures { result ≡ Tables.is_some (Tables.find (key_of raw_type_id id) (items area.now)) }
{
    find(area, n, format::key(raw_type_id, id)) < n
}
