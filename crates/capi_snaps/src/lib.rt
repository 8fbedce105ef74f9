// Applying deltas, tables with types, and the builder as C sees them.
#![tactic(auto)]

ghost use Rattle.std.specs.Prelude.{◌≡◌, length};
ghost use Rattle.definitions.specs.Areas.{cleared};
ghost use Rattle.definitions.specs.Applying.{raw_read_with_delta_call};
ghost use Rattle.definitions.specs.Types.{typed_read_call, typed_read_from_ints_call, typed_read_with_delta_call, typed_item, typed_has_item_call, raw_type_id_call, type_id_call};
ghost use Rattle.definitions.specs.Builder.{new_call, builder_add_item_call, finish_call};
ghost use Rattle.snap.specs.Answers.{type_of};
ghost use Rattle.format.specs.Totals as Totals;
ghost use Rattle.boundary.specs.Boundary as Boundary;
ghost use Rattle.boundary.specs.Boundary.{status, warnings_of, output, item_into};
ghost use Rattle.capi_snaps.specs.Types.{type_in, is_known, raw_or, kind_of, ordinal_or, uuid_or};

use boundary::checked::{flag, part_into, told, told_reading};
use format::WARNING_KINDS;
use snap::TypeId;

// The type that three parameters give: the number if the first is 0, else the kind.
fn type_in(is_uuid: u32, ordinal: u16, uuid: &[i32; 4]) -> TypeId
    ensures { type_of result ≡ type_in is_uuid ordinal uuid.now }
{
    if is_uuid == 0 {
        TypeId::Ordinal(ordinal)
    } else {
        TypeId::Uuid(uuid[0], uuid[1], uuid[2], uuid[3])
    }
}

// Applies a delta to its base and writes the table into the front of out.
#[unsafe(no_mangle)]
pub extern "C" fn cef_table_read_with_delta(
    base: &[i32],
    delta: &[i32],
    out: &mut [i32],
    scratch: &mut [i32],
    count: &mut usize,
    warnings: &mut [usize; WARNING_KINDS],
) -> u32
    ensures value { result ≡ status (raw_read_with_delta_call base.now delta.now out.old (length scratch.old)).answer }
    ensures out_after { out.new ≡ (raw_read_with_delta_call base.now delta.now out.old (length scratch.old)).out }
    ensures scratch_after { scratch.new ≡ cleared scratch.old }
    ensures count_after { count.new ≡ output (λ n. n) count.old (raw_read_with_delta_call base.now delta.now out.old (length scratch.old)).answer }
    ensures warnings_after { warnings.new ≡ Totals.row (warnings_of (raw_read_with_delta_call base.now delta.now out.old (length scratch.old)).answer) }
{
    told_reading(
        raw_snap::read_with_delta(base, delta, out, scratch),
        count,
        warnings,
    )
}

// Applies a delta to its base and writes the table, with sound types, into the front of out.
#[unsafe(no_mangle)]
pub extern "C" fn cef_snap_read_with_delta(
    base: &[i32],
    delta: &[i32],
    out: &mut [i32],
    scratch: &mut [i32],
    count: &mut usize,
    warnings: &mut [usize; WARNING_KINDS],
) -> u32
    ensures value { result ≡ status (typed_read_with_delta_call base.now delta.now out.old (length scratch.old)).answer }
    ensures out_after { out.new ≡ (typed_read_with_delta_call base.now delta.now out.old (length scratch.old)).out }
    ensures scratch_after { scratch.new ≡ cleared scratch.old }
    ensures count_after { count.new ≡ output (λ n. n) count.old (typed_read_with_delta_call base.now delta.now out.old (length scratch.old)).answer }
    ensures warnings_after { warnings.new ≡ Totals.row (warnings_of (typed_read_with_delta_call base.now delta.now out.old (length scratch.old)).answer) }
{
    told_reading(
        snap::read_with_delta(base, delta, out, scratch),
        count,
        warnings,
    )
}

// Reads a packed table with sound types into the front of out.
#[unsafe(no_mangle)]
pub extern "C" fn cef_snap_read(
    src: &[u8],
    out: &mut [i32],
    scratch: &mut [i32],
    count: &mut usize,
    warnings: &mut [usize; WARNING_KINDS],
) -> u32
    ensures value { result ≡ status (typed_read_call src.now out.old (length scratch.old)).answer }
    ensures out_after { out.new ≡ (typed_read_call src.now out.old (length scratch.old)).out }
    ensures scratch_after { scratch.new ≡ cleared scratch.old }
    ensures count_after { count.new ≡ output (λ n. n) count.old (typed_read_call src.now out.old (length scratch.old)).answer }
    ensures warnings_after { warnings.new ≡ Totals.row (warnings_of (typed_read_call src.now out.old (length scratch.old)).answer) }
{
    told_reading(snap::read(src, out, scratch), count, warnings)
}

// Reads a table from ints, with sound types, into the front of out.
#[unsafe(no_mangle)]
pub extern "C" fn cef_snap_read_from_ints(
    src: &[i32],
    out: &mut [i32],
    scratch: &mut [i32],
    count: &mut usize,
    warnings: &mut [usize; WARNING_KINDS],
) -> u32
    ensures value { result ≡ status (typed_read_from_ints_call src.now out.old (length scratch.old)).answer }
    ensures out_after { out.new ≡ (typed_read_from_ints_call src.now out.old (length scratch.old)).out }
    ensures scratch_after { scratch.new ≡ cleared scratch.old }
    ensures count_after { count.new ≡ output (λ n. n) count.old (typed_read_from_ints_call src.now out.old (length scratch.old)).answer }
    ensures warnings_after { warnings.new ≡ Totals.row (warnings_of (typed_read_from_ints_call src.now out.old (length scratch.old)).answer) }
{
    told_reading(snap::read_from_ints(src, out, scratch), count, warnings)
}

// The raw type of a type, if the table has one.
#[unsafe(no_mangle)]
pub extern "C" fn cef_snap_raw_type_id(
    area: &[i32],
    is_uuid: u32,
    ordinal: u16,
    uuid: &[i32; 4],
    known: &mut u32,
    raw_type_id: &mut u16,
) -> u32
    ensures value { result ≡ status (raw_type_id_call area.now (type_in is_uuid ordinal uuid.now)) }
    ensures known_after { known.new ≡ output is_known known.old (raw_type_id_call area.now (type_in is_uuid ordinal uuid.now)) }
    ensures raw_type_id_after { raw_type_id.new ≡ output (raw_or raw_type_id.old) raw_type_id.old (raw_type_id_call area.now (type_in is_uuid ordinal uuid.now)) }
{
    match snap::raw_type_id(area, type_in(is_uuid, ordinal, uuid)) {
        Ok(Some(n)) => {
            *known = 1;
            *raw_type_id = n;
            0
        }
        Ok(None) => {
            *known = 0;
            0
        }
        Err(e) => u32::from(e),
    }
}

// The type of a raw type, if the table has one.
#[unsafe(no_mangle)]
pub extern "C" fn cef_snap_type_id(
    area: &[i32],
    raw_type_id: u16,
    kind: &mut u32,
    ordinal: &mut u16,
    uuid: &mut [i32; 4],
) -> u32
    ensures value { result ≡ status (type_id_call area.now raw_type_id) }
    ensures kind_after { kind.new ≡ output kind_of kind.old (type_id_call area.now raw_type_id) }
    ensures ordinal_after { ordinal.new ≡ output (ordinal_or ordinal.old) ordinal.old (type_id_call area.now raw_type_id) }
    ensures uuid_after { uuid.new ≡ output (uuid_or uuid.old) uuid.old (type_id_call area.now raw_type_id) }
{
    match snap::type_id(area, raw_type_id) {
        Ok(Some(TypeId::Ordinal(n))) => {
            *kind = 1;
            *ordinal = n;
            0
        }
        Ok(Some(TypeId::Uuid(a, b, c, d))) => {
            *kind = 2;
            *uuid = [a, b, c, d];
            0
        }
        Ok(None) => {
            *kind = 0;
            0
        }
        Err(e) => u32::from(e),
    }
}

// Whether a table has an item of a type.
#[unsafe(no_mangle)]
pub extern "C" fn cef_snap_has_item(
    area: &[i32],
    is_uuid: u32,
    ordinal: u16,
    uuid: &[i32; 4],
    id: u16,
    has: &mut u32,
) -> u32
    ensures value { result ≡ status (typed_has_item_call area.now (type_in is_uuid ordinal uuid.now) id) }
    ensures has_after { has.new ≡ output Boundary.flag has.old (typed_has_item_call area.now (type_in is_uuid ordinal uuid.now) id) }
{
    told(
        snap::has_item(area, type_in(is_uuid, ordinal, uuid), id).map(flag),
        has,
    )
}

// Copies the data of an item of a type into the front of out; nothing if there is no such item. An empty part may mean a refusal: `has_item` tells.
#[tactic(auto, unfolding(boundary::specs::Boundary::item_into, boundary::specs::Boundary::part_into, definitions::specs::Stored::stored, definitions::specs::Types::typed_item_call))]
#[unsafe(no_mangle)]
pub extern "C" fn cef_snap_item(
    area: &[i32],
    is_uuid: u32,
    ordinal: u16,
    uuid: &[i32; 4],
    id: u16,
    out: &mut [i32],
    count: &mut usize,
) -> u32
    ensures value { result ≡ status (item_into (typed_item area.now (type_in is_uuid ordinal uuid.now) id) out.old).answer }
    ensures out_after { out.new ≡ (item_into (typed_item area.now (type_in is_uuid ordinal uuid.now) id) out.old).out }
    ensures count_after { count.new ≡ output (λ n. n) count.old (item_into (typed_item area.now (type_in is_uuid ordinal uuid.now) id) out.old).answer }
{
    let type_id = type_in(is_uuid, ordinal, uuid);
    let part = snap::item(area, type_id, id);
    if !part.is_empty() {
        return part_into(part, out, count);
    }
    match snap::has_item(area, type_id, id) {
        Ok(_) => part_into(part, out, count),
        Err(e) => u32::from(e),
    }
}

// Writes the empty table of a builder into the front of out.
#[unsafe(no_mangle)]
pub extern "C" fn cef_builder_new(out: &mut [i32], count: &mut usize) -> u32
    ensures value { result ≡ status (new_call out.old).answer }
    ensures out_after { out.new ≡ (new_call out.old).out }
    ensures count_after { count.new ≡ output (λ n. n) count.old (new_call out.old).answer }
{
    told(builder::new(out), count)
}

// Adds an item of a type to a builder's table.
#[unsafe(no_mangle)]
pub extern "C" fn cef_builder_add_item(
    area: &mut [i32],
    is_uuid: u32,
    ordinal: u16,
    uuid: &[i32; 4],
    id: u16,
    values: &[i32],
    count: &mut usize,
) -> u32
    ensures value { result ≡ status (builder_add_item_call area.old (type_in is_uuid ordinal uuid.now) id values.now).answer }
    ensures area_after { area.new ≡ (builder_add_item_call area.old (type_in is_uuid ordinal uuid.now) id values.now).out }
    ensures count_after { count.new ≡ output (λ n. n) count.old (builder_add_item_call area.old (type_in is_uuid ordinal uuid.now) id values.now).answer }
{
    let type_id = type_in(is_uuid, ordinal, uuid);
    told(builder::add_item(area, type_id, id, values), count)
}

// How many ints a builder's table takes.
#[unsafe(no_mangle)]
pub extern "C" fn cef_builder_finish(area: &[i32], count: &mut usize) -> u32
    ensures value { result ≡ status (finish_call area.now) }
    ensures count_after { count.new ≡ output (λ n. n) count.old (finish_call area.now) }
{
    told(builder::finish(area), count)
}
