// The calls on deltas, and on the differences of single items, as C sees them.
#![tactic(auto)]

ghost use Rattle.std.specs.Prelude.{◌≡◌, length};
ghost use Rattle.definitions.specs.Areas.{cleared};
ghost use Rattle.definitions.specs.DeltaCalls.{clear_call, create_call, create_clash, write_to_ints_call, write_call, read_from_ints_call, read_call, create_item_delta_call, apply_item_delta_call};
ghost use Rattle.format.specs.Totals as Totals;
ghost use Rattle.boundary.specs.Boundary.{status, warnings_of, output, key_or, given};

use boundary::checked::{told, told_reading};
use delta_making::MakeError;
use format::{Error, WARNING_KINDS};

// Writes the empty delta into the front of out.
#[unsafe(no_mangle)]
pub extern "C" fn cef_delta_clear(out: &mut [i32], count: &mut usize) -> u32
    ensures value { result ≡ status (clear_call out.old).answer }
    ensures out_after { out.new ≡ (clear_call out.old).out }
    ensures count_after { count.new ≡ output (λ n. n) count.old (clear_call out.old).answer }
{
    told(delta::clear(out), count)
}

// Writes the delta from a base to a target into the front of out; if items of one key differ in length, sets clash to the least such key,
// read as unsigned.
#[unsafe(no_mangle)]
pub extern "C" fn cef_delta_create(
    base: &[i32],
    target: &[i32],
    out: &mut [i32],
    count: &mut usize,
    clash: &mut i32,
) -> u32
    ensures value { result ≡ status (create_call base.now target.now out.old).answer }
    ensures out_after { out.new ≡ (create_call base.now target.now out.old).out }
    ensures count_after { count.new ≡ output (λ n. n) count.old (create_call base.now target.now out.old).answer }
    ensures clash_after { clash.new ≡ key_or clash.old (create_clash base.now target.now out.old) }
{
    match delta::create(base, target, out) {
        Ok(n) => {
            *count = n;
            0
        }
        Err(MakeError::DifferingSizes(key)) => {
            *clash = key;
            u32::from(Error::DeltaDifferingSizes)
        }
        Err(MakeError::Refused(e)) => u32::from(e),
    }
}

// Writes a delta's ints under known sizes into the front of out.
#[unsafe(no_mangle)]
pub extern "C" fn cef_delta_write_to_ints(
    area: &[i32],
    sizes: &[i32],
    out: &mut [i32],
    count: &mut usize,
) -> u32
    ensures value { result ≡ status (write_to_ints_call area.now sizes.now out.old).answer }
    ensures out_after { out.new ≡ (write_to_ints_call area.now sizes.now out.old).out }
    ensures count_after { count.new ≡ output (λ n. n) count.old (write_to_ints_call area.now sizes.now out.old).answer }
{
    told(delta::write_to_ints(area, sizes, out), count)
}

// Packs a delta under known sizes into the front of out.
#[unsafe(no_mangle)]
pub extern "C" fn cef_delta_write(
    area: &[i32],
    sizes: &[i32],
    out: &mut [u8],
    count: &mut usize,
) -> u32
    ensures value { result ≡ status (write_call area.now sizes.now out.old).answer }
    ensures out_after { out.new ≡ (write_call area.now sizes.now out.old).out }
    ensures count_after { count.new ≡ output (λ n. n) count.old (write_call area.now sizes.now out.old).answer }
{
    told(delta::write(area, sizes, out), count)
}

// Reads a delta from ints under known sizes into the front of out.
#[unsafe(no_mangle)]
pub extern "C" fn cef_delta_read_from_ints(
    src: &[i32],
    sizes: &[i32],
    out: &mut [i32],
    scratch: &mut [i32],
    count: &mut usize,
    warnings: &mut [usize; WARNING_KINDS],
) -> u32
    ensures value { result ≡ status (read_from_ints_call src.now sizes.now out.old (length scratch.old)).answer }
    ensures out_after { out.new ≡ (read_from_ints_call src.now sizes.now out.old (length scratch.old)).out }
    ensures scratch_after { scratch.new ≡ cleared scratch.old }
    ensures count_after { count.new ≡ output (λ n. n) count.old (read_from_ints_call src.now sizes.now out.old (length scratch.old)).answer }
    ensures warnings_after { warnings.new ≡ Totals.row (warnings_of (read_from_ints_call src.now sizes.now out.old (length scratch.old)).answer) }
{
    told_reading(
        delta::read_from_ints(src, sizes, out, scratch),
        count,
        warnings,
    )
}

// Reads a packed delta under known sizes into the front of out.
#[unsafe(no_mangle)]
pub extern "C" fn cef_delta_read(
    src: &[u8],
    sizes: &[i32],
    out: &mut [i32],
    scratch: &mut [i32],
    count: &mut usize,
    warnings: &mut [usize; WARNING_KINDS],
) -> u32
    ensures value { result ≡ status (read_call src.now sizes.now out.old (length scratch.old)).answer }
    ensures out_after { out.new ≡ (read_call src.now sizes.now out.old (length scratch.old)).out }
    ensures scratch_after { scratch.new ≡ cleared scratch.old }
    ensures count_after { count.new ≡ output (λ n. n) count.old (read_call src.now sizes.now out.old (length scratch.old)).answer }
    ensures warnings_after { warnings.new ≡ Totals.row (warnings_of (read_call src.now sizes.now out.old (length scratch.old)).answer) }
{
    told_reading(delta::read(src, sizes, out, scratch), count, warnings)
}

// Writes the differences of an item's data from the base's data, if there is any, into the front of out.
#[unsafe(no_mangle)]
pub extern "C" fn cef_create_item_delta(
    has_from: u32,
    from: &[i32],
    to: &[i32],
    out: &mut [i32],
    count: &mut usize,
) -> u32
    ensures value { result ≡ status (create_item_delta_call (given has_from from.now) to.now out.old).answer }
    ensures out_after { out.new ≡ (create_item_delta_call (given has_from from.now) to.now out.old).out }
    ensures count_after { count.new ≡ output (λ n. n) count.old (create_item_delta_call (given has_from from.now) to.now out.old).answer }
{
    told(
        format::create_item_delta(has_from != 0, from, to, out),
        count,
    )
}

// Writes an item's data, from its differences and the base's data, if there is any, into the front of out.
#[unsafe(no_mangle)]
pub extern "C" fn cef_apply_item_delta(
    has_from: u32,
    from: &[i32],
    delta: &[i32],
    out: &mut [i32],
    count: &mut usize,
) -> u32
    ensures value { result ≡ status (apply_item_delta_call (given has_from from.now) delta.now out.old).answer }
    ensures out_after { out.new ≡ (apply_item_delta_call (given has_from from.now) delta.now out.old).out }
    ensures count_after { count.new ≡ output (λ n. n) count.old (apply_item_delta_call (given has_from from.now) delta.now out.old).answer }
{
    told(
        format::apply_item_delta(has_from != 0, from, delta, out),
        count,
    )
}
