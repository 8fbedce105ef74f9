// The calls on packed integers as C sees them. include/cefdugar.h documents them for C callers.
#![tactic(auto)]

ghost use Rattle.std.specs.Prelude.{◌≡◌};
ghost use Rattle.definitions.specs.Packer.{read_int_call, write_int_at, unpack_call};
ghost use Rattle.format.specs.Totals as Totals;
ghost use Rattle.boundary.specs.Boundary as Boundary;
ghost use Rattle.boundary.specs.Boundary.{status, warnings_of, output};

use boundary::checked::{flag, told};
use format::{WARNING_KINDS, Warnings, row, warned_row};

// Reads the packed integer at a place of src.
#[unsafe(no_mangle)]
pub extern "C" fn cef_read_int(
    src: &[u8],
    at: usize,
    value: &mut i32,
    next: &mut usize,
    warnings: &mut [usize; WARNING_KINDS],
) -> u32
    ensures value { result ≡ status (read_int_call src.now at) }
    ensures value_after { value.new ≡ output (λ x. x.value) value.old (read_int_call src.now at) }
    ensures next_after { next.new ≡ output (λ x. x.next) next.old (read_int_call src.now at) }
    ensures warnings_after { warnings.new ≡ Totals.row (warnings_of (read_int_call src.now at)) }
{
    *warnings = row(Warnings::none());
    match packer::read_int(src, at) {
        Ok(read) => {
            *value = read.value;
            *next = read.next;
            // The compiler omits this test for an integer of one byte.
            if read.overlong {
                *warnings = warned_row(true);
            }
            0
        }
        Err(e) => u32::from(e),
    }
}

// Writes the shortest form of value into out at a place.
#[unsafe(no_mangle)]
pub extern "C" fn cef_write_int(out: &mut [u8], at: usize, value: i32, next: &mut usize) -> u32
    ensures value { result ≡ status (write_int_at out.old at value).answer }
    ensures out_after { out.new ≡ (write_int_at out.old at value).out }
    ensures next_after { next.new ≡ output (λ n. n) next.old (write_int_at out.old at value).answer }
{
    told(packer::write_int(out, at, value), next)
}

// Unpacks all integers of src into the front of out.
#[unsafe(no_mangle)]
pub extern "C" fn cef_unpack(
    src: &[u8],
    out: &mut [i32],
    count: &mut usize,
    cut: &mut u32,
    warnings: &mut [usize; WARNING_KINDS],
) -> u32
    ensures value { result ≡ status (unpack_call src.now out.old).answer }
    ensures out_after { out.new ≡ (unpack_call src.now out.old).out }
    ensures count_after { count.new ≡ output (λ u. u.count) count.old (unpack_call src.now out.old).answer }
    ensures cut_after { cut.new ≡ output (λ u. Boundary.flag u.cut) cut.old (unpack_call src.now out.old).answer }
    ensures warnings_after { warnings.new ≡ Totals.row (warnings_of (unpack_call src.now out.old).answer) }
{
    let u = packer::unpack(src, out);
    *warnings = row(u.warnings);
    match u.answer {
        Ok(read) => {
            *count = read.count;
            *cut = flag(read.cut);
            0
        }
        Err(e) => u32::from(e),
    }
}
