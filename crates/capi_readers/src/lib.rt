// The readers' calls as C sees them. include/cefdugar.h documents them for C callers.
#![tactic(auto)]

ghost use Rattle.std.specs.Prelude.{◌≡◌};
ghost use Rattle.definitions.specs.Packer.{read_int_call};
ghost use Rattle.definitions.specs.Readers.{plain_int_call};
ghost use Rattle.capi_readers.specs.Standing.{kept, Stands};
ghost use Rattle.format.specs.Totals as Totals;
ghost use Rattle.boundary.specs.Boundary as Boundary;
ghost use Rattle.boundary.specs.Boundary.{refusal, status, warnings_of, output};

use boundary::checked::{flag, told};
use format::{Error, WARNING_KINDS, Warnings, row, warned_row};
use packer::ReaderAnswer;

// Sets the outputs for the position of a reader. They are unchanged if there are too many entries to read (42).
fn put_standing(r: ReaderAnswer, next: &mut usize, left: &mut usize, empty: &mut u32)
    ensures { (next.new ≡ kept (refusal r.read) next.old r.at) × ((left.new ≡ kept (refusal r.read) left.old r.left) × (empty.new ≡ kept (refusal r.read) empty.old (Boundary.flag r.empty))) }
{
    if let Err(Error::InputTooLong) = r.read {
        return;
    }
    *next = r.at;
    *left = r.left;
    *empty = flag(r.empty);
}

// The answer of a reader over packed bytes at a place of src. If the bytes end there or padding bits are set, only value is unchanged.
#[unsafe(no_mangle)]
pub extern "C" fn cef_unpacker_read_int(
    src: &[u8],
    at: usize,
    value: &mut i32,
    next: &mut usize,
    left: &mut usize,
    empty: &mut u32,
    warnings: &mut [usize; WARNING_KINDS],
) -> u32
    ensures value { result ≡ status (read_int_call src.now at) }
    ensures value_after { value.new ≡ output (λ x. x.value) value.old (read_int_call src.now at) }
    ensures stands { Stands (read_int_call src.now at) src.now at next.old left.old empty.old next.new left.new empty.new }
    ensures warnings_after { warnings.new ≡ Totals.row (warnings_of (read_int_call src.now at)) }
{
    let r = packer::read_bytes(src, at);
    put_standing(r, next, left, empty);
    match r.read {
        Ok(read) => {
            *value = read.value;
            *warnings = warned_row(read.overlong);
            0
        }
        Err(e) => {
            *warnings = row(Warnings::none());
            u32::from(e)
        }
    }
}

// The answer of a reader over ints at a place of src. If the ints end there, only value is unchanged.
#[unsafe(no_mangle)]
pub extern "C" fn cef_int_unpacker_read_int(
    src: &[i32],
    at: usize,
    value: &mut i32,
    next: &mut usize,
    left: &mut usize,
    empty: &mut u32,
) -> u32
    ensures value { result ≡ status (plain_int_call src.now at) }
    ensures value_after { value.new ≡ output (λ x. x.value) value.old (plain_int_call src.now at) }
    ensures stands { Stands (plain_int_call src.now at) src.now at next.old left.old empty.old next.new left.new empty.new }
{
    let r = packer::read_ints(src, at);
    put_standing(r, next, left, empty);
    told(r.read.map(|read| read.value), value)
}
