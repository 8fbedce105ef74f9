// Signed 32-bit integers: their bits, wrapping sums, both orders, and slices of them.
#![tactic(auto)]

ghost use Rattle.std.specs.Prelude.{◌≡◌, ◌^◌, ◌≤◌, if◌then◌else◌};
ghost use Rattle.definitions.specs.Ints.{bits, from_bits, wrapping_add, wrapping_sub, signed_less, unsigned_less};
ghost use Rattle.definitions.specs.Ints as Ints;
ghost use Rattle.definitions.specs.Areas.{cleared};
ghost use Rattle.definitions.specs.Receiver.{same};
ghost use Rattle.definitions.specs.Tables as Tables;
ghost use Rattle.ints.specs.Copies.{copy_at};

pub mod checked;

// The bits of x.
pub fn to_bits(x: i32) -> u32
    ensures { result ≡ bits x }
{
    x.cast_unsigned()
}

// The int with the bits b.
pub fn from_bits(b: u32) -> i32
    ensures { result ≡ from_bits b }
{
    b.cast_signed()
}

// x as a count; a negative int gives 2^32, more than any count.
pub fn num(x: i32) -> usize
    ensures { (result ≡ Tables.num x) × (result ≤ 2 ^ 32) }
{
    if x < 0 { 4294967296 } else { x as usize }
}

// 1 if b holds, else 0.
pub fn one_if(b: bool) -> usize
    ensures { result ≡ (if b then 1 else 0) }
{
    usize::from(b)
}

// The sum modulo 2^32.
pub fn wrapping_add(a: i32, b: i32) -> i32
    ensures { result ≡ wrapping_add a b }
{
    a.wrapping_add(b)
}

// The difference modulo 2^32.
pub fn wrapping_sub(a: i32, b: i32) -> i32
    ensures { result ≡ wrapping_sub a b }
{
    a.wrapping_sub(b)
}

// Whether key a comes before key b in a walk of a table.
pub fn signed_less(a: i32, b: i32) -> bool
    ensures { result ≡ signed_less a b }
{
    a < b
}

// Whether key a comes before key b in a written table.
pub fn unsigned_less(a: i32, b: i32) -> bool
    ensures { result ≡ unsigned_less a b }
{
    to_bits(a) < to_bits(b)
}

// Whether two ints are equal.
pub fn same(a: i32, b: i32) -> bool
    ensures { result ≡ same a b }
{
    a == b
}

// The sum of all entries, modulo 2^32.
pub fn sum(xs: &[i32]) -> i32
    ensures { result ≡ Ints.sum xs.now }
{
    let mut total: i32 = 0;
    for x in xs {
        total = wrapping_add(total, *x);
    }
    total
}

// Copies xs into out from place at on. If xs does not fit, returns false and leaves out as it was.
pub fn copy_into(out: &mut [i32], at: usize, xs: &[i32]) -> bool
    ensures { copy_at out.old at xs.now ≡ record { fits = result; out = out.new } }
{
    if out.len() < at {
        return false;
    }
    if out.len() - at < xs.len() {
        return false;
    }
    out[at..at + xs.len()].copy_from_slice(xs);
    true
}

// Sets every entry of out to 0.
pub fn clear(out: &mut [i32])
    ensures { out.new ≡ cleared out.old }
{
    out.fill(0);
}
