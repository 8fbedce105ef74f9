// A delta's source is packed bytes or ints; the other slice is not looked at.
ghost use Rattle.std.specs.Prelude.{◌≡◌, true, List, [], ◌+◌, ◌≤◌, ℤ, length};
ghost use Rattle.std.proofs.Math.Option.{none};
ghost use Rattle.definitions.specs.Ints.{bits};
ghost use Rattle.definitions.specs.Outcome.{after};
ghost use Rattle.definitions.specs.DeltaReading.{is_end};
ghost use Rattle.laws.specs.WarningLaws as Laws;
ghost use Rattle.format.specs.Numbers.{number};
ghost use Rattle.delta_source.specs.Source.{source, size, from, Next, Skips, Copies, Heads, Updates, Headers, Judges};
ghost use Rattle.delta_source.specs.Steps.{size_of, head_of, HeadOf, padding_of, Numbers, HeaderOf};

use delta_form::checked::known_size;
use format::Error;
use packer::IntRead;
use packer::checked::missing;

// Reads the integer at a place.
pub fn next_int(bytes: &[u8], ints: &[i32], packed: bool, at: usize) -> Result<IntRead, Error>
    requires { at ≤ size (source packed bytes.now ints.now) }
    ensures { Next (source packed bytes.now ints.now) at result }
{
    if packed {
        return packer::checked::read_int(bytes, at);
    }
    packer::checked::read_plain_int(ints, at)
}

// Whether nothing is left.
pub fn at_end(bytes: &[u8], ints: &[i32], packed: bool, at: usize) -> bool
    requires { at ≤ size (source packed bytes.now ints.now) }
    ensures { result ≡ is_end (from (source packed bytes.now ints.now) at) }
{
    if packed {
        return bytes.len() <= at;
    }
    ints.len() <= at
}

// Why what was to be read is not there, with the packer's warnings counted up to there.
#[derive(Clone, Copy)]
pub struct Refusal {
    pub error: Error,
    pub overlong: usize,
}

// Integers that were skipped: the place after them, with the packer's warnings counted.
#[derive(Clone, Copy)]
pub struct Skip {
    pub next: usize,
    pub overlong: usize,
}

// Skips n packed integers. If the bytes end before the last of them, the error is the reason.
pub fn skip_packed(bytes: &[u8], start: usize, n: usize, error: Error) -> Result<Skip, Refusal>
    requires { start ≤ length bytes.now }
    ensures { (i : List ℤ) → Skips (source true bytes.now i) start n (number error) result }
{
    let mut at = start;
    let mut overlong: usize = 0;
    for _ in 0..n {
        let read = packer::checked::read_int(bytes, at);
        let Ok(int) = read else {
            return Err(Refusal {
                error: missing(read, error),
                overlong,
            });
        };
        overlong += ints::one_if(int.overlong);
        at = int.next;
    }
    Ok(Skip { next: at, overlong })
}

// Skips n integers, of which ints are not looked at. If the source ends before the last of them, the error is the reason.
pub fn skip_ints(
    bytes: &[u8],
    ints: &[i32],
    packed: bool,
    at: usize,
    n: usize,
    error: Error,
) -> Result<Skip, Refusal>
    requires { at ≤ size (source packed bytes.now ints.now) }
    ensures { Skips (source packed bytes.now ints.now) at n (number error) result }
{
    if packed {
        return skip_packed(bytes, at, n, error);
    }
    if ints.len() - at < n {
        return Err(Refusal { error, overlong: 0 });
    }
    Ok(Skip {
        next: at + n,
        overlong: 0,
    })
}

// Copies n packed integers, which are present, into out from a place on.
pub fn copy_packed(bytes: &[u8], start: usize, n: usize, out: &mut [i32], to: usize)
    requires { (start ≤ length bytes.now) × (to + n ≤ length out.old) }
    ensures { (i : List ℤ) → Copies (source true bytes.now i) start n to out.old out.new }
{
    let mut at = start;
    for i in 0..n {
        let Ok(int) = packer::checked::read_int(bytes, at) else {
            return;
        };
        out[to + i] = int.value;
        at = int.next;
    }
}

// Copies n integers, which are present, into out from a place on.
pub fn copy_ints(
    bytes: &[u8],
    ints: &[i32],
    packed: bool,
    at: usize,
    n: usize,
    out: &mut [i32],
    to: usize,
)
    requires { (at ≤ size (source packed bytes.now ints.now)) × (to + n ≤ length out.old) }
    ensures { Copies (source packed bytes.now ints.now) at n to out.old out.new }
{
    if packed {
        copy_packed(bytes, at, n, out, to);
        return;
    }
    if ints.len() - at < n {
        return;
    }
    ints::copy_into(out, to, &ints[at..at + n]);
}

// An update's key, how many differences it has, and where they begin.
#[derive(Clone, Copy)]
pub struct Head {
    pub key: i32,
    pub size: usize,
    pub start: usize,
    pub overlong: usize,
}

// Reads the head with this key, whose size is at a place; adds the warnings so far.
pub fn read_size(
    bytes: &[u8],
    ints: &[i32],
    packed: bool,
    at: usize,
    key: i32,
    overlong: usize,
) -> Result<Head, Refusal>
    requires { (at ≤ size (source packed bytes.now ints.now)) × (overlong ≤ 2) }
    ensures { HeadOf (source packed bytes.now ints.now) [] at (after (Laws.packed overlong) (size_of none (bits key) (from (source packed bytes.now ints.now) at))) result }
{
    let read = next_int(bytes, ints, packed, at);
    let Ok(int) = read else {
        return Err(Refusal {
            error: missing(read, Error::ItemDiffsUnpacking),
            overlong,
        });
    };
    let overlong = overlong + ints::one_if(int.overlong);
    let Ok(size) = usize::try_from(int.value) else {
        return Err(Refusal {
            error: Error::NegativeSize,
            overlong,
        });
    };
    Ok(Head {
        key,
        size,
        start: int.next,
        overlong,
    })
}

// Reads the head with this type and id, which end at a place; adds the warnings so far.
pub fn judge_head(
    bytes: &[u8],
    ints: &[i32],
    packed: bool,
    sizes: &[i32],
    at: usize,
    type_id: i32,
    id: i32,
    overlong: usize,
) -> Result<Head, Refusal>
    requires { (at ≤ size (source packed bytes.now ints.now)) × (overlong ≤ 2) }
    ensures { HeadOf (source packed bytes.now ints.now) sizes.now at (after (Laws.packed overlong) (head_of sizes.now type_id id (from (source packed bytes.now ints.now) at))) result }
{
    let Ok(t) = u16::try_from(type_id) else {
        return Err(Refusal {
            error: Error::TypeIdRange,
            overlong,
        });
    };
    let Ok(i) = u16::try_from(id) else {
        return Err(Refusal {
            error: Error::IdRange,
            overlong,
        });
    };
    let key = format::key(t, i);
    let known = known_size(sizes, usize::from(t));
    if 4294967296 <= known {
        return read_size(bytes, ints, packed, at, key, overlong);
    }
    Ok(Head {
        key,
        size: known,
        start: at,
        overlong,
    })
}

// Reads the head of the update at a place.
pub fn read_head(
    bytes: &[u8],
    ints: &[i32],
    packed: bool,
    sizes: &[i32],
    at: usize,
) -> Result<Head, Refusal>
    requires { at ≤ size (source packed bytes.now ints.now) }
    ensures { Heads (source packed bytes.now ints.now) sizes.now at result }
{
    let first = next_int(bytes, ints, packed, at);
    let Ok(type_id) = first else {
        return Err(Refusal {
            error: missing(first, Error::ItemDiffsUnpacking),
            overlong: 0,
        });
    };
    let overlong = ints::one_if(type_id.overlong);
    let second = next_int(bytes, ints, packed, type_id.next);
    let Ok(id) = second else {
        return Err(Refusal {
            error: missing(second, Error::ItemDiffsUnpacking),
            overlong,
        });
    };
    let overlong = overlong + ints::one_if(id.overlong);
    judge_head(
        bytes,
        ints,
        packed,
        sizes,
        id.next,
        type_id.value,
        id.value,
        overlong,
    )
}

// The same with the place after the update.
#[derive(Clone, Copy)]
pub struct Update {
    pub key: i32,
    pub size: usize,
    pub start: usize,
    pub next: usize,
    pub overlong: usize,
}

// Reads the update at a place.
pub fn read_update(
    bytes: &[u8],
    ints: &[i32],
    packed: bool,
    sizes: &[i32],
    at: usize,
) -> Result<Update, Refusal>
    requires { at ≤ size (source packed bytes.now ints.now) }
    ensures { Updates (source packed bytes.now ints.now) sizes.now at result }
{
    let head = read_head(bytes, ints, packed, sizes, at)?;
    match skip_ints(
        bytes,
        ints,
        packed,
        head.start,
        head.size,
        Error::ItemDiffsUnpacking,
    ) {
        Err(refusal) => Err(Refusal {
            overlong: head.overlong + refusal.overlong,
            ..refusal
        }),
        Ok(skip) => Ok(Update {
            key: head.key,
            size: head.size,
            start: head.start,
            next: skip.next,
            overlong: head.overlong + skip.overlong,
        }),
    }
}

// A delta's header: its two numbers, whether its padding is not 0, and where the deleted keys begin.
#[derive(Clone, Copy)]
pub struct Header {
    pub deleted: usize,
    pub updated: usize,
    pub odd: bool,
    pub next: usize,
    pub overlong: usize,
}

// A number of the header, and the place of the next one.
#[derive(Clone, Copy)]
pub struct Number {
    pub value: usize,
    pub next: usize,
    pub overlong: usize,
}

// Reads the number of the header at a place.
pub fn read_number(bytes: &[u8], ints: &[i32], packed: bool, at: usize) -> Result<Number, Refusal>
    requires { at ≤ size (source packed bytes.now ints.now) }
    ensures { Numbers (source packed bytes.now ints.now) at result }
{
    let read = next_int(bytes, ints, packed, at);
    let Ok(int) = read else {
        return Err(Refusal {
            error: missing(read, Error::UnexpectedEnd),
            overlong: 0,
        });
    };
    let overlong = ints::one_if(int.overlong);
    let Ok(value) = usize::try_from(int.value) else {
        return Err(Refusal {
            error: Error::IntOutOfRange,
            overlong,
        });
    };
    Ok(Number {
        value,
        next: int.next,
        overlong,
    })
}

// Reads the header with these two numbers, whose padding is at a place; adds the warnings so far.
pub fn read_padding(
    bytes: &[u8],
    ints: &[i32],
    packed: bool,
    at: usize,
    deleted: usize,
    updated: usize,
    overlong: usize,
) -> Result<Header, Refusal>
    requires { (at ≤ size (source packed bytes.now ints.now)) × (overlong ≤ 2) }
    ensures { HeaderOf (source packed bytes.now ints.now) (after (Laws.packed overlong) (padding_of deleted updated (from (source packed bytes.now ints.now) at))) result }
{
    let padding = next_int(bytes, ints, packed, at);
    let Ok(int) = padding else {
        return Err(Refusal {
            error: missing(padding, Error::UnexpectedEnd),
            overlong,
        });
    };
    Ok(Header {
        deleted,
        updated,
        odd: int.value != 0,
        next: int.next,
        overlong: overlong + ints::one_if(int.overlong),
    })
}

// Reads the header of a delta.
pub fn read_header(bytes: &[u8], ints: &[i32], packed: bool) -> Result<Header, Refusal>
    ensures { Headers (source packed bytes.now ints.now) result }
{
    let deleted = read_number(bytes, ints, packed, 0)?;
    match read_number(bytes, ints, packed, deleted.next) {
        Err(refusal) => Err(Refusal {
            overlong: deleted.overlong + refusal.overlong,
            ..refusal
        }),
        Ok(updated) => read_padding(
            bytes,
            ints,
            packed,
            updated.next,
            deleted.value,
            updated.value,
            deleted.overlong + updated.overlong,
        ),
    }
}

// How many updates there are, how many ints they take in an area, and the refusal that ends them, if any.
#[derive(Clone, Copy)]
pub struct Judged {
    pub updates: usize,
    pub room: usize,
    pub overlong: usize,
    pub ended: Result<(), Error>,
}

// Reads the updates from a place on, one after the other.
pub fn judge_updates(bytes: &[u8], ints: &[i32], packed: bool, sizes: &[i32], at: usize) -> Judged
    requires { at ≤ size (source packed bytes.now ints.now) }
    ensures { Judges (source packed bytes.now ints.now) sizes.now at result }
{
    let mut here = at;
    let mut t = Judged {
        updates: 0,
        room: 0,
        overlong: 0,
        ended: Ok(()),
    };
    // Where the next update begins is known only after a turn, so no range has the turns.
    while !at_end(bytes, ints, packed, here) {
        match read_update(bytes, ints, packed, sizes, here) {
            Err(refusal) => return Judged {
                overlong: t.overlong + refusal.overlong,
                ended: Err(refusal.error),
                ..t
            },
            Ok(update) => {
                here = update.next;
                t.updates += 1;
                t.room += 3 + update.size;
                t.overlong += update.overlong;
            }
        }
    }
    t
}
