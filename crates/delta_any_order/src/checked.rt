// Reads a delta by place: its front, then its updates, judged and counted, and then writes all of it in signed order of keys.
ghost use Rattle.std.specs.Prelude.{◌≡◌, false, not, List, [], ◌∷◌, map, ℕ, ◌+◌, ◌-◌, ◌≤◌, ◌<◌, ◌^◌, eqb, ℤ, pos, length};
ghost use Rattle.definitions.specs.Ints.{bits};
ghost use Rattle.definitions.specs.Areas.{lay_at};
ghost use Rattle.definitions.specs.Warnings.{Counts};
ghost use Rattle.definitions.specs.Outcome.{ok, err};
ghost use Rattle.definitions.specs.Tables.{Item};
ghost use Rattle.definitions.specs.DeltaReading.{delta_read, read_delta};
ghost use Rattle.definitions.specs.DeltaCalls.{stored_delta};
ghost use Rattle.format.specs.Numbers.{number};
ghost use Rattle.format.specs.Totals.{counts};
ghost use Rattle.format.specs.Answers.{stored_with};
ghost use Rattle.format.specs.Sources.{delta_counts};
ghost use Rattle.delta_source.specs.Source.{source, size, from};
ghost use Rattle.delta_entries.specs.Told.{Told};
ghost use Rattle.delta_any_order.specs.Fronts.{Fronts, Weighs, Laid};

use delta_entries::checked::{emit, tally};
use delta_index::checked::Tally;
use delta_source::checked::{Judged, judge_updates, read_header, skip_ints};
use format::{Error, Reading, Warnings};
use table::checked::{nat_at, put};

// The refusal of a delta before its updates, with the warnings up to there.
pub fn refused(error: Error, overlong: usize, odd: bool) -> Reading
    ensures { err (number error) (delta_counts overlong odd false 0 0 false) ≡ stored_with result.answer (counts result.warnings) }
{
    Reading {
        answer: Err(error),
        warnings: Warnings::delta(overlong, odd, false, 0, 0, false),
    }
}

// What is before the updates: the header's numbers, whether its padding is not 0, where the keys and the updates begin, and the packer's warnings.
#[derive(Clone, Copy)]
pub struct Front {
    pub deleted: usize,
    pub updated: usize,
    pub odd: bool,
    pub keys: usize,
    pub first: usize,
    pub overlong: usize,
}

// Writes the header of a delta area.
fn write_header(out: &mut [i32], deleted: usize, updated: usize)
    requires { (3 ≤ length out.old) × (deleted < 2 ^ 31) × (updated < 2 ^ 31) }
    ensures { out.new ≡ lay_at 0 (pos deleted ∷ pos updated ∷ pos 0 ∷ []) out.old }
{
    put(out, 0, deleted);
    put(out, 1, updated);
    put(out, 2, 0);
}

// The place after the n updates of an area from a place on.
fn updates_end(area: &[i32], start: usize, n: usize) -> usize
    requires { start ≤ length area.now }
    ensures { (end : ℕ) → Laid area.now start n end → result ≡ end }
{
    let mut at = start;
    for _ in 0..n {
        let size_place = at + 2;
        if area.len() <= size_place {
            return at;
        }
        at += 3 + nat_at(area, size_place);
    }
    at
}

// The warnings of a delta whose updates were judged and tallied.
fn counted(front: Front, judged: Judged, t: Tally, other: bool) -> Warnings
    requires { (front.overlong + judged.overlong < 2 ^ 32) × (t.updated ≤ judged.updates) }
    ensures { counts result ≡ delta_counts (front.overlong + judged.overlong) front.odd (not (eqb t.deleted front.deleted)) (judged.updates - t.updated) t.crossing other }
{
    Warnings::delta(
        front.overlong + judged.overlong,
        front.odd,
        t.deleted != front.deleted,
        judged.updates - t.updated,
        t.crossing,
        other,
    )
}

// Stores a delta that was read to its end into the front of out and returns the number of ints; repeated entries count towards the room.
fn store(
    bytes: &[u8],
    ints: &[i32],
    packed: bool,
    sizes: &[i32],
    front: Front,
    judged: Judged,
    t: Tally,
    index: &mut [i32],
    out: &mut [i32],
) -> Result<usize, Error>
    requires { (size (source packed bytes.now ints.now) ≤ 1048576) × Fronts (source packed bytes.now ints.now) front × Weighs (source packed bytes.now ints.now) sizes.now front judged.updates judged.room t }
    ensures { (values : List ℤ) (items : List Item) (w : Counts) → Told (source packed bytes.now ints.now) sizes.now front.keys front.deleted front.first judged.updates values items → stored_delta out.old (ok (delta_read (map bits values) items) w) ≡ record { answer = stored_with result w; out = out.new } }
{
    if out.len() < 3 + front.deleted + judged.room {
        return Err(Error::CapacityError);
    }
    write_header(out, t.deleted, t.updated);
    emit(
        bytes,
        ints,
        packed,
        sizes,
        front.keys,
        front.deleted,
        front.first,
        judged.updates,
        t.deleted,
        index,
        out,
    );
    Ok(updates_end(out, 3 + t.deleted, t.updated))
}

// Reads on after the front of a delta: judges and tallies its updates, and stores it unless one of them is refused.
fn read_behind(
    bytes: &[u8],
    ints: &[i32],
    packed: bool,
    sizes: &[i32],
    front: Front,
    index: &mut [i32],
    out: &mut [i32],
) -> Reading
    requires { (size (source packed bytes.now ints.now) ≤ 1048576) × Fronts (source packed bytes.now ints.now) front }
    ensures { stored_delta out.old (read_delta sizes.now (from (source packed bytes.now ints.now) 0)) ≡ record { answer = stored_with result.answer (counts result.warnings); out = out.new } }
{
    let judged = judge_updates(bytes, ints, packed, sizes, front.first);
    let t = tally(
        bytes,
        ints,
        packed,
        sizes,
        front.keys,
        front.deleted,
        front.first,
        judged.updates,
        index,
    );
    match judged.ended {
        Err(error) => Reading {
            answer: Err(error),
            warnings: counted(front, judged, t, false),
        },
        Ok(()) => Reading {
            answer: store(bytes, ints, packed, sizes, front, judged, t, index, out),
            warnings: counted(front, judged, t, judged.updates != front.updated),
        },
    }
}

// Reads a delta in any order of keys into the front of out; a refused one leaves out unchanged. The index may hold anything, before and after.
pub fn read_any(
    bytes: &[u8],
    ints: &[i32],
    packed: bool,
    sizes: &[i32],
    out: &mut [i32],
    index: &mut [i32],
) -> Reading
    requires { size (source packed bytes.now ints.now) ≤ 1048576 }
    ensures { stored_delta out.old (read_delta sizes.now (from (source packed bytes.now ints.now) 0)) ≡ record { answer = stored_with result.answer (counts result.warnings); out = out.new } }
{
    let header = match read_header(bytes, ints, packed) {
        Ok(header) => header,
        Err(refusal) => return refused(refusal.error, refusal.overlong, false),
    };
    match skip_ints(
        bytes,
        ints,
        packed,
        header.next,
        header.deleted,
        Error::DeletedItemsUnpacking,
    ) {
        Err(refusal) => refused(
            refusal.error,
            header.overlong + refusal.overlong,
            header.odd,
        ),
        Ok(skip) => {
            let front = Front {
                deleted: header.deleted,
                updated: header.updated,
                odd: header.odd,
                keys: header.next,
                first: skip.next,
                overlong: header.overlong + skip.overlong,
            };
            read_behind(bytes, ints, packed, sizes, front, index, out)
        }
    }
}
