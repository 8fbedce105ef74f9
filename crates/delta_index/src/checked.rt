// Sorted pairs of a rank and a place: a deleted key has place 0, an update the place where it begins.
ghost use Rattle.std.specs.Prelude.{◌≡◌, not, map, ◌+◌, ◌*◌, ◌≤◌, ◌<◌, ◌^◌, length, drop};
ghost use Rattle.definitions.specs.Ints.{from_bits};
ghost use Rattle.definitions.specs.Areas.{lay_at};
ghost use Rattle.definitions.specs.Deltas as Deltas;
ghost use Rattle.sorting.specs.Pairs.{key, pair_at, pairs};
ghost use Rattle.delta_index.specs.Entries.{first_has, deleted_once, last_updates, crossing, key_int};

use ints::{from_bits, one_if};
use sorting::checked::{key_at, place_at};

// The numbers of different deleted keys, different keys of updates, and updates of deleted keys.
#[derive(Clone, Copy)]
pub struct Tally {
    pub deleted: usize,
    pub updated: usize,
    pub crossing: usize,
}

// Whether the pair after pair i, of n, has another key or does not exist.
pub fn is_last(index: &[i32], n: usize, i: usize) -> bool
    requires { (2 * n ≤ length index.now) × (i < n) }
    ensures { result ≡ not (first_has (key (pair_at index.now i)) (drop (i + 1) (pairs index.now n))) }
{
    let j = i + 1;
    if n <= j {
        return true;
    }
    key_at(index, i) != key_at(index, j)
}

// The int with the given rank.
pub fn int_at(rank: usize) -> i32
    requires { rank < 2 ^ 32 }
    ensures { result ≡ from_bits (Deltas.rank rank) }
{
    let bits = (rank + 2147483648) % 4294967296;
    from_bits(bits as u32)
}

// The tally of the first n pairs.
pub fn tally_pairs(index: &[i32], n: usize) -> Tally
    requires { 2 * n ≤ length index.now }
    ensures { (result.deleted ≡ length (deleted_once 0 (pairs index.now n))) × (result.updated ≡ length (last_updates (pairs index.now n))) × (result.crossing ≡ crossing 0 (pairs index.now n)) }
{
    let mut deleted: usize = 0;
    let mut updated: usize = 0;
    let mut across: usize = 0;
    let mut d: usize = 0;
    for i in 0..n {
        let next = key_at(index, i) + 1;
        let known = d == next;
        if place_at(index, i) == 0 {
            deleted += one_if(!known);
            d = next;
        } else {
            let last = is_last(index, n, i);
            updated += one_if(last);
            across += one_if(known);
        }
    }
    Tally {
        deleted,
        updated,
        crossing: across,
    }
}

// Writes each deleted key of the first n pairs once, from a place on. Returns the place after them.
pub fn write_deleted(index: &[i32], n: usize, out: &mut [i32], at: usize) -> usize
    requires { (2 * n ≤ length index.now) × (at + length (deleted_once 0 (pairs index.now n)) ≤ length out.old) }
    ensures { (result ≡ at + length (deleted_once 0 (pairs index.now n))) × (out.new ≡ lay_at at (map key_int (deleted_once 0 (pairs index.now n))) out.old) }
{
    let mut w = at;
    let mut d: usize = 0;
    for i in 0..n {
        let rank = key_at(index, i);
        let next = rank + 1;
        if place_at(index, i) == 0 && d != next {
            d = next;
            out[w] = int_at(rank);
            w += 1;
        }
    }
    w
}
