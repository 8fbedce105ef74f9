// The items that an index picks from ints that hold a table, in unsigned key order.
ghost use Rattle.std.specs.Prelude.{◌≡◌, ◌-◌, ◌<◌, ◌≤◌, ◌^◌};
ghost use Rattle.definitions.specs.Tables.{find, is_some};
ghost use Rattle.types.specs.Picks.{Picks, key_in, values_of, item_of, table_in, seg, Lower, lacks_kind, any_lacks};
ghost use Rattle.types.specs.Kinds.{WholeUpTo};

use table::checked::search::first_not;
use table::checked::{bits_at, edge};

// The n items of a table of ints, in the order of an index.
#[derive(Clone, Copy)]
pub struct Picked<'a> {
    pub src: &'a [i32],
    pub n: usize,
    pub index: &'a [u16],
    ghost picks: { Picks src.now n index.now },
}

impl<'a> Picked<'a> {
    // The key of item j of the index.
    pub fn key_of(self, j: usize) -> usize
        requires { j < self.n }
        ensures { (result ≡ key_in self.entry.src.now self.entry.index.now j) × (result < 2 ^ 32) }
    {
        let item = self.index[j] as usize;
        bits_at(self.src, 2 + self.n + edge(self.src, self.n, item) / 4)
    }

    // The data of item j of the index, as a part of the ints.
    pub fn data_of(self, j: usize) -> &'a [i32]
        requires { j < self.n }
        ensures { result.now ≡ values_of self.entry.src.now self.entry.index.now j }
    {
        let item = self.index[j] as usize;
        let from = 2 + self.n + edge(self.src, self.n, item) / 4 + 1;
        let to = 2 + self.n + edge(self.src, self.n, item + 1) / 4;
        &self.src[from..to]
    }

    // How many items have keys below k, by binary search.
    pub fn lower(self, k: usize) -> usize
        ensures { Lower (key_in self.entry.src.now self.entry.index.now) self.entry.n k result }
    {
        first_not(self.n, |j| self.key_of(j) < k)
    }

    // Whether an item has the key k.
    pub fn has_key(self, k: usize) -> bool
        ensures { result ≡ is_some (find k (table_in self.entry.src.now self.entry.n self.entry.index.now)) }
    {
        let p = self.lower(k);
        p < self.n && self.key_of(p) == k
    }

    // Whether item j, which is not of type 0, has a kind that no item names.
    pub fn lacks_kind(self, j: usize) -> bool
        requires { j < self.n }
        ensures { result
            ≡ lacks_kind (table_in self.entry.src.now self.entry.n self.entry.index.now) (item_of self.entry.src.now self.entry.index.now j) }
    {
        let type_id = self.key_of(j) / 65536;
        type_id >= 16384 && !self.has_key(type_id)
    }

    // Whether one of the items from one place to another has a kind that no item names.
    pub fn any_lacks(self, from: usize, to: usize) -> bool
        requires { (from ≤ to) × (to ≤ self.n) }
        ensures { result
            ≡ any_lacks (table_in self.entry.src.now self.entry.n self.entry.index.now)
            (seg (item_of self.entry.src.now self.entry.index.now) from (to - from)) }
    {
        for j in from..to {
            if self.lacks_kind(j) {
                return true;
            }
        }
        false
    }

    // How many of the first z items have four ints or more, up to the first that does not.
    pub fn count_whole(self, z: usize) -> usize
        requires { z ≤ self.n }
        ensures { WholeUpTo self.entry.src.now self.entry.index.now self.entry.n z result }
    {
        for j in 0..z {
            if self.data_of(j).len() < 4 {
                return j;
            }
        }
        z
    }
}
