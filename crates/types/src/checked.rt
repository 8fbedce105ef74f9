// The types of a table whose items an index picks from ints. They are sound if every type from 4000 hex up has an item of type 0 and each of
// these names a different kind.
ghost use Rattle.std.specs.Prelude.{◌≡◌, true, [], ℕ, ◌+◌, ◌-◌, ◌*◌, ◌/◌, ◌<◌, ◌≤◌, ◌^◌, length, get_or};
ghost use Rattle.definitions.specs.Outcome.{return};
ghost use Rattle.definitions.specs.Tables.{find, is_some, count, size, items};
ghost use Rattle.definitions.specs.Types.{typed, judge_types};
ghost use Rattle.table.specs.Held.{Held};
ghost use Rattle.sorting.specs.Pairs.{key, place, pair_at, pairs};
ghost use Rattle.types.specs.Picks.{item_of, table_in, seg};
ghost use Rattle.types.specs.Kinds.{half, keyed, Whole, Firsts, SortedPairs, Leader, Leaders, WholeUpTo, KindsFirst, halves};
ghost use Rattle.types.specs.Answers.{judged, judged_table};

use format::Error;
use picked::Picked;
use sorting::checked::{place_at, put_pair, sort};
use table::checked::{bits_at, key_at};
use table_reading::checked::place_items;

pub mod picked;

// Whether types are sound, or why they are refused; and how many items of type 0 had more than four ints, up to the refusal.
#[derive(Clone, Copy)]
pub struct Judged {
    pub types: Result<(), Error>,
    pub excess: usize,
}

// The i-th 16-bit half of some ints, the upper half of each int first.
pub fn half(data: &[i32], i: usize) -> usize
    requires { i / 2 < length «data».now }
    ensures { (result ≡ half «data».now i) × (result < 65536) }
{
    let bits = bits_at(data, i / 2);
    if i % 2 == 0 {
        bits / 65536
    } else {
        bits % 65536
    }
}

// Lists class and i-th half of each of the first m items, as one key with the item's number, as pairs.
pub fn list_halves(picked: Picked, m: usize, i: usize, classes: &[u16], list: &mut [i32])
    requires { Whole picked.src.now picked.index.now picked.n m × (i < 8) × (length classes.now ≡ 1024) × ((j : ℕ) → j < m → get_or classes.now j 0 ≤ j) × (length list.old ≡ 2048) }
    ensures { (pairs list.new m ≡ keyed (halves picked.entry.src.now picked.entry.index.now) classes.now i m) × ((j : ℕ) → j < m → halves picked.entry.src.now picked.entry.index.now j i < 65536) }
{
    for j in 0..m {
        let part = half(picked.data_of(j), i);
        let class = classes[j] as usize;
        let key = (class * 65536 + part) as i32;
        put_pair(list, j, key, j);
    }
}

// The key of pair i.
pub fn pair_key(list: &[i32], i: usize) -> usize
    requires { 2 * i + 1 < length list.now }
    ensures { result ≡ key (pair_at list.now i) }
{
    let place = bits_at(list, 2 * i);
    let key = bits_at(list, 2 * i + 1);
    (key * 4294967296 + place) / 4294967296
}

// The least place of the pairs with the key of pair i; before is that for the pair before it.
pub fn leader(list: &[i32], m: usize, i: usize, before: usize) -> usize
    requires { (2 * m ≤ length list.now) × (i < m) × SortedPairs (pair_at list.now) m × (0 < i → Leader (pair_at list.now) m (i - 1) before) }
    ensures { Leader (pair_at list.now) m i result }
{
    if i == 0 || pair_key(list, i) != pair_key(list, i - 1) {
        place_at(list, i)
    } else {
        before
    }
}

// Writes the least place of the pairs with the same key into classes, at each pair's place.
pub fn take_leaders(list: &[i32], m: usize, classes: &mut [u16])
    requires { (2 * m ≤ length list.now) × (m ≤ 1024) × (length classes.old ≡ 1024) × SortedPairs (pair_at list.now) m }
    ensures { Leaders (pair_at list.now) m m classes.new }
{
    let mut least = 0;
    for i in 0..m {
        least = leader(list, m, i, least);
        classes[place_at(list, i)] = least as u16;
    }
}

// Refines classes by the first i halves of each kind to classes by one more half.
pub fn refine(picked: Picked, m: usize, i: usize, classes: &mut [u16], list: &mut [i32])
    requires { Whole picked.src.now picked.index.now picked.n m × (i < 8) × (length classes.old ≡ 1024) × Firsts (halves picked.src.now picked.index.now) i m classes.old × (length list.old ≡ 2048) }
    ensures { Firsts (halves picked.entry.src.now picked.entry.index.now) (i + 1) m classes.new }
{
    list_halves(picked, m, i, classes, list);
    sort(list, m);
    take_leaders(list, m, classes);
}

// Whether each of the first m items is the first of its class.
pub fn all_first(classes: &[u16], m: usize) -> bool
    requires { (m ≤ 1024) × (length classes.now ≡ 1024) }
    ensures { result ≡ true → (j : ℕ) → j < m → get_or classes.now j 0 ≡ j }
{
    classes[..m]
        .iter()
        .enumerate()
        .all(|(j, class)| *class as usize == j)
}

// For each of the first m items, writes the first one of the same kind into classes, which holds zeros.
pub fn classify(picked: Picked, m: usize, classes: &mut [u16])
    requires { Whole picked.src.now picked.index.now picked.n m × (length classes.old ≡ 1024) × Firsts (halves picked.src.now picked.index.now) 0 m classes.old }
    ensures { Firsts (halves picked.entry.src.now picked.entry.index.now) 8 m classes.new }
{
    let mut list = [0i32; 2048];
    for i in 0..8 {
        refine(picked, m, i, classes, &mut list);
        if all_first(classes, m) {
            return;
        }
    }
}

// Whether the first z items, all of type 0, name different kinds. The first m of them are whole, and classes has their classes.
pub fn walk_kinds(picked: Picked, z: usize, m: usize, classes: &[u16]) -> Judged
    requires { KindsFirst picked.src.now picked.index.now picked.n z × WholeUpTo picked.src.now picked.index.now picked.n z m × (length classes.now ≡ 1024) × Firsts (halves picked.src.now picked.index.now) 8 m classes.now }
    ensures { judge_types (table_in picked.entry.src.now picked.entry.n picked.entry.index.now) [] (seg (item_of picked.entry.src.now picked.entry.index.now) 0 z) ≡ judged result }
{
    let mut excess = 0;
    for j in 0..m {
        excess += ints::one_if(4 < picked.data_of(j).len());
        if classes[j] as usize != j {
            return Judged {
                types: Err(Error::DuplicateUuidType),
                excess,
            };
        }
    }
    if m < z {
        return Judged {
            types: Err(Error::InvalidUuidType),
            excess,
        };
    }
    Judged {
        types: Ok(()),
        excess,
    }
}

// Whether the first z items, all of type 0, name different kinds.
pub fn judge_kinds(picked: Picked, z: usize) -> Judged
    requires { KindsFirst picked.src.now picked.index.now picked.n z }
    ensures { judge_types (table_in picked.entry.src.now picked.entry.n picked.entry.index.now) [] (seg (item_of picked.entry.src.now picked.entry.index.now) 0 z) ≡ judged result }
{
    let mut classes = [0u16; 1024];
    let m = picked.count_whole(z);
    classify(picked, m, &mut classes);
    walk_kinds(picked, z, m, &classes)
}

// Whether the types of a table are sound, judged in signed key order.
pub fn judge(picked: Picked) -> Judged
    ensures { typed (table_in picked.entry.src.now picked.entry.n picked.entry.index.now) ≡ judged_table (table_in picked.entry.src.now picked.entry.n picked.entry.index.now) result }
{
    let high = picked.lower(2147483648);
    let z = picked.lower(65536);
    if picked.any_lacks(high, picked.n) {
        return Judged {
            types: Err(Error::MissingUuidType),
            excess: 0,
        };
    }
    let kinds = judge_kinds(picked, z);
    if kinds.types.is_ok() && picked.any_lacks(z, high) {
        return Judged {
            types: Err(Error::MissingUuidType),
            excess: kinds.excess,
        };
    }
    kinds
}

// The same for a table in form of n items and the given number of ints, by an index of its items.
fn judge_index(area: &[i32], n: usize, ints: usize) -> Judged
    requires { Held area.now n × (ints ≡ 2 + count area.now + size area.now / 4) }
    ensures { typed (items area.now) ≡ judged_table (items area.now) result }
{
    let mut index = [0u16; 1024];
    if let Err(e) = place_items(area, n, ints - (2 + n), &mut index) {
        return Judged {
            types: Err(e),
            excess: 0,
        };
    }
    judge(Picked {
        src: area,
        n,
        index: &index,
    })
}

// Whether all types of a table in form are numbers, by its first and last key.
fn all_ordinal(area: &[i32], n: usize) -> bool
    requires { Held area.now n }
    ensures { result ≡ true → typed (items area.now) ≡ return (items area.now) }
{
    if n == 0 {
        return true;
    }
    if ints::to_bits(key_at(area, n, 0)) < 65536 {
        return false;
    }
    ints::to_bits(key_at(area, n, n - 1)) < 1073741824
}

// Whether the types of a table in form, of n items and the given number of ints, are sound.
pub fn judge_form(area: &[i32], n: usize, ints: usize) -> Judged
    requires { Held area.now n × (ints ≡ 2 + count area.now + size area.now / 4) }
    ensures { typed (items area.now) ≡ judged_table (items area.now) result }
{
    if all_ordinal(area, n) {
        return Judged {
            types: Ok(()),
            excess: 0,
        };
    }
    judge_index(area, n, ints)
}
