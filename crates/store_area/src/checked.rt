// Store areas: the check of their form, the tables in them, and how tables are dropped and added.
ghost use Rattle.std.specs.Prelude.{◌≡◌, ◌∷◌, ◌+◌, ◌<◌, ◌≤◌, length, take, drop};
ghost use Rattle.definitions.specs.Tables.{Table, written};
ghost use Rattle.definitions.specs.Storage.{snaps_of, newest_tick, drop_older, all_zero};
ghost use Rattle.laws.specs.StoreForm.{store_room, LaidIn};
ghost use Rattle.store_area.specs.Held.{form_of, size_of, first_table, snaps_in, snap_at, HeldStore, Leaves, place_of};

use ticks::Tick;

// The tables that are left: how many, and how many ints they take.
#[derive(Clone, Copy)]
pub struct Left {
    pub count: usize,
    pub ints: usize,
}

// How many ints the table at a place takes, if its tick, its int count and the table itself are there; else 0.
fn table_size(area: &[i32], p: usize) -> usize
    requires { p ≤ length area.now }
    ensures { result ≡ size_of (first_table (drop p area.now)) }
{
    if area.len() - p < 2 {
        return 0;
    }
    let from = p + 2;
    let size = table::checked::nat_at(area, p + 1);
    if area.len() - from < size {
        return 0;
    }
    let Some(form) = table::checked::form(&area[from..from + size]) else {
        return 0;
    };
    if form.ints == size {
        return size;
    }
    0
}

// Whether the ints from a place on are all 0. The loop has no early exit, so that the compiler can test several ints at once.
fn zeros(area: &[i32], from: usize) -> bool
    ensures { result ≡ all_zero (drop from area.now) }
{
    let mut all = true;
    for i in from..area.len() {
        all &= table::checked::nat_at(area, i) == 0;
    }
    all
}

// Checks the form of an area with so many tables, and then zeros; returns how many ints the tables take.
pub fn form(area: &[i32], count: usize) -> Option<usize>
    ensures { result ≡ form_of (snaps_of count area.now) }
{
    let mut p = 0;
    for _ in 0..count {
        let size = table_size(area, p);
        if size == 0 {
            return None;
        }
        p += 2 + size;
    }
    if zeros(area, p) {
        return Some(p);
    }
    None
}

// The place of the i-th of so many tables, the newest first, or the place after the last.
fn place(area: &[i32], count: usize, i: usize) -> usize
    requires { HeldStore area.now count × (i ≤ count) }
    ensures { result ≡ place_of (snaps_in count area.now) i }
{
    let mut p = 0;
    for _ in 0..i {
        p += 2 + table::checked::nat_at(area, p + 1);
    }
    p
}

// How many ints the newest tables take; left says how many of them.
pub fn used(area: &[i32], count: usize, left: usize) -> usize
    requires { HeldStore area.now count × (left ≤ count) }
    ensures { result ≡ store_room (take left (snaps_in count area.now)) }
{
    place(area, count, left)
}

// The tick of the i-th table, the newest first.
pub fn tick_at(area: &[i32], count: usize, i: usize) -> Tick
    requires { HeldStore area.now count × (i < count) }
    ensures { result.0 ≡ (snap_at (snaps_in count area.now) i).tick }
{
    let p = place(area, count, i);
    Tick(area[p])
}

// The tick of the newest table, or -1 if there is none.
pub fn newest_tick(area: &[i32], count: usize) -> Tick
    requires { HeldStore area.now count }
    ensures { result.0 ≡ newest_tick (snaps_in count area.now) }
{
    if count == 0 {
        return Tick(-1);
    }
    tick_at(area, count, 0)
}

// The i-th table, the newest first, as a part of the area.
pub fn table_at(area: &[i32], count: usize, i: usize) -> &[i32]
    requires { HeldStore area.now count × (i < count) }
    ensures { result.now ≡ written (snap_at (snaps_in count area.now) i).snap }
{
    let p = place(area, count, i);
    let from = p + 2;
    let size = table::checked::nat_at(area, p + 1);
    &area[from..from + size]
}

// How many tables are before the first one that is older than a tick.
fn count_newer(area: &[i32], count: usize, tick: Tick) -> usize
    requires { HeldStore area.now count }
    ensures { (result ≤ count) × (drop_older tick.0 (snaps_in count area.now) ≡ take result (snaps_in count area.now)) }
{
    let mut p = 0;
    for i in 0..count {
        let held = Tick(area[p]);
        if held.is_before(tick) {
            return i;
        }
        p += 2 + table::checked::nat_at(area, p + 1);
    }
    count
}

// Keeps the newest tables and clears the others; returns how many ints they take. ints is how many all tables take.
pub fn cut(area: &mut [i32], count: usize, ints: usize, left: usize) -> usize
    requires { HeldStore area.old count × (ints ≡ store_room (snaps_in count area.old)) × (left ≤ count) }
    ensures { Leaves area.old (take left (snaps_in count area.old)) left result area.new }
{
    let from = place(area, count, left);
    ints::clear(&mut area[from..ints]);
    from
}

// Drops the first table that is older than a tick, and all after it.
pub fn drop_older(area: &mut [i32], count: usize, ints: usize, tick: Tick) -> Left
    requires { HeldStore area.old count × (ints ≡ store_room (snaps_in count area.old)) }
    ensures { Leaves area.old (drop_older tick.0 (snaps_in count area.old)) result.count result.ints area.new }
{
    let left = count_newer(area, count, tick);
    let kept = cut(area, count, ints, left);
    Left {
        count: left,
        ints: kept,
    }
}

// Adds a table, which takes up its whole slice, as the newest: moves the tables held up as one block, and writes the tick, the
// int count and the ints of the new table before them. ints is how many the tables held take.
pub fn push(area: &mut [i32], count: usize, ints: usize, tick: Tick, table: &[i32])
    requires { HeldStore area.old count × (ints ≡ store_room (snaps_in count area.old))
        × (ints + (length table.now + 2) ≤ length area.old) × (length table.now ≤ 16384) }
    ensures { (t : Table) → table.now ≡ written t → LaidIn (length area.old) (record { tick = tick.0; snap = t } ∷ snaps_in count area.old) area.new }
{
    ints::checked::shift(area, 0, ints, table.len() + 2);
    let number = tick.0;
    area[0] = number;
    table::checked::put(area, 1, table.len());
    ints::copy_into(area, 2, table);
}
