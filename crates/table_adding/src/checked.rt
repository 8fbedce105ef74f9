// Adding an item to the table of an area.
ghost use Rattle.std.specs.Prelude.{◌≡◌, map, ℕ, ◌+◌, ◌/◌, ◌<◌, ◌≤◌, ◌^◌, length};
ghost use Rattle.definitions.specs.Ints.{bits};
ghost use Rattle.definitions.specs.Areas.{lay};
ghost use Rattle.definitions.specs.Tables.{nat, items, count, size, insert, written};
ghost use Rattle.definitions.specs.TableReading.{add_item};
ghost use Rattle.definitions.specs.TableCalls.{stored_table};
ghost use Rattle.table_adding.specs.Adding.{raised, Room};
ghost use Rattle.format.specs.Answers.{stored_ints};
ghost use Rattle.table.specs.Held.{Held};

use format::Error;

// Adds by to each count of a part of the area.
pub fn raise(part: &mut [i32], by: usize)
    requires { (by < 2 ^ 31) × ((i : ℕ) → i < length part.old → nat part.old i + by < 2 ^ 31) }
    ensures { part.new ≡ map (raised by) part.old }
{
    for count in part.iter_mut() {
        *count = (ints::num(*count) + by) as i32;
    }
}

// Writes an item at place p among the n items; ints is the length of their table.
pub fn write_item(area: &mut [i32], n: usize, ints: usize, p: usize, key: i32, data: &[i32])
    requires { Room area.old n ints (bits key) p (length «data».now) }
    ensures { area.new ≡ lay (written (insert (record { key = bits key; values = «data».now }) (items area.old))) area.old }
{
    let more = data.len() + 1;
    let from = table::checked::start_at(area, n, p);
    // Room for the item's offset, key and data.
    ints::checked::shift(area, from, ints, more + 1);
    ints::checked::shift(area, 2 + p, from, 1);
    // The items after it begin further up.
    raise(&mut area[3 + p..3 + n], 4 * more);
    table::checked::put(area, 2 + p, 4 * (from - (2 + n)));
    area[from + 1] = key;
    ints::copy_into(&mut area[from + 2..from + 1 + more], 0, data);
    table::checked::put(area, 0, 4 * (ints - (2 + n) + more));
    table::checked::put(area, 1, n + 1);
}

// Adds an item to the n items of a table; ints is the table's length. A refused call leaves the area as it was.
pub fn add(area: &mut [i32], n: usize, ints: usize, key: i32, data: &[i32]) -> Result<usize, Error>
    requires { Held area.old n × (ints ≡ 2 + count area.old + size area.old / 4) }
    ensures { stored_table area.old (add_item (record { key = bits key; values = «data».now }) (items area.old)) ≡ record { answer = stored_ints result; out = area.new } }
{
    let p = table::checked::place(area, n, key);
    if p < n && table::checked::key_at(area, n, p) == key {
        return Err(Error::DuplicateKey);
    }
    if 1024 <= n {
        return Err(Error::TooManyItems);
    }
    let need = ints + (data.len() + 2);
    if 16384 < need {
        return Err(Error::TooLongSnap);
    }
    if area.len() < need {
        return Err(Error::CapacityError);
    }
    write_item(area, n, ints, p, key, data);
    Ok(need)
}
