// The form of a builder's table, and adding to it.
ghost use Rattle.std.specs.Prelude.{◌≡◌, ◌∷◌, [], ◌+◌, ◌/◌, ◌≤◌, length};
ghost use Rattle.std.proofs.Math.Option.{none};
ghost use Rattle.definitions.specs.Tables.{items, count, size};
ghost use Rattle.definitions.specs.Types.{Ordinal, Uuid};
ghost use Rattle.definitions.specs.Builder.{add_of_kind};
ghost use Rattle.format.specs.Answers.{stored_ints};
ghost use Rattle.table.specs.Held.{Held};
ghost use Rattle.builder.specs.Building.{Runs, Built, Built-as, added_as, RefusesAs};

use format::Error;
use snap::checked::kind_number;
use table::checked::{data_at, form, key_at};
use table_adding::checked::add;
use types::checked::judge_form;

// How many kinds there are if their items run from id 4000 hex on without a gap, four ints each.
pub fn count_kinds(area: &[i32], n: usize) -> Option<usize>
    requires { Held area.now n }
    ensures { Runs (items area.now) result }
{
    for j in 0..n {
        let key = ints::to_bits(key_at(area, n, j)) as usize;
        if 65536 <= key {
            return Some(j);
        }
        if key != 16384 + j {
            return None;
        }
        if data_at(area, n, j).len() != 4 {
            return None;
        }
    }
    Some(n)
}

// A builder's table: its items, the ints that it takes, and its kinds.
#[derive(Clone, Copy)]
pub struct Building {
    pub items: usize,
    pub ints: usize,
    pub kinds: usize,
}

// The builder's table that an area holds, if it holds one.
pub fn judge_building(area: &[i32]) -> Option<Building>
    ensures { Built area.now result }
{
    let form = form(area)?;
    let kinds = count_kinds(area, form.items)?;
    if judge_form(area, form.items, form.ints).types.is_err() {
        return None;
    }
    Some(Building {
        items: form.items,
        ints: form.ints,
        kinds,
    })
}

// Adds an item whose type is a number.
pub fn add_ordinal(
    area: &mut [i32],
    n: usize,
    ints: usize,
    number: u16,
    id: u16,
    data: &[i32],
) -> Result<usize, Error>
    requires { Held area.old n × (ints ≡ 2 + count area.old + size area.old / 4) }
    ensures { added_as area.old (Ordinal number) id «data».now ≡ record { answer = stored_ints result; out = area.new } }
{
    if number == 0 || number >= 16384 {
        return Err(Error::InvalidTypeId);
    }
    add(area, n, ints, format::key(number, id), data)
}

// Why an item is refused in a table of n items and so many ints if the area has no room for it.
pub fn refuse_without_room(n: usize, ints: usize, data: &[i32]) -> Error
    requires { ints ≤ 16384 }
    ensures { RefusesAs n ints (length «data».now) result }
{
    if 1024 <= n {
        return Error::TooManyItems;
    }
    if 16384 < ints + (data.len() + 2) {
        return Error::TooLongSnap;
    }
    Error::CapacityError
}

// Adds the item that names a kind, which has no number yet, and then an item of that kind; if the first has no room, the other is judged
// all the same, and nothing is written.
pub fn add_with_kind(
    area: &mut [i32],
    n: usize,
    ints: usize,
    kinds: usize,
    kind: &[i32],
    id: u16,
    data: &[i32],
) -> Result<usize, Error>
    requires { Built-as area.old n ints kinds }
    ensures { add_of_kind area.old (items area.old) none kind.now id «data».now ≡ record { answer = stored_ints result; out = area.new } }
{
    let number = (16384 + kinds) as u16;
    let first = add(area, n, ints, format::key(0, number), kind);
    match first {
        Ok(total) => add(area, n + 1, total, format::key(number, id), data),
        Err(e) => match e {
            Error::CapacityError => {
                Err(refuse_without_room(n + 1, ints + (kind.len() + 2), data))
            }
            _ => Err(e),
        },
    }
}

// Adds an item of a kind.
pub fn add_of_kind(
    area: &mut [i32],
    n: usize,
    ints: usize,
    kinds: usize,
    a: i32,
    b: i32,
    c: i32,
    d: i32,
    id: u16,
    data: &[i32],
) -> Result<usize, Error>
    requires { Built-as area.old n ints kinds }
    ensures { added_as area.old (Uuid (a ∷ b ∷ c ∷ d ∷ [])) id «data».now ≡ record { answer = stored_ints result; out = area.new } }
{
    if let Some(number) = kind_number(area, n, a, b, c, d) {
        return add(area, n, ints, format::key(number, id), data);
    }
    let kind = [a, b, c, d];
    add_with_kind(area, n, ints, kinds, &kind, id, data)
}
