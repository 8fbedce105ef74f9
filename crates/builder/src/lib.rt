// Tables with types, made item by item: kinds of 16 bytes get numbers from 4000 hex on.
#![tactic(auto)]

ghost use Rattle.std.specs.Prelude.{◌≡◌};
ghost use Rattle.definitions.specs.Builder.{new_call, builder_add_item_call, finish_call};
ghost use Rattle.format.specs.Answers.{stored_ints};
ghost use Rattle.snap.specs.Answers.{type_of};

use format::Error;
use snap::TypeId;

pub mod checked;

// Writes the empty table.
pub fn new(out: &mut [i32]) -> Result<usize, Error>
    ensures { new_call out.old ≡ record { answer = stored_ints result; out = out.new } }
{
    raw_snap::empty(out)
}

// Adds an item at its place by key. An item of a kind that is new to the table comes with the item that names the kind; that one stays, if it
// fits, even if the other is refused. Apart from that, a refused call leaves the area unchanged.
pub fn add_item(area: &mut [i32], type_id: TypeId, id: u16, data: &[i32]) -> Result<usize, Error>
    ensures { builder_add_item_call area.old (type_of type_id) id «data».now ≡ record { answer = stored_ints result; out = area.new } }
{
    let Some(table) = checked::judge_building(area) else {
        return Err(Error::NotInForm);
    };
    match type_id {
        TypeId::Ordinal(number) => checked::add_ordinal(
            area,
            table.items,
            table.ints,
            number,
            id,
            data,
        ),
        TypeId::Uuid(a, b, c, d) => checked::add_of_kind(
            area,
            table.items,
            table.ints,
            table.kinds,
            a,
            b,
            c,
            d,
            id,
            data,
        ),
    }
}

// How many ints the table takes.
pub fn finish(area: &[i32]) -> Result<usize, Error>
    ensures { finish_call area.now ≡ stored_ints result }
{
    let Some(table) = checked::judge_building(area) else {
        return Err(Error::NotInForm);
    };
    Ok(table.ints)
}
