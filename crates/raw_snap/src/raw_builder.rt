// Tables that are made item by item.
ghost use Rattle.std.specs.Prelude.{◌≡◌};
ghost use Rattle.definitions.specs.Tables.{key_of};
ghost use Rattle.definitions.specs.TableCalls.{add_item_call};
ghost use Rattle.format.specs.Answers.{stored_ints};

use format::Error;

// Adds an item at its place by key; a refused call leaves the area unchanged.
pub fn add_item(area: &mut [i32], raw_type_id: u16, id: u16, data: &[i32]) -> Result<usize, Error>
    ensures { add_item_call area.old (record { key = key_of raw_type_id id; values = «data».now }) ≡ record { answer = stored_ints result; out = area.new } }
{
    let Some(form) = table::checked::form(area) else {
        return Err(Error::NotInForm);
    };
    table_adding::checked::add(
        area,
        form.items,
        form.ints,
        format::key(raw_type_id, id),
        data,
    )
}
