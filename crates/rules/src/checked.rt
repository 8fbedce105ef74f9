// The search for the winner, in an area whose form was tested.
ghost use Rattle.std.specs.Prelude.{◌≡◌, Ok};
ghost use Rattle.definitions.specs.DeltaReading.{elem};
ghost use Rattle.definitions.specs.Tables.{items};
ghost use Rattle.definitions.specs.Rules.{winner_for};
ghost use Rattle.table.specs.Held.{Held};
ghost use Rattle.rules.specs.Answers.{won};
ghost use Rattle.rules.specs.Searching.{first_best, told};

use super::Won;
use format::Error;

// The rule that goes before all others found so far.
#[derive(Clone, Copy)]
pub struct Best {
    pub key: i32,
    pub priority: i32,
    pub action: i32,
}

// Whether a list names a type.
fn names(types: &[u16], raw_type_id: u16) -> bool
    ensures { result ≡ elem raw_type_id types.now }
{
    types.contains(&raw_type_id)
}

// Whether a list names a type, given whether it names the last one. The items of a type are next to each other, so that the list is searched once
// for each type and not for each item.
fn names_next(types: &[u16], last: u16, named: bool, raw_type_id: u16) -> bool
    requires { named ≡ elem last types.now }
    ensures { result ≡ elem raw_type_id types.now }
{
    if raw_type_id == last {
        named
    } else {
        names(types, raw_type_id)
    }
}

// The first of a rule and the best one so far. That one has a greater key, so it stays unless its priority is lower.
fn first_of(best: Option<Best>, rule: Best) -> Best
    ensures { result ≡ first_best rule best }
{
    match best {
        Some(b) if b.priority >= rule.priority => b,
        _ => rule,
    }
}

// The answer if the best rule of all items is known.
fn answer(best: Option<Best>) -> Option<Won>
    ensures { won (Ok result) ≡ told best }
{
    best.map(|b| Won {
        key: b.key,
        action: b.action,
    })
}

// The winner for an ingredient among the n items of an area. Items are taken from the last to the first, so that keys fall.
pub fn search(area: &[i32], n: usize, types: &[u16], ingredient: i32) -> Result<Option<Won>, Error>
    requires { Held area.now n }
    ensures { winner_for types.now ingredient (items area.now) ≡ won result }
{
    let mut best = None;
    let mut last = 0;
    let mut named = names(types, last);
    for i in (0..n).rev() {
        let key = table::checked::key_at(area, n, i);
        let raw_type_id = format::key_to_raw_type_id(key);
        named = names_next(types, last, named, raw_type_id);
        last = raw_type_id;
        if !named {
            continue;
        }
        let values = table::checked::data_at(area, n, i);
        if values.len() < 3 {
            return Err(Error::ShortRule);
        }
        if values[0] != ingredient {
            continue;
        }
        best = Some(first_of(
            best,
            Best {
                key,
                priority: values[1],
                action: values[2],
            },
        ));
    }
    Ok(answer(best))
}
