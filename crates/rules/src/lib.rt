// Which rule of a table prints: the label product, above the tables.
#![tactic(auto)]

ghost use Rattle.std.specs.Prelude.{◌≡◌};
ghost use Rattle.definitions.specs.Rules.{winner_call};
ghost use Rattle.rules.specs.Answers.{won};

use format::Error;

pub mod checked;

// The key and the action of the rule that wins.
#[derive(Clone, Copy)]
pub struct Won {
    pub key: i32,
    pub action: i32,
}

// The winner for an ingredient among the items of the named types, if a rule matches.
pub fn winner(area: &[i32], types: &[u16], ingredient: i32) -> Result<Option<Won>, Error>
    ensures { winner_call area.now types.now ingredient ≡ won result }
{
    let Some(form) = table::checked::form(area) else {
        return Err(Error::NotInForm);
    };
    checked::search(area, form.items, types, ingredient)
}
