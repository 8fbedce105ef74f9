// The calls on rules as C sees them.
#![tactic(auto)]

ghost use Rattle.std.specs.Prelude.{◌≡◌};
ghost use Rattle.definitions.specs.Rules.{winner_call};
ghost use Rattle.boundary.specs.Boundary.{status};
ghost use Rattle.capi_rules.specs.Winners.{found_after, key_after, action_after};

// The key and the action of the rule that wins for an ingredient, among the items of the named types.
#[unsafe(no_mangle)]
pub extern "C" fn cef_rule_winner(
    area: &[i32],
    types: &[u16],
    ingredient: i32,
    found: &mut u32,
    key: &mut i32,
    action: &mut i32,
) -> u32
    ensures value { result ≡ status (winner_call area.now types.now ingredient) }
    ensures found_after { found.new ≡ found_after found.old (winner_call area.now types.now ingredient) }
    ensures key_after { key.new ≡ key_after key.old (winner_call area.now types.now ingredient) }
    ensures action_after { action.new ≡ action_after action.old (winner_call area.now types.now ingredient) }
{
    match rules::winner(area, types, ingredient) {
        Ok(Some(won)) => {
            *found = 1;
            *key = won.key;
            *action = won.action;
            0
        }
        Ok(None) => {
            *found = 0;
            0
        }
        Err(e) => u32::from(e),
    }
}
