// Applies a delta to its base and judges the types of the table.
ghost use Rattle.std.specs.Prelude.{◌≡◌, [], ◌≤◌, length, Some};
ghost use Rattle.definitions.specs.Outcome.{after};
ghost use Rattle.definitions.specs.Tables.{items, count, table_of};
ghost use Rattle.definitions.specs.Deltas.{delta_in};
ghost use Rattle.definitions.specs.Types.{typed};
ghost use Rattle.table.specs.Held.{Held, form_of};
ghost use Rattle.delta_form.specs.Held.{HeldDelta};
ghost use Rattle.format.specs.Sources.{unknown_counts};
ghost use Rattle.typed_applying.specs.Answers.{applied_typed, typed_table, Stands};

use applying::checked::apply;
use format::Error;
use table::checked::TableForm;
use types::checked::judge_form;

// How many items and ints the table has, or why there is none; whether the base lacks a deleted key, and how many kinds have more than four ints.
#[derive(Clone, Copy)]
pub struct Typed {
    pub table: Result<TableForm, Error>,
    pub unknown_delete: bool,
    pub excess: usize,
}

// Judges the types of the table of so many ints that an area begins with.
pub fn judge(area: &[i32], ints: usize, unknown_delete: bool) -> Typed
    requires { Some (record { items = count area.now; ints = ints }) ≡ form_of (table_of area.now) }
    ensures { (after (unknown_counts unknown_delete) (typed (items area.now)) ≡ typed_table (items area.now) result) × Stands area.now result.table }
{
    let n = table::checked::nat_at(area, 1);
    let judged = judge_form(area, n, ints);
    Typed {
        table: judged.types.map(|()| TableForm { items: n, ints }),
        unknown_delete,
        excess: judged.excess,
    }
}

// Applies a delta of so many deleted keys and updates to a base of nb items, into the front of out, and judges the types there.
pub fn apply_typed(
    base: &[i32],
    nb: usize,
    delta: &[i32],
    deleted: usize,
    updated: usize,
    out: &mut [i32],
) -> Typed
    requires { Held base.now nb × HeldDelta [] delta.now deleted updated × (16384 ≤ length out.old) }
    ensures { (applied_typed (items base.now) (delta_in [] delta.now) ≡ typed_table (items out.new) result) × Stands out.new result.table }
{
    let applied = apply(base, nb, delta, deleted, updated, out);
    match applied.answer {
        Err(e) => Typed {
            table: Err(e),
            unknown_delete: applied.unknown_delete,
            excess: 0,
        },
        Ok(ints) => judge(out, ints, applied.unknown_delete),
    }
}
