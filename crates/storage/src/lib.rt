// The store of tables by tick.
#![tactic(auto)]

ghost use Rattle.std.specs.Prelude.{◌≡◌, cond, length};
ghost use Rattle.std.proofs.Math.Option.{some, none};
ghost use Rattle.definitions.specs.Areas.{cleared};
ghost use Rattle.definitions.specs.Outcome.{return};
ghost use Rattle.definitions.specs.Storage as Store;
ghost use Rattle.definitions.specs.StorageCalls.{add_delta_call, reset_call, set_delta_tick_call, add_snap_call, add_snap_clash, tick_call, table_call};
ghost use Rattle.storage.specs.States.{store_of};
ghost use Rattle.storage.specs.Taking.{takings};
ghost use Rattle.ticks.specs.Ticks.{tick_of};
ghost use Rattle.storage.specs.Answers.{held_tick, settings, addings, added_clash};

use checked::Sent;
use delta_making::MakeError;
use format::{Error, Warnings};
use ticks::Tick;

pub mod checked;

// How many tables are in a store's area, the tick acknowledged last, if any, and the base tick that is set, if any.
#[derive(Clone, Copy)]
pub struct Storage {
    pub count: usize,
    pub ack_tick: Option<Tick>,
    pub delta_tick: Option<Tick>,
}

// The result of setting a base tick, with the warnings counted and the store afterwards.
#[derive(Clone, Copy)]
pub struct Setting {
    pub answer: Result<(), Error>,
    pub warnings: Warnings,
    pub storage: Storage,
}

// The base of an added table, and how many ints its delta takes.
#[derive(Clone, Copy)]
pub struct Added {
    pub base: Tick,
    pub ints: usize,
}

// The result of adding a table, and the store afterwards.
#[derive(Clone, Copy)]
pub struct Adding {
    pub answer: Result<Added, MakeError>,
    pub storage: Storage,
}

// The result of taking a delta, the tick of the table that it made, with the warnings counted and the store afterwards.
#[derive(Clone, Copy)]
pub struct Taking {
    pub answer: Result<Tick, Error>,
    pub warnings: Warnings,
    pub storage: Storage,
}

impl Storage {
    // The most tables that a store holds.
    pub const MAX_STORED_SNAPSHOT: usize = 100;

    // A store without tables.
    pub fn new() -> Storage
        ensures { store_of result ≡ Store.beside Store.fresh_storage }
    {
        Storage {
            count: 0,
            ack_tick: None,
            delta_tick: None,
        }
    }

    // Empties the store and its area, whatever it held; the base tick stays.
    pub fn reset(self, area: &mut [i32]) -> Storage
        ensures { reset_call (store_of self) area.old ≡ record { answer = return tt; store = store_of result; area = area.new } }
    {
        ints::clear(area);
        checked::without_ack(self, 0)
    }

    // The tick acknowledged last.
    pub fn ack_tick(self) -> Option<Tick>
        ensures { tick_of result ≡ (store_of self).ack_tick }
    {
        self.ack_tick
    }

    // The base tick that is set.
    pub fn delta_tick(self) -> Option<Tick>
        ensures { tick_of result ≡ (store_of self).delta_tick }
    {
        self.delta_tick
    }

    // The tick of the i-th table, the newest first, if there are so many.
    pub fn snap_tick(self, area: &[i32], i: usize) -> Result<Option<Tick>, Error>
        ensures { tick_call (store_of self) area.now i ≡ held_tick result }
    {
        let Some(_) = checked::form(self, area) else {
            return Err(Error::NotInForm);
        };
        if i < self.count {
            return Ok(Some(store_area::checked::tick_at(area, self.count, i)));
        }
        Ok(None)
    }

    // The i-th table, the newest first, as a part of the area; empty if there is none.
    pub fn snap(self, area: &[i32], i: usize) -> &[i32]
        ensures { result.now ≡ table_call (store_of self) area.now i }
    {
        let Some(_) = checked::form(self, area) else {
            return &area[..0];
        };
        if i < self.count {
            return store_area::checked::table_at(area, self.count, i);
        }
        &area[..0]
    }

    // Sets the base of the tables that are added: drops older tables; the base must then be the oldest. A negative tick sets none.
    pub fn set_delta_tick(self, tick: Tick, area: &mut [i32]) -> Setting
        ensures { set_delta_tick_call (store_of self) area.old tick.0 ≡ settings result area.new }
    {
        let Some(ints) = checked::form(self, area) else {
            return Setting {
                answer: Err(Error::NotInForm),
                warnings: Warnings::none(),
                storage: self,
            };
        };
        if tick.is_negative() {
            return Setting {
                answer: Ok(()),
                warnings: checked::weird(tick),
                storage: checked::without_delta(self, self.count),
            };
        }
        checked::set_base(self, tick, area, ints)
    }

    // Takes a delta for a tick and applies it to its base: drops older tables; the base must then be the oldest.
    // Adds and acknowledges the table that it makes. Scratch needs at least 16,384 entries; it is all zeros afterwards.
    pub fn add_delta(
        self,
        has_crc: bool,
        crc: i32,
        delta_tick: Tick,
        tick: Tick,
        delta: &[i32],
        area: &mut [i32],
        scratch: &mut [i32],
    ) -> Taking
        ensures { (add_delta_call (store_of self) area.old (cond has_crc (some crc) none) delta_tick.0 tick.0 delta.now (length scratch.old) ≡ takings result area.new) × (scratch.new ≡ cleared scratch.old) }
    {
        let m = Sent {
            crc: if has_crc { Some(crc) } else { None },
            delta_tick,
            tick,
        };
        let taking = checked::take(self, m, delta, area, scratch);
        ints::clear(scratch);
        taking
    }

    // Adds a table, and makes its delta: against the oldest table then held if a base tick is set, else against the empty table.
    // If items of one key differ in length, returns the least such key, read as unsigned. A refused call leaves both areas unchanged.
    pub fn add_snap(self, tick: Tick, table: &[i32], delta: &mut [i32], area: &mut [i32]) -> Adding
        ensures delta_value { add_snap_call (store_of self) area.old tick.0 table.now delta.old ≡ addings result area.new delta.new }
        ensures answer_value { added_clash result.answer ≡ add_snap_clash (store_of self) area.old tick.0 table.now delta.old }
    {
        let Some(ints) = checked::form(self, area) else {
            return checked::not_added(self, Error::NotInForm);
        };
        let Some(form) = table::checked::form(table) else {
            return checked::not_added(self, Error::NotInForm);
        };
        if self.count == Storage::MAX_STORED_SNAPSHOT {
            return checked::not_added(self, Error::StoreFull);
        }
        checked::add(self, tick, table, form.items, form.ints, delta, area, ints)
    }
}
