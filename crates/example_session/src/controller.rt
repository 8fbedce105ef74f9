// The controller: a table for each tick, added to its store, and its delta packed.
use crate::lines::{print_added, print_not_added};
use crate::link::Sent;
use crate::radio::cut;
use crate::random::{next_seed, side_of};
use delta_making::MakeError;
use format::Error;
use raw_snap::raw_builder;
use replay_text::areas::{int_area, part_area};
use snap::TypeId;
use std::io;
use storage::{Added, Storage};
use ticks::Tick;

// The types of items: a number, a kind that the builder numbers, and one with the number 8000 hex.
#[derive(Clone, Copy)]
enum Sort {
    Number,
    Kind,
    High,
}

// The controller's store, and the current seed.
#[derive(Clone, Copy)]
pub struct Controller {
    pub storage: Storage,
    pub seed: u64,
}

// How a table was made: the seed afterwards, and whether it repeats the base's table.
#[derive(Clone, Copy)]
struct Prepared {
    seed: u64,
    repeated: bool,
}

// What is sent for a table, its bytes and how many there are, and the controller afterwards.
#[derive(Clone, Copy)]
pub struct Told {
    pub controller: Controller,
    pub sent: Sent,
    pub packed: [u8; 28800],
    pub len: usize,
}

// An int: of any size if wide, else a small one.
fn value(seed: u64, wide: bool) -> i32 {
    if wide {
        return ints::from_bits((seed % 4294967296) as u32);
    }
    ints::from_bits(side_of(seed))
}

// Fills an item's ints; returns the seed afterwards.
fn fill(data: &mut [i32; 24], seed: u64, wide: bool) -> u64 {
    let mut s = seed;
    for x in data.iter_mut() {
        s = next_seed(s);
        *x = value(s, wide);
    }
    s
}

// Adds an item of a type; all items of one type have the same number of ints.
fn add(table: &mut [i32], sort: Sort, id: u16, data: &[i32; 24]) -> Result<usize, Error> {
    match sort {
        Sort::Number => builder::add_item(table, TypeId::Ordinal(5), id, data),
        Sort::Kind => builder::add_item(table, TypeId::Uuid(7, 8, 9, -10), id, &data[..9]),
        Sort::High => raw_builder::add_item(table, 32768, id, &data[..16]),
    }
}

// Adds an item with an id, or leaves it out; returns the seed afterwards.
fn add_or_not(table: &mut [i32], sort: Sort, id: u16, seed: u64, wide: bool) -> u64 {
    let seed = next_seed(seed);
    if side_of(seed) < 5 {
        return seed;
    }
    let mut data = [0i32; 24];
    let seed = fill(&mut data, seed, wide);
    let _ = add(table, sort, id, &data);
    seed
}

// Adds items of a type, with ids below a number; returns the seed afterwards.
fn add_some(table: &mut [i32; 16384], sort: Sort, ids: u16, seed: u64, wide: bool) -> u64 {
    let mut s = seed;
    for id in 0..ids {
        s = add_or_not(table, sort, id, s, wide);
    }
    s
}

// Makes a table of items of all three types; returns the seed afterwards.
fn build(table: &mut [i32; 16384], seed: u64) -> u64 {
    let seed = next_seed(seed);
    let wide = side_of(seed) < 7;
    let _ = builder::new(table);
    let seed = add_some(table, Sort::Number, 28, seed, wide);
    let seed = add_some(table, Sort::Kind, 6, seed, wide);
    let kind = [1i32, -2, 3, -4];
    let _ = raw_builder::add_item(table, 0, 32768, &kind);
    add_some(table, Sort::High, 8, seed, wide)
}

// Repeats the base's table, if a base is set; returns whether one was.
fn repeat(s: Storage, area: &[i32], table: &mut [i32]) -> bool {
    if s.delta_tick().is_none() || s.count == 0 {
        return false;
    }
    raw_snap::write_to_ints(s.snap(area, s.count - 1), table).is_ok()
}

// The sum of a table.
fn sum(table: &[i32]) -> i32 {
    raw_snap::crc(table).unwrap_or(0)
}

// Packs the delta without known sizes; returns the number of bytes.
fn pack(delta: &[i32], packed: &mut [u8]) -> usize {
    delta::write(delta, &[], packed).unwrap_or(0)
}

// Prints what was added; returns the tick of its base.
fn report(
    rt: &impl Print,
    tick: Tick,
    answer: Result<Added, MakeError>,
    len: usize,
) -> io::Result<Tick> {
    match answer {
        Ok(Added { base, ints }) => {
            print_added(rt, tick, base, ints, len)?;
            Ok(base)
        }
        Err(_) => {
            print_not_added(rt, tick)?;
            Ok(Tick(-1))
        }
    }
}

// Makes the table of a tick: the base's table again if again is set and there is a base, else a new one.
fn prepare(c: Controller, again: bool, area: &[i32], table: &mut [i32; 16384]) -> Prepared {
    if again && repeat(c.storage, area, table) {
        return Prepared {
            seed: c.seed,
            repeated: true,
        };
    }
    Prepared {
        seed: build(table, c.seed),
        repeated: false,
    }
}

// Packs a delta; nothing is sent for a table that repeats its base.
fn pack_new(repeated: bool, delta: &[i32], packed: &mut [u8]) -> usize {
    if repeated {
        return 0;
    }
    pack(delta, packed)
}

// The first bytes of a packed delta.
pub fn packed_part(packed: &[u8; 28800], len: usize) -> &[u8] {
    cut(packed, 0, len)
}

impl Controller {
    // A controller without tables.
    pub fn new(seed: u64) -> Controller {
        Controller {
            storage: Storage::new(),
            seed,
        }
    }

    // Adds a table and packs its delta.
    fn add(
        self,
        rt: &impl Print,
        made: Prepared,
        tick: Tick,
        table: &[i32; 16384],
        area: &mut [i32; 65536],
    ) -> io::Result<Told> {
        let mut delta = int_area();
        let mut packed = part_area();
        let adding = self.storage.add_snap(tick, table, &mut delta, area);
        let len = pack_new(made.repeated, &delta, &mut packed);
        let base = report(rt, tick, adding.answer, len)?;
        Ok(Told {
            controller: Controller {
                storage: adding.storage,
                seed: made.seed,
            },
            sent: Sent {
                tick,
                base,
                crc: sum(table),
            },
            packed,
            len,
        })
    }

    // Adds a table at a tick. If again is set and there is a base, it is the base's table again, and no bytes are sent.
    pub fn tell(
        self,
        rt: &impl Print,
        tick: Tick,
        again: bool,
        area: &mut [i32; 65536],
    ) -> io::Result<Told> {
        let mut table = int_area();
        let made = prepare(self, again, area, &mut table);
        self.add(rt, made, tick, &table, area)
    }
}
