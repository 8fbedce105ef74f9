// Calls on the state's store, as the lines before left it.
//     n ROOM                       a new store, with an area of ROOM ints, at most 1024
//     r                            forgets all tables and the acknowledgement
//     b TICK                       sets a base tick
//     s TICK ROOM INT..            adds a table, with a delta area of ROOM ints, at most 128
//     d HAS CRC BASE TICK INT..    takes a delta, with its sum if it has one
//     l PLACE                      looks up the table at a place
// An answer is UNKNOWN EXCESS WEIRD, three warning counts, COUNT ACK BASE, how many tables are held and the two ticks or -, and then
// done, tick TICK, delta BASE LEN INT.., refused NUMBER, or refused 10 KEY. For l it is TICK INT.., or end.
use crate::fields::{
    at_most, differing, letter, next_tick, odd, part, refusal, refused, room, tick, tick_or_none,
    warnings,
};
use crate::state::{Answered, State, with_storage};
use delta_making::MakeError;
use format::{Error, Warnings};
use replay_text::areas::scratch;
use replay_text::line::Line;
use replay_text::words::{int, number};
use storage::{Added, Storage};
use ticks::Tick;

// A store after a call, and the answer.
#[derive(Clone, Copy)]
struct Called {
    storage: Storage,
    line: Line,
}

// The warnings of a call and the store's numbers.
fn head(w: Warnings, s: Storage) -> Line {
    let line = warnings(Line::new(), w, &[4, 8, 11]).next_number(s.count);
    tick_or_none(tick_or_none(line, s.ack_tick()), s.delta_tick())
}

// Adds the result of adding a table.
fn added(line: Line, answer: Result<Added, MakeError>, delta: &[i32]) -> Line {
    match answer {
        Ok(Added { base, ints }) => {
            let line = next_tick(line.next_text(b"delta"), base).next_number(ints);
            line.ints(delta, ints)
        }
        Err(MakeError::DifferingSizes(key)) => differing(line, key),
        Err(MakeError::Refused(e)) => refusal(line, e),
    }
}

// Adds the tick of a table that was taken, or the refusal.
fn taken(line: Line, answer: Result<Tick, Error>) -> Line {
    match answer {
        Ok(tick) => next_tick(line.next_text(b"tick"), tick),
        Err(e) => refusal(line, e),
    }
}

// Adds whether a base tick was set.
fn base_set(line: Line, answer: Result<(), Error>) -> Line {
    match answer {
        Ok(()) => line.next_text(b"done"),
        Err(e) => refusal(line, e),
    }
}

// Answers a call that only changes the store.
fn done(storage: Storage) -> Called {
    let line = base_set(head(Warnings::none(), storage), Ok(()));
    Called { storage, line }
}

// Answers n: a new store, with its area emptied.
fn fresh(area: &mut [i32]) -> Called {
    let s = Storage::new();
    done(s.reset(area))
}

// Answers b.
fn set_delta_tick(s: Storage, case: &[u8], area: &mut [i32]) -> Called {
    let setting = s.set_delta_tick(tick(case, 1), area);
    let storage = setting.storage;
    let answer = setting.answer;
    let line = base_set(head(setting.warnings, storage), answer);
    Called { storage, line }
}

// Answers s, with the table and a delta area of ROOM ints.
fn add(s: Storage, tick: Tick, table: &[i32], delta: &mut [i32], area: &mut [i32]) -> Called {
    let adding = s.add_snap(tick, table, delta, area);
    let storage = adding.storage;
    let answer = adding.answer;
    let line = added(head(Warnings::none(), storage), answer, delta);
    Called { storage, line }
}

// Answers s.
fn add_snap(s: Storage, case: &[u8], area: &mut [i32]) -> Called {
    let mut given = [0i32; 128];
    let mut delta = [77i32; 128];
    let count = replay_text::ints(case, &mut given);
    let room = room(case, 2, &delta);
    add(
        s,
        tick(case, 1),
        part(&given, 2, count),
        &mut delta[..room],
        area,
    )
}

// Answers d, with the delta.
fn take(s: Storage, case: &[u8], delta: &[i32], area: &mut [i32]) -> Called {
    let mut scratch = scratch();
    let has_crc = number(case, 1) == 1;
    let crc = int(case, 2);
    let base = tick(case, 3);
    let taking = s.add_delta(has_crc, crc, base, tick(case, 4), delta, area, &mut scratch);
    let storage = taking.storage;
    let answer = taking.answer;
    let line = taken(head(taking.warnings, storage), answer);
    Called { storage, line }
}

// Answers d.
fn add_delta(s: Storage, case: &[u8], area: &mut [i32]) -> Called {
    let mut given = [0i32; 128];
    let count = replay_text::ints(case, &mut given);
    take(s, case, part(&given, 4, count), area)
}

// Answers l.
pub fn look(s: Storage, case: &[u8], area: &[i32]) -> Line {
    let i = number(case, 1);
    match s.snap_tick(area, i) {
        Ok(Some(tick)) => {
            let table = s.snap(area, i);
            Line::new().int(tick.0).ints(table, table.len())
        }
        Ok(None) => Line::new().text(b"end"),
        Err(e) => refused(e),
    }
}

// Answers a call, with the area.
fn call(s: Storage, case: &[u8], area: &mut [i32]) -> Called {
    let line = match letter(case) {
        b'n' => return fresh(area),
        b'r' => return done(s.reset(area)),
        b'b' => return set_delta_tick(s, case, area),
        b's' => return add_snap(s, case, area),
        b'd' => return add_delta(s, case, area),
        b'l' => look(s, case, area),
        _ => odd(),
    };
    Called { storage: s, line }
}

// Answers a case.
pub fn answer(state: State, case: &[u8], area: &mut [i32]) -> Answered {
    let room = at_most(state.room, area);
    let m = state.manager;
    let called = call(m.storage, case, &mut area[..room]);
    state.answered(with_storage(m, called.storage), called.line)
}
