// Messages to the state's manager, as the lines before left it.
//     n ROOM DELTA                            a new manager, with a store area of ROOM ints, at most 1024, and a delta area of DELTA ints, at most 128
//     r                                       forgets both ticks, all tables and the acknowledgement
//     s TICK DIST NUM PART CRC LEN INT.. HEX  a part, under LEN known sizes
//     i TICK DIST CRC LEN INT.. HEX           a single message, under LEN known sizes
//     e TICK DIST                             an empty message
//     l PLACE                                 looks up the table at a place
// Answer: 12 warning counts, COUNT ACK (tables held, tick acknowledged or -), then more, tick TICK, or refused NUMBER. For l: TICK INT.., or end.
use crate::fields::{
    at_most, distance, letter, next_tick, part, refusal, room, tick, tick_or_none, warnings,
};
use crate::state::{Answered, State};
use crate::storage_cases::look;
use format::{Error, Warnings};
use manager::{Handling, Manager};
use replay_text::areas::{part_area, scratch};
use replay_text::line::Line;
use replay_text::words::{int, word};
use storage::Storage;
use ticks::Tick;

// The warnings of a message and the store's numbers.
fn head(w: Warnings, s: Storage) -> Line {
    let line = Line::new();
    let line = warnings(line, w, &[0, 1, 2, 3, 4, 5, 6, 7, 8, 9, 10, 11]);
    tick_or_none(line.next_number(s.count), s.ack_tick())
}

// Adds the result of a message.
fn handled(line: Line, answer: Result<Option<Tick>, Error>) -> Line {
    match answer {
        Ok(Some(tick)) => next_tick(line.next_text(b"tick"), tick),
        Ok(None) => line.next_text(b"more"),
        Err(e) => refusal(line, e),
    }
}

// A manager without a message.
fn quiet(manager: Manager) -> Handling {
    Handling {
        answer: Ok(None),
        warnings: Warnings::none(),
        manager,
    }
}

// A new manager, with its store's area emptied.
fn fresh(area: &mut [i32]) -> Handling {
    let m = Manager::new();
    quiet(m.reset(area))
}

// A part, with its bytes and the known sizes.
fn snap(
    m: Manager,
    case: &[u8],
    data: &[u8],
    sizes: &[i32],
    parts: &mut [u8; 28800],
    delta: &mut [i32],
    area: &mut [i32],
) -> Handling {
    let mut joined = part_area();
    let mut scratch = scratch();
    m.snap(
        tick(case, 1),
        distance(case, 2),
        int(case, 3),
        int(case, 4),
        int(case, 5),
        data,
        sizes,
        parts,
        &mut joined,
        delta,
        area,
        &mut scratch,
    )
}

// A single message, with its bytes and the known sizes.
fn single(
    m: Manager,
    case: &[u8],
    data: &[u8],
    sizes: &[i32],
    parts: &mut [u8; 28800],
    delta: &mut [i32],
    area: &mut [i32],
) -> Handling {
    let mut joined = part_area();
    let mut scratch = scratch();
    m.snap_single(
        tick(case, 1),
        distance(case, 2),
        int(case, 3),
        data,
        sizes,
        parts,
        &mut joined,
        delta,
        area,
        &mut scratch,
    )
}

// An empty message.
fn empty(
    m: Manager,
    case: &[u8],
    parts: &mut [u8; 28800],
    delta: &mut [i32],
    area: &mut [i32],
) -> Handling {
    let mut joined = part_area();
    let mut scratch = scratch();
    m.snap_empty(
        tick(case, 1),
        distance(case, 2),
        parts,
        &mut joined,
        delta,
        area,
        &mut scratch,
    )
}

// A part or a single message; the i-th word is LEN.
fn packed(
    m: Manager,
    case: &[u8],
    i: usize,
    parts: &mut [u8; 28800],
    delta: &mut [i32],
    area: &mut [i32],
) -> Handling {
    let mut given = [0i32; 32];
    let mut data = [0u8; 128];
    replay_text::ints(case, &mut given);
    let to = i % 8 + room(case, i, &given);
    let len = replay_text::bytes(word(case, to + 1), &mut data);
    let sizes = part(&given, i, to);
    if i == 6 {
        return snap(m, case, &data[..len], sizes, parts, delta, area);
    }
    single(m, case, &data[..len], sizes, parts, delta, area)
}

// Handles the message of a case.
fn message(
    m: Manager,
    case: &[u8],
    parts: &mut [u8; 28800],
    delta: &mut [i32],
    area: &mut [i32],
) -> Handling {
    match letter(case) {
        b'n' => fresh(area),
        b'r' => quiet(m.reset(area)),
        b's' => packed(m, case, 6, parts, delta, area),
        b'i' => packed(m, case, 4, parts, delta, area),
        b'e' => empty(m, case, parts, delta, area),
        _ => quiet(m),
    }
}

// Answers a message, with the store's area.
fn handle(state: State, case: &[u8], parts: &mut [u8; 28800], area: &mut [i32]) -> Answered {
    let mut delta = [77i32; 128];
    let room = at_most(state.delta, &delta);
    let handling = message(state.manager, case, parts, &mut delta[..room], area);
    let manager = handling.manager;
    let answer = handling.answer;
    let line = head(handling.warnings, manager.storage);
    state.answered(manager, handled(line, answer))
}

// Answers a case.
pub fn answer(state: State, case: &[u8], parts: &mut [u8; 28800], area: &mut [i32]) -> Answered {
    let room = at_most(state.room, area);
    if letter(case) == b'l' {
        let m = state.manager;
        let line = look(m.storage, case, &area[..room]);
        return Answered { state, line };
    }
    handle(state, case, parts, &mut area[..room])
}
