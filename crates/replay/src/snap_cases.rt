// Cases on types, builders and applied deltas. ROOM is the length of the lent area, at most 128.
// TYPE is six ints: whether the type is a kind, its number, and the four ints of the kind.
// COUNTS are the warnings: overlong integers, unknown deletes, ints left over, kinds that are too long.
//     r ROOM LEN INT.. INT..     a delta is applied to a base of LEN ints: COUNT COUNTS INT.., or refused NUMBER COUNTS
//     d ROOM LEN INT.. INT..     the same with the types of the result judged
//     i ROOM INT..               a table of ints is read with its types judged: the same answers
//     p ROOM HEX                 the same for a packed table
//     n TYPE INT..               the raw type of a type in an area: raw NUMBER, or none, or refused NUMBER
//     t RAW INT..                the type of a raw type: number NUMBER, or kind INT INT INT INT, or none, or refused NUMBER
//     l TYPE ID INT..            an item of an area is looked up: item INT.., or none, or refused NUMBER
//     e ROOM                     a new builder: COUNT INT.., or refused NUMBER
//     a TYPE ID LEN INT.. INT..  an item with LEN ints is added to a builder's area: COUNT, or refused NUMBER; then the whole area
//     f INT..                    how many ints a builder's table takes: COUNT, or refused NUMBER
use crate::fields::{
    id, item, letter, none, odd, part, reading, refused, room, stored, stored_ints,
};
use format::{Error, Reading};
use replay_text::areas::scratch;
use replay_text::line::Line;
use replay_text::words::{int, number, word};
use snap::TypeId;

// The answer of a call that reads or applies, with COUNTS.
fn made(read: Reading, area: &[i32]) -> Line {
    reading(read, area, &[0, 4, 7, 8])
}

// The type that a case begins with, after its letter.
fn type_in(case: &[u8]) -> TypeId {
    if number(case, 1) == 0 {
        return TypeId::Ordinal(id(case, 2));
    }
    TypeId::Uuid(int(case, 3), int(case, 4), int(case, 5), int(case, 6))
}

// Answers r or d, with the base, the delta and an area of ROOM ints.
fn apply(typed: bool, base: &[i32], delta: &[i32], area: &mut [i32]) -> Line {
    let mut scratch = scratch();
    if typed {
        let read = snap::read_with_delta(base, delta, area, &mut scratch);
        return made(read, area);
    }
    let read = raw_snap::read_with_delta(base, delta, area, &mut scratch);
    made(read, area)
}

// Answers r ROOM LEN INT.. INT.. or d ROOM LEN INT.. INT..
fn delta_case(case: &[u8], typed: bool) -> Line {
    let mut given = [0i32; 128];
    let mut area = [77i32; 128];
    let count = replay_text::ints(case, &mut given);
    let from = room(case, 2, &given) + 2;
    let room = room(case, 1, &area);
    let base = part(&given, 2, from);
    apply(typed, base, part(&given, from, count), &mut area[..room])
}

// Answers i, with the ints and an area of ROOM ints.
fn read_ints(src: &[i32], area: &mut [i32]) -> Line {
    let mut scratch = scratch();
    let read = snap::read_from_ints(src, area, &mut scratch);
    made(read, area)
}

// Answers i ROOM INT..
fn ints_case(case: &[u8]) -> Line {
    let mut given = [0i32; 128];
    let mut area = [77i32; 128];
    let count = replay_text::ints(case, &mut given);
    let room = room(case, 1, &area);
    read_ints(part(&given, 1, count), &mut area[..room])
}

// Answers p, with the bytes and an area of ROOM ints.
fn read_packed(src: &[u8], area: &mut [i32]) -> Line {
    let mut scratch = scratch();
    let read = snap::read(src, area, &mut scratch);
    made(read, area)
}

// Answers p ROOM HEX.
fn packed_case(case: &[u8]) -> Line {
    let mut src = [0u8; 128];
    let mut area = [77i32; 128];
    let len = replay_text::bytes(word(case, 2), &mut src);
    let room = room(case, 1, &area);
    read_packed(&src[..len], &mut area[..room])
}

// The raw type of a type, or that there is none, or the refusal.
fn raw_type(answer: Result<Option<u16>, Error>) -> Line {
    match answer {
        Ok(Some(number)) => Line::new().text(b"raw ").number(number as usize),
        Ok(None) => none(),
        Err(e) => refused(e),
    }
}

// Answers n TYPE INT..
fn raw_type_case(case: &[u8]) -> Line {
    let mut given = [0i32; 128];
    let count = replay_text::ints(case, &mut given);
    raw_type(snap::raw_type_id(part(&given, 6, count), type_in(case)))
}

// A type that is a kind.
fn kind(a: i32, b: i32, c: i32, d: i32) -> Line {
    let line = Line::new().text(b"kind");
    line.next_int(a).next_int(b).next_int(c).next_int(d)
}

// The type of a raw type, or that there is none, or the refusal.
fn type_found(answer: Result<Option<TypeId>, Error>) -> Line {
    match answer {
        Ok(Some(TypeId::Ordinal(number))) => Line::new().text(b"number ").number(number as usize),
        Ok(Some(TypeId::Uuid(a, b, c, d))) => kind(a, b, c, d),
        Ok(None) => none(),
        Err(e) => refused(e),
    }
}

// Answers t RAW INT..
fn type_case(case: &[u8]) -> Line {
    let mut given = [0i32; 128];
    let count = replay_text::ints(case, &mut given);
    type_found(snap::type_id(part(&given, 1, count), id(case, 1)))
}

// The data of an item of an area, or that there is none, or the refusal.
fn find(area: &[i32], type_id: TypeId, id: u16) -> Line {
    match snap::has_item(area, type_id, id) {
        Ok(true) => item(snap::item(area, type_id, id)),
        Ok(false) => none(),
        Err(e) => refused(e),
    }
}

// Answers l TYPE ID INT..
fn find_case(case: &[u8]) -> Line {
    let mut given = [0i32; 128];
    let count = replay_text::ints(case, &mut given);
    find(part(&given, 7, count), type_in(case), id(case, 7))
}

// Answers e, with an area of ROOM ints.
fn new_builder(area: &mut [i32]) -> Line {
    let answer = builder::new(area);
    stored_ints(answer, area)
}

// Answers e ROOM.
fn new_case(case: &[u8]) -> Line {
    let mut area = [77i32; 128];
    let room = room(case, 1, &area);
    new_builder(&mut area[..room])
}

// Answers a TYPE ID LEN INT.. INT.., with the item's data and the area.
fn add_into(case: &[u8], data: &[i32], area: &mut [i32]) -> Line {
    let answer = builder::add_item(area, type_in(case), id(case, 7), data);
    stored(answer).ints(area, area.len())
}

// Answers a TYPE ID LEN INT.. INT..
fn add_case(case: &[u8]) -> Line {
    let mut given = [0i32; 128];
    let count = replay_text::ints(case, &mut given);
    let from = room(case, 8, &given) + 8;
    if count < from {
        return odd();
    }
    let mut area = given;
    add_into(case, &given[8..from], &mut area[from..count])
}

// Answers f INT..
fn finish_case(case: &[u8]) -> Line {
    let mut area = [0i32; 128];
    let count = replay_text::ints(case, &mut area);
    stored(builder::finish(&area[..count]))
}

// Answers a case.
pub fn answer(case: &[u8]) -> Line {
    match letter(case) {
        b'r' => delta_case(case, false),
        b'd' => delta_case(case, true),
        b'i' => ints_case(case),
        b'p' => packed_case(case),
        b'n' => raw_type_case(case),
        b't' => type_case(case),
        b'l' => find_case(case),
        b'e' => new_case(case),
        b'a' => add_case(case),
        b'f' => finish_case(case),
        _ => odd(),
    }
}
