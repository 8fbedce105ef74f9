// Cases on deltas. ROOM is the length of the lent area, at most 128.
//     e ROOM                      the empty delta: COUNT INT.., or refused NUMBER
//     c ROOM LEN INT.. INT..      the delta from a base of LEN ints to a target: COUNT INT.., or refused 10 KEY, or refused NUMBER
//     i ROOM LEN INT.. INT..      a delta is written to ints under LEN known sizes: COUNT INT.., or refused NUMBER
//     b ROOM LEN INT.. INT..      the same, packed: LEN HEX, or refused NUMBER
//     r ROOM LEN INT.. INT..      a delta of ints is read under LEN known sizes: COUNT, six counts of warnings, INT.., or refused NUMBER and the counts
//     p ROOM LEN INT.. HEX        the same for a packed delta
//     m ROOM HAS LEN INT.. INT..  the differences of an item's data from the LEN ints of its base, if it has one: COUNT INT.., or refused NUMBER
//     a ROOM HAS LEN INT.. INT..  the same with the differences given, which are applied: COUNT INT.., or refused NUMBER
use crate::fields::{
    differing, letter, odd, part, reading, refused, room, room_for_bytes, stored_ints, written,
};
use delta_making::MakeError;
use replay_text::areas::scratch;
use replay_text::line::Line;
use replay_text::words::{number, word};

// How many ints a delta takes, and the ints; or the refusal, with the key if two lengths differ.
fn made(answer: Result<usize, MakeError>, area: &[i32]) -> Line {
    match answer {
        Ok(count) => stored_ints(Ok(count), area),
        Err(MakeError::DifferingSizes(key)) => differing(Line::new(), key),
        Err(MakeError::Refused(e)) => refused(e),
    }
}

// Answers e, with an area of ROOM ints.
fn clear(area: &mut [i32]) -> Line {
    let answer = delta::clear(area);
    stored_ints(answer, area)
}

// Answers c, with the base, the target and an area of ROOM ints.
fn create(base: &[i32], target: &[i32], area: &mut [i32]) -> Line {
    let answer = delta::create(base, target, area);
    made(answer, area)
}

// Answers i, with the known sizes, the delta and an area of ROOM ints.
fn write_to_ints(sizes: &[i32], delta: &[i32], area: &mut [i32]) -> Line {
    let answer = delta::write_to_ints(delta, sizes, area);
    stored_ints(answer, area)
}

// Answers r, with the known sizes, the delta and an area of ROOM ints.
fn read_ints(sizes: &[i32], src: &[i32], area: &mut [i32]) -> Line {
    let mut scratch = scratch();
    let read = delta::read_from_ints(src, sizes, area, &mut scratch);
    reading(read, area, &[0, 1, 2, 3, 5, 6])
}

// Answers m, with whether there is a base, its data, the item's data and an area of ROOM ints.
fn create_item(has: bool, base: &[i32], data: &[i32], area: &mut [i32]) -> Line {
    let answer = format::create_item_delta(has, base, data, area);
    stored_ints(answer, area)
}

// Answers a, with whether there is a base, its data, the differences and an area of ROOM ints.
fn apply_item(has: bool, base: &[i32], differences: &[i32], area: &mut [i32]) -> Line {
    let answer = format::apply_item_delta(has, base, differences, area);
    stored_ints(answer, area)
}

// Answers a case, with its two lists and an area of ROOM ints.
fn fill(case: &[u8], first: &[i32], second: &[i32], area: &mut [i32]) -> Line {
    let has = number(case, 2) == 1;
    match letter(case) {
        b'e' => clear(area),
        b'c' => create(first, second, area),
        b'i' => write_to_ints(first, second, area),
        b'r' => read_ints(first, second, area),
        b'm' => create_item(has, first, second, area),
        b'a' => apply_item(has, first, second, area),
        _ => odd(),
    }
}

// The place where the first list of a case ends among its ints; its length is the last of the head ints before it.
fn first_end(case: &[u8], head: usize, given: &[i32]) -> usize {
    head % 4 + room(case, head, given)
}

// Answers a case that fills an area of ints and has its two lists after head ints.
fn ints_case(case: &[u8], head: usize) -> Line {
    let mut given = [0i32; 128];
    let mut area = [77i32; 128];
    let count = replay_text::ints(case, &mut given);
    let room = room(case, 1, &area);
    let from = first_end(case, head, &given);
    let first = part(&given, head, from);
    fill(case, first, part(&given, from, count), &mut area[..room])
}

// Answers b, with the known sizes, the delta and an area of ROOM bytes.
fn write(sizes: &[i32], delta: &[i32], area: &mut [u8]) -> Line {
    let answer = delta::write(delta, sizes, area);
    written(answer, area)
}

// Answers b ROOM LEN INT.. INT..
fn bytes_case(case: &[u8]) -> Line {
    let mut given = [0i32; 128];
    let mut area = [77u8; 128];
    let count = replay_text::ints(case, &mut given);
    let room = room_for_bytes(case, 1, &area);
    let from = first_end(case, 2, &given);
    let sizes = part(&given, 2, from);
    write(sizes, part(&given, from, count), &mut area[..room])
}

// Answers p, with the known sizes, the bytes and an area of ROOM ints.
fn read_packed(sizes: &[i32], src: &[u8], area: &mut [i32]) -> Line {
    let mut scratch = scratch();
    let read = delta::read(src, sizes, area, &mut scratch);
    reading(read, area, &[0, 1, 2, 3, 5, 6])
}

// Answers p ROOM LEN INT.. HEX, with the known sizes.
fn packed_under(case: &[u8], sizes: &[i32]) -> Line {
    let mut src = [0u8; 128];
    let mut area = [77i32; 128];
    let len = replay_text::bytes(word(case, 3 + sizes.len()), &mut src);
    let room = room(case, 1, &area);
    read_packed(sizes, &src[..len], &mut area[..room])
}

// Answers p ROOM LEN INT.. HEX.
fn packed_case(case: &[u8]) -> Line {
    let mut given = [0i32; 128];
    replay_text::ints(case, &mut given);
    let from = first_end(case, 2, &given);
    packed_under(case, part(&given, 2, from))
}

// Answers a case.
pub fn answer(case: &[u8]) -> Line {
    match letter(case) {
        b'b' => bytes_case(case),
        b'p' => packed_case(case),
        b'm' | b'a' => ints_case(case, 3),
        _ => ints_case(case, 2),
    }
}
