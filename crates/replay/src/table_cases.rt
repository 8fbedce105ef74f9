// Cases on tables. ROOM is the length of the lent area, at most 64.
//     i ROOM INT..               a table of ints is read: COUNT EXCESS INT.., or refused NUMBER EXCESS
//     b ROOM HEX                 a packed table is read: COUNT OVERLONG EXCESS INT.., or refused NUMBER and the two counts
//     w INT..                    an area is packed: LEN HEX, or refused NUMBER
//     q INT..                    an area is counted, summed and walked: ITEMS SUM KEY.., or refused NUMBER
//     l TYPE ID INT..            an item of an area is looked up: item INT.., or none, or refused NUMBER
//     a TYPE ID LEN INT.. INT..  an item with LEN ints is added to an area: COUNT, or refused NUMBER; then the whole area
use crate::fields::{id, item, letter, none, odd, part, reading, refused, room, stored, written};
use raw_snap::raw_builder;
use replay_text::areas::scratch;
use replay_text::line::Line;
use replay_text::words::word;

// Answers i ROOM INT.., with the ints and an area of ROOM ints.
fn read_ints(src: &[i32], area: &mut [i32]) -> Line {
    let read = raw_snap::read_from_ints(src, area);
    reading(read, area, &[7])
}

// Answers i ROOM INT..
fn ints_case(case: &[u8]) -> Line {
    let mut given = [0i32; 128];
    let mut area = [77i32; 64];
    let count = replay_text::ints(case, &mut given);
    let room = room(case, 1, &area);
    read_ints(part(&given, 1, count), &mut area[..room])
}

// Answers b ROOM HEX, with the bytes and an area of ROOM ints.
fn read_bytes(src: &[u8], area: &mut [i32]) -> Line {
    let mut scratch = scratch();
    let read = raw_snap::read(src, area, &mut scratch);
    reading(read, area, &[0, 7])
}

// Answers b ROOM HEX.
fn bytes_case(case: &[u8]) -> Line {
    let mut src = [0u8; 128];
    let mut area = [77i32; 64];
    let len = replay_text::bytes(word(case, 2), &mut src);
    let room = room(case, 1, &area);
    read_bytes(&src[..len], &mut area[..room])
}

// Answers w INT..
fn write_case(case: &[u8]) -> Line {
    let mut area = [0i32; 128];
    let mut bytes = [77u8; 640];
    let count = replay_text::ints(case, &mut area);
    let answer = raw_snap::write(&area[..count], &mut bytes);
    written(answer, &bytes)
}

// Adds the sum of a table's data.
fn sum(line: Line, area: &[i32]) -> Line {
    match raw_snap::crc(area) {
        Ok(sum) => line.next_int(sum),
        Err(_) => line,
    }
}

// Adds the key of the i-th item of a walk; nothing past its end.
fn key(line: Line, area: &[i32], i: usize) -> Line {
    match raw_snap::walk_key(area, i) {
        Ok(Some(key)) => line.next_int(key),
        _ => line,
    }
}

// Adds the keys of a walk. It goes on past the end, where there must be none.
fn keys(line: Line, area: &[i32]) -> Line {
    let mut l = line;
    for i in 0..area.len() {
        l = key(l, area, i);
    }
    l
}

// The count of a table's items, their sum and keys; or the refusal.
fn walk(area: &[i32]) -> Line {
    match raw_snap::num_items(area) {
        Ok(items) => keys(sum(Line::new().number(items), area), area),
        Err(e) => refused(e),
    }
}

// Answers q INT..
fn walk_case(case: &[u8]) -> Line {
    let mut area = [0i32; 128];
    let count = replay_text::ints(case, &mut area);
    walk(&area[..count])
}

// The data of an item of an area, or that there is none, or the refusal.
fn find(area: &[i32], raw_type_id: u16, id: u16) -> Line {
    match raw_snap::has_item(area, raw_type_id, id) {
        Ok(true) => item(raw_snap::item(area, raw_type_id, id)),
        Ok(false) => none(),
        Err(e) => refused(e),
    }
}

// Answers l TYPE ID INT..
fn find_case(case: &[u8]) -> Line {
    let mut given = [0i32; 128];
    let count = replay_text::ints(case, &mut given);
    find(part(&given, 2, count), id(case, 1), id(case, 2))
}

// Answers a TYPE ID LEN INT.. INT.., with the item's data and the area.
fn add_into(case: &[u8], data: &[i32], area: &mut [i32]) -> Line {
    let answer = raw_builder::add_item(area, id(case, 1), id(case, 2), data);
    stored(answer).ints(area, area.len())
}

// Answers a TYPE ID LEN INT.. INT..
fn add_case(case: &[u8]) -> Line {
    let mut given = [0i32; 128];
    let count = replay_text::ints(case, &mut given);
    let from = room(case, 3, &given) + 3;
    if count < from {
        return odd();
    }
    let mut area = given;
    add_into(case, &given[3..from], &mut area[from..count])
}

// Answers a case.
pub fn answer(case: &[u8]) -> Line {
    match letter(case) {
        b'i' => ints_case(case),
        b'b' => bytes_case(case),
        b'w' => write_case(case),
        b'q' => walk_case(case),
        b'l' => find_case(case),
        b'a' => add_case(case),
        _ => odd(),
    }
}
