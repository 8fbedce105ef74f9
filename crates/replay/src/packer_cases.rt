// Cases on packed integers.
//     r AT HEX        an int is read: VALUE NEXT OVERLONG, or refused NUMBER
//     b AT HEX        the same by a reader over the bytes: VALUE AT LEFT EMPTY OVERLONG, or refused NUMBER AT LEFT EMPTY
//     i AT INT..      the same by a reader over the ints
//     w ROOM AT INT   an int is written into ROOM bytes aa, at most 16: NEXT HEX, or refused 40 HEX
//     u ROOM HEX      all ints are unpacked into ROOM ints, at most 64: COUNT CUT OVERLONG INT.., or refused NUMBER OVERLONG
use crate::fields::{letter, odd, part, refused, room, room_for_bytes, stored, warnings};
use format::Error;
use packer::{IntRead, ReaderAnswer, Unpacked};
use replay_text::line::Line;
use replay_text::words::{int, number, word};

// Adds 1 if b holds, else 0.
fn flag(line: Line, b: bool) -> Line {
    line.next_number(ints::one_if(b))
}

// The int that was read, or the refusal.
fn int_read(read: Result<IntRead, Error>) -> Line {
    match read {
        Ok(int) => flag(
            Line::new().int(int.value).next_number(int.next),
            int.overlong,
        ),
        Err(e) => refused(e),
    }
}

// Answers r AT HEX.
fn read_case(case: &[u8]) -> Line {
    let mut src = [0u8; 64];
    let len = replay_text::bytes(word(case, 2), &mut src);
    int_read(packer::read_int(&src[..len], number(case, 1)))
}

// Adds the position of a reader after a read: its place, how many entries are left, and whether none are.
fn standing(line: Line, r: ReaderAnswer) -> Line {
    flag(line.next_number(r.at).next_number(r.left), r.empty)
}

// The answer of a reader.
fn reader_read(r: ReaderAnswer) -> Line {
    match r.read {
        Ok(int) => flag(standing(Line::new().int(int.value), r), int.overlong),
        Err(e) => standing(refused(e), r),
    }
}

// Answers b AT HEX.
fn bytes_case(case: &[u8]) -> Line {
    let mut src = [0u8; 64];
    let len = replay_text::bytes(word(case, 2), &mut src);
    reader_read(packer::read_bytes(&src[..len], number(case, 1)))
}

// Answers i AT INT..
fn ints_case(case: &[u8]) -> Line {
    let mut given = [0i32; 65];
    let count = replay_text::ints(case, &mut given);
    reader_read(packer::read_ints(part(&given, 1, count), number(case, 1)))
}

// Answers w ROOM AT INT, with an area of ROOM bytes.
fn write_into(case: &[u8], area: &mut [u8]) -> Line {
    let answer = packer::write_int(area, number(case, 2), int(case, 3));
    stored(answer).bytes(area, area.len())
}

// Answers w ROOM AT INT.
fn write_case(case: &[u8]) -> Line {
    let mut area = [0xaau8; 16];
    let room = room_for_bytes(case, 1, &area);
    write_into(case, &mut area[..room])
}

// The ints that were unpacked, or the refusal.
fn all_unpacked(unpacked: Unpacked, area: &[i32]) -> Line {
    match unpacked.answer {
        Ok(read) => {
            let line = flag(Line::new().number(read.count), read.cut);
            warnings(line, unpacked.warnings, &[0]).ints(area, read.count)
        }
        Err(e) => warnings(refused(e), unpacked.warnings, &[0]),
    }
}

// Answers u ROOM HEX, with the bytes and an area of ROOM ints.
fn unpack_into(src: &[u8], area: &mut [i32]) -> Line {
    let unpacked = packer::unpack(src, area);
    all_unpacked(unpacked, area)
}

// Answers u ROOM HEX.
fn unpack_case(case: &[u8]) -> Line {
    let mut src = [0u8; 64];
    let mut area = [0i32; 64];
    let len = replay_text::bytes(word(case, 2), &mut src);
    let room = room(case, 1, &area);
    unpack_into(&src[..len], &mut area[..room])
}

// Answers a case.
pub fn answer(case: &[u8]) -> Line {
    match letter(case) {
        b'r' => read_case(case),
        b'b' => bytes_case(case),
        b'i' => ints_case(case),
        b'w' => write_case(case),
        b'u' => unpack_case(case),
        _ => odd(),
    }
}
