// Calls on the state's receiver, as the lines before left it.
//     n                              a fresh receiver
//     r                              forgets both ticks
//     s TICK DIST NUM PART CRC HEX   a part
//     i TICK DIST CRC HEX            a single message
//     e TICK DIST                    an empty message
// An answer is DUPLICATE DIFFERING, the two warning counts, and then more, delta TICK BASE CRC LEN HEX, empty TICK BASE, or refused NUMBER.
use crate::fields::{distance, letter, next_tick, refusal, tick, warnings};
use crate::state::{Answered, State, with_receiver};
use format::{Error, Warnings};
use receiver::{DeltaReceiver, Received, Receiving};
use replay_text::areas::part_area;
use replay_text::line::Line;
use replay_text::words::{int, word};

// Adds what a message brought.
fn received(line: Line, a: Result<Option<Received>, Error>, joined: &[u8]) -> Line {
    match a {
        Ok(None) => line.next_text(b"more"),
        Ok(
            Some(
                Received::Delta {
                    tick,
                    delta_tick,
                    len,
                    crc,
                },
            ),
        ) => {
            let line = next_tick(next_tick(line.next_text(b"delta"), tick), delta_tick);
            line.next_int(crc).next_number(len).bytes(joined, len)
        }
        Ok(Some(Received::Empty { tick, delta_tick })) => {
            next_tick(next_tick(line.next_text(b"empty"), tick), delta_tick)
        }
        Err(e) => refusal(line, e),
    }
}

// A receiver without a message.
fn quiet(receiver: DeltaReceiver) -> Receiving {
    Receiving {
        answer: Ok(None),
        warnings: Warnings::none(),
        receiver,
    }
}

// A part.
fn snap(r: DeltaReceiver, case: &[u8], parts: &mut [u8; 28800], joined: &mut [u8]) -> Receiving {
    let mut data = [0u8; 64];
    let len = replay_text::bytes(word(case, 6), &mut data);
    r.snap(
        tick(case, 1),
        distance(case, 2),
        int(case, 3),
        int(case, 4),
        int(case, 5),
        &data[..len],
        parts,
        joined,
    )
}

// A single message.
fn single(r: DeltaReceiver, case: &[u8], joined: &mut [u8]) -> Receiving {
    let mut data = [0u8; 64];
    let len = replay_text::bytes(word(case, 4), &mut data);
    let crc = int(case, 3);
    r.snap_single(tick(case, 1), distance(case, 2), crc, &data[..len], joined)
}

// An empty message.
fn empty(r: DeltaReceiver, case: &[u8]) -> Receiving {
    r.snap_empty(tick(case, 1), distance(case, 2))
}

// Handles the call of a case.
fn call(r: DeltaReceiver, case: &[u8], parts: &mut [u8; 28800], joined: &mut [u8]) -> Receiving {
    match letter(case) {
        b'n' => quiet(DeltaReceiver::new()),
        b'r' => quiet(r.reset()),
        b's' => snap(r, case, parts, joined),
        b'i' => single(r, case, joined),
        b'e' => empty(r, case),
        _ => quiet(r),
    }
}

// Answers a case.
pub fn answer(state: State, case: &[u8], parts: &mut [u8; 28800]) -> Answered {
    let mut joined = part_area();
    let m = state.manager;
    let called = call(m.receiver, case, parts, &mut joined);
    let answer = called.answer;
    let line = warnings(Line::new(), called.warnings, &[9, 10]);
    let line = received(line, answer, &joined);
    state.answered(with_receiver(m, called.receiver), line)
}
