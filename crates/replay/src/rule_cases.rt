// Cases on rules. A case names at most 8 types.
//     w INGREDIENT COUNT TYPE.. INT..  the winner for an ingredient among the items of COUNT types of an area: KEY ACTION, or none, or refused NUMBER
use crate::fields::{id, letter, none, odd, part, refused};
use format::Error;
use replay_text::line::Line;
use replay_text::words::{int, number};
use rules::Won;

// The key and the action of the winner, or that there is none, or the refusal.
fn won(answer: Result<Option<Won>, Error>) -> Line {
    match answer {
        Ok(Some(won)) => Line::new().int(won.key).next_int(won.action),
        Ok(None) => none(),
        Err(e) => refused(e),
    }
}

// The words of a case from the fourth on, as types.
fn types_in(case: &[u8]) -> [u16; 8] {
    [
        id(case, 3),
        id(case, 4),
        id(case, 5),
        id(case, 6),
        id(case, 7),
        id(case, 8),
        id(case, 9),
        id(case, 10),
    ]
}

// Answers w INGREDIENT COUNT TYPE.. INT..
fn winner_case(case: &[u8]) -> Line {
    let mut given = [0i32; 128];
    let types = types_in(case);
    let named = number(case, 2);
    if types.len() < named {
        return odd();
    }
    let count = replay_text::ints(case, &mut given);
    let area = part(&given, named + 2, count);
    won(rules::winner(area, &types[0..named], int(case, 1)))
}

// Answers a case.
pub fn answer(case: &[u8]) -> Line {
    match letter(case) {
        b'w' => winner_case(case),
        _ => odd(),
    }
}
