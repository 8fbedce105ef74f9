// Replays recorded answers of the Rust. Each line of standard input is SUBJECT CASE and gets one line of answer; the file of each subject says what
// its cases and their answers are. A line that is no case is answered odd. The cases of receiver, storage and manager share one manager: those of
// receiver call its receiver, those of storage its store. So a list of calls begins with n.
#![tactic(auto)]

ghost use Rattle.std.specs.Prelude.{◌≡◌, length};

mod delta_cases;
mod fields;
mod manager_cases;
mod packer_cases;
mod receiver_cases;
mod rule_cases;
mod snap_cases;
mod state;
mod storage_cases;
mod table_cases;

use fields::odd;
use replay_text::areas::part_area;
use replay_text::input::read_full;
use replay_text::words::word;
use state::{Answered, State};
use std::io::Result;
use std::rt::HostRuntime;

// What a case is about.
#[derive(Clone, Copy)]
enum Subject {
    Packer,
    Tables,
    Rules,
    Deltas,
    Snaps,
    Receiver,
    Storage,
    Manager,
}

// The subject with a name, by its first letters.
fn subject_of(name: &[u8]) -> Option<Subject> {
    match name {
        [b'p', ..] => Some(Subject::Packer),
        [b't', ..] => Some(Subject::Tables),
        [b'd', ..] => Some(Subject::Deltas),
        [b'm', ..] => Some(Subject::Manager),
        [b'r', b'e', ..] => Some(Subject::Receiver),
        [b'r', b'u', ..] => Some(Subject::Rules),
        [b's', b'n', ..] => Some(Subject::Snaps),
        [b's', b't', ..] => Some(Subject::Storage),
        _ => None,
    }
}

// Answers a case.
fn answer(
    state: State,
    subject: Option<Subject>,
    case: &[u8],
    parts: &mut [u8; 28800],
    area: &mut [i32; 1024],
) -> Answered {
    let line = match subject {
        Some(Subject::Packer) => packer_cases::answer(case),
        Some(Subject::Tables) => table_cases::answer(case),
        Some(Subject::Rules) => rule_cases::answer(case),
        Some(Subject::Deltas) => delta_cases::answer(case),
        Some(Subject::Snaps) => snap_cases::answer(case),
        Some(Subject::Receiver) => return receiver_cases::answer(state, case, parts),
        Some(Subject::Storage) => return storage_cases::answer(state.resized(case), case, area),
        Some(Subject::Manager) => return manager_cases::answer(
            state.resized(case),
            case,
            parts,
            area,
        ),
        None => odd(),
    };
    Answered { state, line }
}

// Prints the answer to a line; returns the state afterwards.
fn step(
    rt: &impl Print,
    state: State,
    line: &[u8],
    parts: &mut [u8; 28800],
    area: &mut [i32; 1024],
) -> Result<State> {
    let subject = subject_of(word(line, 0));
    let case = replay_text::after(line, b' ');
    let answered = answer(state, subject, case, parts, area);
    answered.line.print(rt)?;
    Ok(answered.state)
}

// Prints the answer to each line.
fn replay(
    rt: &impl Print,
    cases: &[u8],
    parts: &mut [u8; 28800],
    area: &mut [i32; 1024],
) -> Result<()> {
    let mut state = State::new();
    for line in cases.split_inclusive(|b| *b == b'\n') {
        state = step(rt, state, replay_text::until(line, b'\n'), parts, area)?;
    }
    Ok(())
}

// 524,288 zeros, for all lines of the input.
fn buffer() -> [u8; 524288]
    ensures { 524288 ≡ length result }
{
    [0; 524288]
}

// Reads all cases and answers them.
fn main(rt: HostRuntime) -> Result<()> {
    let mut cases = buffer();
    let mut parts = part_area();
    let mut area = [0i32; 1024];
    let len = read_full(&rt, &mut cases)?;
    replay(&rt, &cases[..len], &mut parts, &mut area)
}
