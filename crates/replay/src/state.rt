// What the cases of receiver, storage and manager share.
use crate::fields::letter;
use manager::Manager;
use receiver::DeltaReceiver;
use replay_text::line::Line;
use replay_text::words::number;
use storage::Storage;

// A manager, and how many ints its store's area and the delta area have.
#[derive(Clone, Copy)]
pub struct State {
    pub manager: Manager,
    pub room: usize,
    pub delta: usize,
}

// The state after a case, and the answer.
#[derive(Clone, Copy)]
pub struct Answered {
    pub state: State,
    pub line: Line,
}

impl State {
    // A new manager, without areas.
    pub fn new() -> State {
        State {
            manager: Manager::new(),
            room: 0,
            delta: 0,
        }
    }

    // The state with the lengths that a case n says.
    pub fn resized(self, case: &[u8]) -> State {
        if letter(case) != b'n' {
            return self;
        }
        let manager = self.manager;
        State {
            manager,
            room: number(case, 1),
            delta: number(case, 2),
        }
    }

    // The state with another manager, and an answer.
    pub fn answered(self, manager: Manager, line: Line) -> Answered {
        let state = State {
            manager,
            room: self.room,
            delta: self.delta,
        };
        Answered { state, line }
    }
}

// A manager with another receiver.
pub fn with_receiver(m: Manager, receiver: DeltaReceiver) -> Manager {
    let storage = m.storage;
    Manager { receiver, storage }
}

// A manager with another store.
pub fn with_storage(m: Manager, storage: Storage) -> Manager {
    let receiver = m.receiver;
    Manager { receiver, storage }
}
