// The radio: messages are lost, doubled, or held back and delivered later.
use crate::random::{next_seed, side_of};
use gamenet_snap::SnapMsg;

// The most bytes of a message.
const PART: usize = 900;

// What happens to a message.
#[derive(Clone, Copy)]
pub enum Fate {
    Lost,
    Late,
    Twice,
    Through,
}

// A message that is held back, and how many bytes it has.
#[derive(Clone, Copy)]
pub struct Letter {
    pub message: SnapMsg,
    pub len: usize,
}

// The current seed, and eight places for messages that are held back. The bytes of the k-th begin at 900 k.
#[derive(Clone, Copy)]
pub struct Radio {
    pub seed: u64,
    letters: [Option<Letter>; 8],
    pub bytes: [u8; 7200],
}

// The place of the bytes for the k-th place.
fn place(k: usize) -> usize {
    k % 8 * PART
}

// A part of some bytes; empty if they end before it does.
pub fn cut(src: &[u8], from: usize, len: usize) -> &[u8] {
    if from <= src.len() && len <= src.len() - from {
        return &src[from..from + len];
    }
    &[]
}

// The first bytes of the k-th place.
pub fn bytes_at(bytes: &[u8; 7200], k: usize, len: usize) -> &[u8] {
    cut(bytes, place(k), len)
}

// Copies some bytes into an area from a place on.
fn put(area: &mut [u8; 7200], at: usize, data: &[u8]) {
    replay_text::put(area, at, data);
}

impl Radio {
    // A radio that holds nothing back.
    pub fn new(seed: u64) -> Radio {
        Radio {
            seed,
            letters: [None; 8],
            bytes: [0; 7200],
        }
    }

    // Draws the next number.
    pub fn roll(self) -> Radio {
        Radio {
            seed: next_seed(self.seed),
            ..self
        }
    }

    // What happens to a message now.
    pub fn fate(self) -> Fate {
        match side_of(self.seed) {
            0..=2 => Fate::Lost,
            3..=5 => Fate::Late,
            6..=7 => Fate::Twice,
            _ => Fate::Through,
        }
    }

    // Whether a message that is held back is delivered now.
    pub fn comes(self) -> bool {
        side_of(self.seed) < 10
    }

    // The message at the k-th place, if there is one.
    pub fn letter(self, k: usize) -> Option<Letter> {
        *self.letters.get(k)?
    }

    // A place without a message, if there is one.
    pub fn free(self) -> Option<usize> {
        self.letters.iter().position(|letter| letter.is_none())
    }

    // Puts a message at the k-th place.
    pub fn hold(self, k: usize, message: SnapMsg, data: &[u8]) -> Radio {
        let letter = Letter {
            message,
            len: data.len(),
        };
        let mut bytes = self.bytes;
        put(&mut bytes, place(k), data);
        self.with(k, Some(letter), bytes)
    }

    // Empties the k-th place.
    pub fn release(self, k: usize) -> Radio {
        self.with(k, None, self.bytes)
    }

    // Replaces the k-th place and the bytes.
    fn with(self, k: usize, letter: Option<Letter>, bytes: [u8; 7200]) -> Radio {
        let mut letters = self.letters;
        if let Some(place) = letters.get_mut(k) {
            *place = letter;
        }
        Radio {
            seed: self.seed,
            letters,
            bytes,
        }
    }
}
