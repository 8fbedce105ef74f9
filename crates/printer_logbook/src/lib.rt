// The logbook of a printer: the outcome of its messages without their bytes.
#![tactic(auto)]

ghost use Rattle.std.specs.Prelude.{◌≡◌, ℤ, List, ℕ};
ghost use Rattle.definitions.specs.Logbook.{fresh_logbook};
ghost use Rattle.printer_logbook.specs.States.{logbook_of};

use format::Error;
use ticks::Tick;

pub mod checked;

// The newest tick and the acknowledgement, if any; how many parts of the newest tick came; how many ticks are held. The two lists are in areas, latest last.
#[derive(Clone, Copy)]
pub struct Logbook {
    pub newest: Option<Tick>,
    pub parts: usize,
    pub ticks: usize,
    pub ack_tick: Option<Tick>,
}

// The answer for a message (the tick that it acknowledges, none yet, or a refusal), and what is noted afterwards.
#[derive(Clone, Copy)]
pub struct Note {
    pub answer: Result<Option<Tick>, Error>,
    pub logbook: Logbook,
}

impl Logbook {
    // The most ticks that are held.
    pub const MAX_TICKS: usize = 100;

    // A logbook in which nothing is noted.
    pub fn new() -> Logbook
        ensures { (came : List ℕ) (held : List ℤ) → logbook_of result came held ≡ fresh_logbook }
    {
        Logbook {
            newest: None,
            parts: 0,
            ticks: 0,
            ack_tick: None,
        }
    }
}
