// The printer: a manager with the logbook beside it.
use crate::lines::print_delivered;
use format::Error;
use gamenet_snap::SnapMsg;
use manager::{Handling, Manager};
use printer_logbook::{Logbook, Note};
use replay_text::areas::{int_area, part_area, scratch};
use std::io::Result;

// The manager with its part area; the logbook with its two lists; how many messages came, how many of them were acknowledged, and how often the
// two answers differed.
#[derive(Clone, Copy)]
pub struct Printer {
    pub manager: Manager,
    parts: [u8; 28800],
    logbook: Logbook,
    came: [usize; 33],
    held: [i32; 101],
    pub messages: usize,
    pub acknowledged: usize,
    pub differing: usize,
}

// n, plus one if b holds.
fn count(n: usize, b: bool) -> usize {
    n.wrapping_add(usize::from(b))
}

// Gives the manager a message; no size is known.
fn hand(manager: Manager, m: SnapMsg, data: &[u8], parts: &mut [u8], area: &mut [i32]) -> Handling {
    let mut joined = part_area();
    let mut delta = int_area();
    let mut scratch = scratch();
    match m {
        SnapMsg::Snap {
            tick,
            delta_tick,
            num_parts,
            part,
            crc,
        } => manager.snap(
            tick,
            delta_tick,
            num_parts,
            part,
            crc,
            data,
            &[],
            parts,
            &mut joined,
            &mut delta,
            area,
            &mut scratch,
        ),
        SnapMsg::SnapSingle {
            tick,
            delta_tick,
            crc,
        } => manager.snap_single(
            tick,
            delta_tick,
            crc,
            data,
            &[],
            parts,
            &mut joined,
            &mut delta,
            area,
            &mut scratch,
        ),
        SnapMsg::SnapEmpty { tick, delta_tick } => manager.snap_empty(
            tick,
            delta_tick,
            parts,
            &mut joined,
            &mut delta,
            area,
            &mut scratch,
        ),
    }
}

// Gives the logbook a message; refuses it if the areas are full.
fn note(g: Logbook, m: SnapMsg, came: &mut [usize; 33], held: &mut [i32; 101]) -> Note {
    if g.parts < 33 && g.ticks < 101 {
        return printer_logbook::checked::note_message(g, m, came, held);
    }
    Note {
        answer: Err(Error::CapacityError),
        logbook: g,
    }
}

impl Printer {
    // A printer that received nothing.
    pub fn new() -> Printer {
        Printer {
            manager: Manager::new(),
            parts: part_area(),
            logbook: Logbook::new(),
            came: [0; 33],
            held: [0; 101],
            messages: 0,
            acknowledged: 0,
            differing: 0,
        }
    }

    // Delivers a message and prints both answers.
    pub fn deliver(
        self,
        rt: &impl Print,
        m: SnapMsg,
        data: &[u8],
        area: &mut [i32; 65536],
    ) -> Result<Printer> {
        let mut parts = self.parts;
        let mut came = self.came;
        let mut held = self.held;
        let handling = hand(self.manager, m, data, &mut parts, area);
        let noted = note(self.logbook, m, &mut came, &mut held);
        let answer = handling.answer;
        print_delivered(rt, m, answer, noted.answer)?;
        Ok(Printer {
            manager: handling.manager,
            parts,
            logbook: noted.logbook,
            came,
            held,
            messages: count(self.messages, true),
            acknowledged: count(self.acknowledged, matches!(answer, Ok(Some(_)))),
            differing: count(self.differing, answer != noted.answer),
        })
    }
}
