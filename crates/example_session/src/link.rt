// The radio and the printer together.
use crate::lines::print_on_the_way;
use crate::printer::Printer;
use crate::radio::{Fate, Radio, bytes_at};
use delta_chunks::{chunk_data, chunk_numbers, num_chunks};
use gamenet_snap::SnapMsg;
use std::io::Result;
use ticks::Tick;

// The radio and the printer.
#[derive(Clone, Copy)]
pub struct Link {
    pub radio: Radio,
    pub printer: Printer,
}

// The tick of a delta, the tick of its base, and its table's sum.
#[derive(Clone, Copy)]
pub struct Sent {
    pub tick: Tick,
    pub base: Tick,
    pub crc: i32,
}

impl Link {
    // Draws the next number.
    pub fn roll(self) -> Link {
        Link {
            radio: self.radio.roll(),
            ..self
        }
    }

    // Holds a message back, or loses it if there is no place for it.
    fn hold(self, rt: &impl Print, m: SnapMsg, data: &[u8]) -> Result<Link> {
        let Some(k) = self.radio.free() else {
            print_on_the_way(rt, m, b": lost")?;
            return Ok(self);
        };
        print_on_the_way(rt, m, b": held back")?;
        Ok(Link {
            radio: self.radio.hold(k, m, data),
            ..self
        })
    }

    // Delivers a message to the printer, whose store has its tables in an area.
    fn deliver(
        self,
        rt: &impl Print,
        m: SnapMsg,
        data: &[u8],
        area: &mut [i32; 65536],
    ) -> Result<Link> {
        Ok(Link {
            printer: self.printer.deliver(rt, m, data, area)?,
            ..self
        })
    }

    // Sends a message; if sure, it is not lost, held back or doubled.
    fn send(
        self,
        rt: &impl Print,
        m: SnapMsg,
        data: &[u8],
        sure: bool,
        area: &mut [i32; 65536],
    ) -> Result<Link> {
        if sure {
            return self.deliver(rt, m, data, area);
        }
        let h = self.roll();
        match h.radio.fate() {
            Fate::Lost => {
                print_on_the_way(rt, m, b": lost")?;
                Ok(h)
            }
            Fate::Late => h.hold(rt, m, data),
            Fate::Twice => {
                let h = h.deliver(rt, m, data, area)?;
                h.deliver(rt, m, data, area)
            }
            Fate::Through => h.deliver(rt, m, data, area),
        }
    }

    // Sends the i-th message of a delta.
    fn send_chunk(
        self,
        rt: &impl Print,
        sent: Sent,
        i: usize,
        data: &[u8],
        sure: bool,
        area: &mut [i32; 65536],
    ) -> Result<Link> {
        match chunk_numbers(sent.tick, sent.base, data, sent.crc, i) {
            Ok(Some(m)) => self.send(rt, m, chunk_data(data, i), sure, area),
            _ => Ok(self),
        }
    }

    // Sends the messages of a delta.
    pub fn send_all(
        self,
        rt: &impl Print,
        sent: Sent,
        data: &[u8],
        sure: bool,
        area: &mut [i32; 65536],
    ) -> Result<Link> {
        let mut h = self;
        for i in 0..num_chunks(data).unwrap_or(0) {
            h = h.send_chunk(rt, sent, i, data, sure, area)?;
        }
        Ok(h)
    }

    // Delivers the message held back at the k-th place, or keeps it waiting.
    fn come(self, rt: &impl Print, k: usize, area: &mut [i32; 65536]) -> Result<Link> {
        let h = self.roll();
        let Some(letter) = h.radio.letter(k) else {
            return Ok(h);
        };
        if !h.radio.comes() {
            return Ok(h);
        }
        let bytes = h.radio.bytes;
        let h = h.deliver(rt, letter.message, bytes_at(&bytes, k, letter.len), area)?;
        Ok(Link {
            radio: h.radio.release(k),
            ..h
        })
    }

    // Delivers some of the messages held back.
    pub fn come_late(self, rt: &impl Print, area: &mut [i32; 65536]) -> Result<Link> {
        let mut h = self;
        for k in 0..8 {
            h = h.come(rt, k, area)?;
        }
        Ok(h)
    }
}
