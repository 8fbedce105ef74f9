// Runs a session of a controller and a printer over a radio that loses, doubles and reorders messages, and prints each answer beside the logbook's.
#![tactic(auto)]

mod controller;
mod lines;
mod link;
mod printer;
mod radio;
mod random;

use controller::{Controller, packed_part};
use lines::{print_acknowledgement, print_base_refused, print_base_set, print_last};
use link::Link;
use printer::Printer;
use radio::Radio;
use random::side_of;
use std::io::Result;
use std::rt::HostRuntime;
use storage::Storage;
use ticks::Tick;

// The last tick, which is sent without loss.
const LAST: u32 = 39;

// The controller, the radio and the printer, and an acknowledgement that is held back.
#[derive(Clone, Copy)]
struct Session {
    controller: Controller,
    link: Link,
    ack_tick: Tick,
}

// The tick that a printer acknowledges, or -1.
fn acknowledged(h: Link) -> Tick {
    h.printer.manager.ack_tick().unwrap_or(Tick(-1))
}

// Delivers an acknowledgement to the controller, which sets its base from it; -1 sets none.
fn set_base(rt: &impl Print, s: Storage, tick: Tick, control: &mut [i32]) -> Result<Storage> {
    let setting = s.set_delta_tick(tick, control);
    match setting.answer {
        Ok(()) => print_base_set(rt, tick)?,
        Err(e) => print_base_refused(rt, tick, e)?,
    }
    Ok(setting.storage)
}

// Sends the printer's acknowledgement back: it is lost, or held back while the one held back before is delivered, or delivered.
fn acknowledge(
    rt: &impl Print,
    controller: Controller,
    link: Link,
    late: Tick,
    control: &mut [i32],
) -> Result<Session> {
    let link = link.roll();
    let side = side_of(link.radio.seed);
    let tick = acknowledged(link);
    let mut storage = controller.storage;
    let mut ack_tick = late;
    if side < 4 {
        print_acknowledgement(rt, tick, b": lost")?;
    } else if side < 7 {
        print_acknowledgement(rt, tick, b": held back")?;
        storage = set_base(rt, storage, late, control)?;
        ack_tick = tick;
    } else {
        storage = set_base(rt, storage, tick, control)?;
    }
    Ok(Session {
        controller: Controller {
            storage,
            ..controller
        },
        link,
        ack_tick,
    })
}

// Runs one tick: some messages held back are delivered, a table is added and sent, and the acknowledgement goes back.
fn turn(
    rt: &impl Print,
    s: Session,
    tick: u32,
    control: &mut [i32; 65536],
    area: &mut [i32; 65536],
) -> Result<Session> {
    let link = s.link.come_late(rt, area)?;
    let told = s
        .controller
        .tell(rt, Tick(ints::from_bits(tick)), tick % 8 == 5, control)?;
    let packed = packed_part(&told.packed, told.len);
    let link = link.send_all(rt, told.sent, packed, tick == LAST, area)?;
    acknowledge(rt, told.controller, link, s.ack_tick, control)
}

// Compares the newest tables of both ends.
fn finish(rt: &impl Print, s: Session, control: &[i32], area: &[i32]) -> Result<()> {
    let printer = s.link.printer;
    let ours = s.controller.storage.snap(control, 0);
    let theirs = printer.manager.storage.snap(area, 0);
    print_last(
        rt,
        ours == theirs,
        acknowledged(s.link),
        printer.messages,
        printer.acknowledged,
        printer.differing,
    )
}

// A session before anything happened; both seeds are fixed.
fn begin() -> Session {
    Session {
        controller: Controller::new(1),
        link: Link {
            radio: Radio::new(2),
            printer: Printer::new(),
        },
        ack_tick: Tick(-1),
    }
}

// Runs all ticks, one after the other.
fn run(rt: &impl Print, control: &mut [i32; 65536], area: &mut [i32; 65536]) -> Result<()> {
    let mut s = begin();
    for tick in 0..=LAST {
        s = turn(rt, s, tick, control, area)?;
    }
    finish(rt, s, control, area)
}

// Lends both ends the areas of their stores and runs the session.
fn main(rt: HostRuntime) -> Result<()> {
    let mut control = [0i32; 65536];
    let mut area = [0i32; 65536];
    run(&rt, &mut control, &mut area)
}
