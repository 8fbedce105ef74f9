// The lines of the session's text.
use format::Error;
use gamenet_snap::SnapMsg;
use replay_text::line::Line;
use std::io;
use ticks::{Distance, Tick};

// The tick, the base and the part of a message.
fn part_line(tick: Tick, distance: Distance, part: i32, count: i32) -> Line {
    let base = tick.minus(distance);
    let line = Line::new()
        .text(b"tick ")
        .int(tick.0)
        .text(b" base ")
        .int(base.0);
    line.text(b" part ").int(part).text(b" of ").int(count)
}

// The numbers of a message.
fn message_line(m: SnapMsg) -> Line {
    match m {
        SnapMsg::Snap {
            tick,
            delta_tick,
            num_parts,
            part,
            crc: _,
        } => part_line(tick, delta_tick, part, num_parts),
        SnapMsg::SnapSingle {
            tick,
            delta_tick,
            crc: _,
        } => part_line(tick, delta_tick, 0, 1),
        SnapMsg::SnapEmpty { tick, delta_tick } => {
            part_line(tick, delta_tick, 0, 1).text(b", empty")
        }
    }
}

// Adds the number of a refusal.
fn refused(line: Line, e: Error) -> Line {
    line.text(b"refused ").number(u32::from(e) as usize)
}

// Adds the manager's answer or the logbook's.
fn answered(line: Line, answer: Result<Option<Tick>, Error>) -> Line {
    match answer {
        Ok(Some(tick)) => line.text(b"acknowledged ").int(tick.0),
        Ok(None) => line.text(b"not yet"),
        Err(e) => refused(line, e),
    }
}

// Prints a message that arrived, with the manager's answer and the logbook's.
pub fn print_delivered(
    rt: &impl Print,
    m: SnapMsg,
    a: Result<Option<Tick>, Error>,
    b: Result<Option<Tick>, Error>,
) -> io::Result<()> {
    let line = answered(message_line(m).text(b": "), a);
    let line = answered(line.text(b", logbook "), b);
    let line = if a == b {
        line
    } else {
        line.text(b", DIFFERS")
    };
    line.print(rt)
}

// Prints a message, and what happened to it on the way.
pub fn print_on_the_way(rt: &impl Print, m: SnapMsg, what: &[u8]) -> io::Result<()> {
    message_line(m).text(what).print(rt)
}

// A table and its tick.
fn table_line(tick: Tick) -> Line {
    Line::new().text(b"table at tick ").int(tick.0)
}

// Prints a table that was added: its tick, its base, and the length of its delta in ints and in packed bytes.
pub fn print_added(
    rt: &impl Print,
    tick: Tick,
    base: Tick,
    ints: usize,
    bytes: usize,
) -> io::Result<()> {
    let line = table_line(tick).text(b": base ").int(base.0);
    let line = line.text(b", delta of ").number(ints);
    line.text(b" ints, sent in ")
        .number(bytes)
        .text(b" bytes")
        .print(rt)
}

// Prints a table that was not added.
pub fn print_not_added(rt: &impl Print, tick: Tick) -> io::Result<()> {
    table_line(tick).text(b" REFUSED").print(rt)
}

// An acknowledgement.
fn acknowledgement(tick: Tick) -> Line {
    Line::new().text(b"acknowledgement ").int(tick.0)
}

// Prints an acknowledgement, and what happened to it on the way.
pub fn print_acknowledgement(rt: &impl Print, tick: Tick, what: &[u8]) -> io::Result<()> {
    acknowledgement(tick).text(what).print(rt)
}

// Prints an acknowledgement that the controller took as its base.
pub fn print_base_set(rt: &impl Print, tick: Tick) -> io::Result<()> {
    if tick.is_negative() {
        return print_acknowledgement(rt, tick, b": no base");
    }
    print_acknowledgement(rt, tick, b": base set")
}

// Prints an acknowledgement that the controller refused as a base.
pub fn print_base_refused(rt: &impl Print, tick: Tick, e: Error) -> io::Result<()> {
    refused(acknowledgement(tick).text(b": base "), e).print(rt)
}

// Whether both ends hold the same table.
fn verdict(equal: bool) -> Line {
    Line::new().text(if equal {
        b"tables equal"
    } else {
        b"tables DIFFER"
    })
}

// Prints the last line: whether both ends hold the same table, and how often each thing happened.
pub fn print_last(
    rt: &impl Print,
    equal: bool,
    tick: Tick,
    messages: usize,
    acknowledged: usize,
    differing: usize,
) -> io::Result<()> {
    let line = verdict(equal).text(b" at tick ").int(tick.0);
    let line = line.text(b", ").number(messages).text(b" messages, ");
    let line = line.number(acknowledged).text(b" acknowledgements, ");
    line.number(differing)
        .text(b" answers differ from the logbook")
        .print(rt)
}
