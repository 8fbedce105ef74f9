// Examples of packed integers, one on each line: ints as written, bytes as read, and bytes unpacked.
#![tactic(auto)]

ghost use Rattle.std.specs.Prelude.{◌<◌};

use replay_text::line::Line;
use std::io::Result;
use std::rt::HostRuntime;

// The character of a hexadecimal digit, in upper case.
fn glyph(d: u8) -> u8
    requires { d < 16 }
{
    if d < 10 { b'0' + d } else { b'A' - 10 + d }
}

// Adds a byte as two hexadecimal digits, after a space unless the line is empty.
fn hex(line: Line, b: u8) -> Line {
    line.gap().byte(glyph(b / 16)).byte(glyph(b % 16))
}

// Adds bytes as hexadecimal digits.
fn all_hex(line: Line, bytes: &[u8]) -> Line {
    let mut l = line;
    for b in bytes {
        l = hex(l, *b);
    }
    l
}

// Adds a text, if it applies.
fn with_if(line: Line, applies: bool, text: &[u8]) -> Line {
    if applies { line.text(text) } else { line }
}

// Adds the warning of an int.
fn warned(line: Line, overlong: bool) -> Line {
    with_if(line, overlong, b", overlong")
}

// The first bytes of an area.
fn first(area: &[u8], len: usize) -> &[u8] {
    if len <= area.len() {
        return &area[0..len];
    }
    area
}

// The int read back from some bytes, and the bytes.
fn read_back(bytes: &[u8]) -> Line {
    let Ok(read) = packer::read_int(bytes, 0) else {
        return Line::new().text(b"not read back");
    };
    let line = Line::new().int(read.value).text(b" =");
    warned(all_hex(line, bytes), read.overlong)
}

// Shows how an int is written.
fn show_int(rt: &impl Print, int: i32) -> Result<()> {
    let mut area = [0u8; 5];
    let line = match packer::write_int(&mut area, 0, int) {
        Ok(next) => read_back(first(&area, next)),
        Err(_) => Line::new().text(b"refused"),
    };
    line.print(rt)
}

// Shows how ints are written.
fn show_ints(rt: &impl Print, ints: &[i32]) -> Result<()> {
    for int in ints {
        show_int(rt, *int)?;
    }
    Ok(())
}

// Adds what is read at the front of some bytes, or the refusal.
fn read(line: Line, bytes: &[u8]) -> Line {
    match packer::read_int(bytes, 0) {
        Ok(read) => warned(line.text(b" reads ").int(read.value), read.overlong),
        Err(e) => line.text(b" refused").next_number(u32::from(e) as usize),
    }
}

// Shows what is read at the front of some bytes.
fn show_read(rt: &impl Print, bytes: &[u8]) -> Result<()> {
    read(all_hex(Line::new(), bytes), bytes).print(rt)
}

// Shows what is unpacked from some bytes.
fn show_unpacked(rt: &impl Print, bytes: &[u8]) -> Result<()> {
    let mut area = [0i32; 5];
    let unpacked = packer::unpack(bytes, &mut area);
    let line = all_hex(Line::new(), bytes);
    let line = match unpacked.answer {
        Ok(read) => with_if(
            line.text(b" unpacks").ints(&area, read.count),
            read.cut,
            b", cut",
        ),
        Err(_) => line.text(b" refused"),
    };
    line.print(rt)
}

// Shows the worked examples of docs/FORMAT.md.
fn show_marked(rt: &impl Print) -> Result<()> {
    show_ints(rt, &[0, -1, 63, 64, -64, -65, 2147483647, -2147483648])?;
    show_read(rt, b"\x80\x00")?;
    show_read(rt, b"\x80\x80\x80\x80\x10")?;
    Ok(())
}

// Shows the limits of each length, overlong ints, padding bits, and bytes that end inside an int.
fn show_others(rt: &impl Print) -> Result<()> {
    show_ints(
        rt,
        &[8191, 8192, -8193, 1048575, 1048576, 134217727, 134217728],
    )?;
    show_read(rt, b"\xc0\x00")?;
    show_read(rt, b"\x80\x80\x80\x80\x00")?;
    show_read(rt, b"\x80\x80\x80\x80\x0f")?;
    show_read(rt, b"\x80\x80\x80\x80\x80")?;
    show_read(rt, b"\xff\xff\xff\xff\xff")?;
    show_read(rt, b"\x80\x80")?;
    Ok(())
}

// Shows the cases, and bytes with several ints of which the last is cut off or has a padding bit set.
fn main(rt: HostRuntime) -> Result<()> {
    show_marked(&rt)?;
    show_others(&rt)?;
    show_unpacked(&rt, b"\x00\x40\x80\x01\x80")?;
    show_unpacked(&rt, b"\x00\x40\x80\x80\x80\x80\x10")?;
    Ok(())
}
