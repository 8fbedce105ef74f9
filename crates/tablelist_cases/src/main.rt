// Lists packed tables: each line of standard input is one, in hexadecimal digits, and gets its listing.
#![tactic(auto)]

use replay_text::input::read_full;
use std::io::Result;
use std::rt::HostRuntime;

// Writes the listing of the packed table on a line.
fn reply(rt: &impl Print, line: &[u8]) -> Result<()> {
    let mut src = [0u8; 16384];
    let len = replay_text::bytes(line, &mut src);
    let mut text = [0u8; 32768];
    let end = table_text::listing(&src[..len], &mut text);
    rt.write_all(&text[..end])
}

// Writes the listing of each line.
fn replay(rt: &impl Print, cases: &[u8]) -> Result<()> {
    for line in cases.split_inclusive(|b| *b == b'\n') {
        reply(rt, replay_text::until(line, b'\n'))?;
    }
    Ok(())
}

// Reads all cases and answers them.
fn main(rt: HostRuntime) -> Result<()> {
    let mut cases = io::large_buffer();
    let len = read_full(&rt, &mut cases)?;
    replay(&rt, &cases[..len])
}
