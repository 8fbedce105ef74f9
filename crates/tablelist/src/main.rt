// Lists the packed table on standard input: its item count and sum, then type, id and int count of each item.
#![tactic(auto)]

use replay_text::input::read_full;
use std::io::Result;
use std::rt::HostRuntime;

// Reads until the input ends or is too long, and writes its listing.
fn main(rt: HostRuntime) -> Result<()> {
    let mut src = io::large_buffer();
    let len = read_full(&rt, &mut src)?;
    let mut text = [0u8; 32768];
    let end = table_text::listing(&src[..len], &mut text);
    rt.write_all(&text[..end])
}
