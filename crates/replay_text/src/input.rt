// All of standard input, for the programs.
ghost use Rattle.std.specs.Io.{ReadsAtMost};

use std::io::{Input, Read, Result};

// Reads standard input until it ends or an area is full; returns how many bytes it put at the front.
pub fn read_full(rt: &impl Input, area: &mut [u8]) -> Result<usize>
    ensures { ReadsAtMost result area.new }
{
    let mut reader = rt.reader();
    let mut len: usize = 0;
    // How many bytes a read gives is not known before it, so no range has the turns.
    while len < area.len() {
        let n = reader.read(&mut area[len..])?;
        if n == 0 {
            break;
        }
        len += n;
    }
    Ok(len)
}
