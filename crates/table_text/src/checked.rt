// Reading for programs that show a packed table of limited length.
ghost use Rattle.std.specs.Prelude.{◌≡◌, ◌≤◌, length};
ghost use Rattle.table_text.specs.Reading.{tabled, unwarned, read_into};

use format::Error;

// Reads a packed table of at most 8,192 bytes into an area that has room for every table.
pub fn read_table(src: &[u8], area: &mut [i32]) -> Result<usize, Error>
    requires { 16384 ≤ length area.old }
    ensures { unwarned (tabled src.now) ≡ read_into result area.new }
{
    if 8192 < src.len() {
        return Err(Error::InputTooLong);
    }
    let mut scratch = [0i32; 16384];
    raw_snap::read(src, area, &mut scratch).answer
}
