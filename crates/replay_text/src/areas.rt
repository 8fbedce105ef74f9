// Areas that the programs lend. Their contracts tell a caller's proof the length, which it would otherwise count entry by entry.
ghost use Rattle.std.specs.Prelude.{◌≡◌, length};

// 28,800 ints, as scratch: what they are does not matter before a call.
pub fn scratch() -> [i32; 28800]
    ensures { 28800 ≡ length result }
{
    [77; 28800]
}

// 28,800 bytes, for the parts of a delta.
pub fn part_area() -> [u8; 28800]
    ensures { 28800 ≡ length result }
{
    [0; 28800]
}

// 16,384 ints, for a table or a delta.
pub fn int_area() -> [i32; 16384]
    ensures { 16384 ≡ length result }
{
    [0; 16384]
}
