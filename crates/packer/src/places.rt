// What the readers do at a place of a slice: plain functions, which every caller without a reader may use.
ghost use Rattle.std.specs.Prelude.{◌≡◌, drop};
ghost use Rattle.definitions.specs.Readers.{plain_int_call, place_after};
ghost use Rattle.packer.specs.Answers.{int_read};

use super::{IntRead, MAX_INPUT, checked};
use format::Error;

// The int at a place of src.
pub fn read_plain_int(src: &[i32], at: usize) -> Result<IntRead, Error>
    ensures { plain_int_call src.now at ≡ int_read result }
{
    if MAX_INPUT < src.len() {
        return Err(Error::InputTooLong);
    }
    checked::read_plain_int(src, at)
}

// The place of a reader of len entries after reading at a place: after the integer, unchanged if there are too many entries (42), else
// the end.
pub fn place_after(read: Result<IntRead, Error>, at: usize, len: usize) -> usize
    ensures { result ≡ place_after len at (int_read read) }
{
    match read {
        Ok(int) => int.next,
        Err(Error::InputTooLong) => at,
        Err(_) => len,
    }
}

// The entries from a place on.
pub fn rest_from<'a, T>(src: &'a [T], at: usize) -> &'a [T]
    ensures { result.now ≡ drop at src.now }
{
    &src[src.len().min(at)..]
}
