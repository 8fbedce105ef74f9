// The words of a line by their numbers.
ghost use Rattle.std.specs.Prelude.{◌≡◌};
ghost use Rattle.replay_text.specs.Words as Words;
ghost use Rattle.replay_text.specs.Numbers as Numbers;

// The word of a line with this number, from 0 on.
pub fn word(line: &[u8], i: usize) -> &[u8]
    ensures { result.now ≡ Words.word i line.now }
{
    crate::word(line, i)
}

// The number that is the i-th word of a line.
pub fn number(line: &[u8], i: usize) -> usize
    ensures { result ≡ Numbers.number (Words.word i line.now) }
{
    crate::number(crate::word(line, i))
}

// The int that is the i-th word of a line.
pub fn int(line: &[u8], i: usize) -> i32
    ensures { result ≡ Numbers.int (Words.word i line.now) }
{
    crate::int(crate::word(line, i))
}
