// A line of text that a program makes part by part and then prints. A line goes in by value and comes back, since a check takes four times as
// long for a caller that lends a buffer.
ghost use Rattle.std.specs.Prelude.{◌≡◌, take};
ghost use Rattle.replay_text.specs.Buffer.{put_byte};
ghost use Rattle.replay_text.specs.Numbers as Numbers;
ghost use Rattle.replay_text.specs.Answers as Answers;
ghost use Rattle.replay_text.specs.Lines.{line_of, no_text, adds, gapped};

use std::io::Result;

// The bytes of a line, and how many there are.
#[derive(Clone, Copy)]
pub struct Line {
    text: [u8; 2048],
    len: usize,
}

impl Line {
    // An empty line.
    #[tactic(auto, unfolding(crate::specs::Lines::no_text))]
    pub fn new() -> Line
        ensures { line_of result ≡ no_text }
    {
        Line {
            text: [0; 2048],
            len: 0,
        }
    }

    // Adds a byte.
    pub fn byte(self, b: u8) -> Line
        ensures { put_byte b (line_of self) ≡ line_of result }
    {
        let mut text = self.text;
        let len = crate::put_byte(&mut text, self.len, b);
        Line { text, len }
    }

    // Adds a text.
    #[tactic(auto, unfolding(crate::specs::Lines::adds))]
    pub fn text(self, words: &[u8]) -> Line
        ensures { adds words.now (line_of self) ≡ line_of result }
    {
        let mut text = self.text;
        let len = crate::put(&mut text, self.len, words);
        Line { text, len }
    }

    // Adds a number.
    #[tactic(auto, unfolding(crate::specs::Lines::adds))]
    pub fn number(self, n: usize) -> Line
        ensures { adds (Numbers.decimal n) (line_of self) ≡ line_of result }
    {
        let mut text = self.text;
        let len = crate::put_number(&mut text, self.len, n);
        Line { text, len }
    }

    // Adds an int.
    #[tactic(auto, unfolding(crate::specs::Lines::adds))]
    pub fn int(self, n: i32) -> Line
        ensures { adds (Numbers.signed n) (line_of self) ≡ line_of result }
    {
        let mut text = self.text;
        let len = crate::put_int(&mut text, self.len, n);
        Line { text, len }
    }

    // Adds the first ints of an area, a space before each.
    #[tactic(auto, unfolding(crate::specs::Lines::adds))]
    pub fn ints(self, area: &[i32], count: usize) -> Line
        ensures { adds (Numbers.list (take count area.now)) (line_of self) ≡ line_of result }
    {
        let mut text = self.text;
        let len = crate::put_ints(&mut text, self.len, area, count);
        Line { text, len }
    }

    // Adds a space and the first bytes of an area in hexadecimal digits, or a minus if there are none.
    #[tactic(auto, unfolding(crate::specs::Lines::adds))]
    pub fn bytes(self, area: &[u8], count: usize) -> Line
        ensures { adds (Answers.bytes (take count area.now)) (line_of self) ≡ line_of result }
    {
        let mut text = self.text;
        let len = crate::put_bytes(&mut text, self.len, area, count);
        Line { text, len }
    }

    // Adds a space, unless the line is empty.
    #[tactic(auto, unfolding(crate::specs::Lines::gapped))]
    pub fn gap(self) -> Line
        ensures { gapped (line_of self) ≡ line_of result }
    {
        if self.len == 0 {
            return self;
        }
        self.byte(b' ')
    }

    // Adds a text as the next word.
    pub fn next_text(self, words: &[u8]) -> Line
        ensures { adds words.now (gapped (line_of self)) ≡ line_of result }
    {
        self.gap().text(words)
    }

    // Adds a number as the next word.
    pub fn next_number(self, n: usize) -> Line
        ensures { adds (Numbers.decimal n) (gapped (line_of self)) ≡ line_of result }
    {
        self.gap().number(n)
    }

    // Adds an int as the next word.
    pub fn next_int(self, n: i32) -> Line
        ensures { adds (Numbers.signed n) (gapped (line_of self)) ≡ line_of result }
    {
        self.gap().int(n)
    }

    // Ends the line and writes it to standard output.
    pub fn print(self, rt: &impl Print) -> Result<()> {
        let mut text = self.text;
        let end = crate::put_byte(&mut text, self.len, b'\n');
        rt.write_all(&text[..end])
    }
}
