// Readers that hold a slice and a place in it: one over packed bytes, one over ints. Each function takes the reader
// apart and calls a plain one on slice and place; read_bytes and read_ints are for callers that hold no reader.
ghost use Rattle.std.specs.Prelude.{◌≡◌, leb, length, drop};
ghost use Rattle.definitions.specs.Packer.{read_int_call};
ghost use Rattle.definitions.specs.Readers.{plain_int_call};
ghost use Rattle.packer.specs.Answers.{int_read};
ghost use Rattle.packer.specs.ReaderAnswers.{moved, ints_moved, Answered};

use super::{IntRead, places};
use format::Error;

// A reader over packed bytes.
#[derive(Clone, Copy)]
pub struct Unpacker<'a> {
    pub src: &'a [u8],
    pub at: usize,
}

// A reader over ints.
#[derive(Clone, Copy)]
pub struct IntUnpacker<'a> {
    pub src: &'a [i32],
    pub at: usize,
}

// The answer of a reader: the integer, the place after reading, how many entries are left, and whether none are.
#[derive(Clone, Copy)]
pub struct ReaderAnswer {
    pub read: Result<IntRead, Error>,
    pub at: usize,
    pub left: usize,
    pub empty: bool,
}

impl<'a> Unpacker<'a> {
    // At the front of some bytes.
    pub fn new(bytes: &'a [u8]) -> Unpacker<'a>
        ensures { (result.src ≡ bytes.entry) × (result.at ≡ 0) }
    {
        Unpacker { src: bytes, at: 0 }
    }

    // Whether no byte is left.
    pub fn is_empty(self) -> bool
        ensures { result ≡ leb (length self.entry.src.now) self.entry.at }
    {
        self.src.len() <= self.at
    }

    // The next integer. The place moves past it, or to the end if the bytes end inside it. A reader over too many bytes stays where
    // it is.
    pub fn read_int(&mut self) -> Result<IntRead, Error>
        ensures { (read_int_call self.old.src.now self.old.at ≡ int_read result) × (self.new ≡ moved self.old (int_read result)) }
    {
        let read = super::read_int(self.src, self.at);
        self.at = places::place_after(read, self.at, self.src.len());
        read
    }

    // The bytes that are left.
    pub fn as_slice(self) -> &'a [u8]
        ensures { result.now ≡ drop self.entry.at self.entry.src.now }
    {
        places::rest_from(self.src, self.at)
    }

    // How many bytes were read.
    pub fn num_bytes_read(self) -> usize
        ensures { result ≡ self.entry.at }
    {
        self.at
    }
}

impl<'a> IntUnpacker<'a> {
    // At the front of some ints.
    pub fn new(ints: &'a [i32]) -> IntUnpacker<'a>
        ensures { (result.src ≡ ints.entry) × (result.at ≡ 0) }
    {
        IntUnpacker { src: ints, at: 0 }
    }

    // Whether no int is left.
    pub fn is_empty(self) -> bool
        ensures empty { result ≡ leb (length self.entry.src.now) self.entry.at }
    {
        self.src.len() <= self.at
    }

    // The next int. The place moves past it, or to the end if there is none. A reader over too many ints stays where it is.
    pub fn read_int(&mut self) -> Result<IntRead, Error>
        ensures { (plain_int_call self.old.src.now self.old.at ≡ int_read result) × (self.new ≡ ints_moved self.old (int_read result)) }
    {
        let read = places::read_plain_int(self.src, self.at);
        self.at = places::place_after(read, self.at, self.src.len());
        read
    }

    // The ints that are left.
    pub fn as_slice(self) -> &'a [i32]
        ensures rest { result.now ≡ drop self.entry.at self.entry.src.now }
    {
        places::rest_from(self.src, self.at)
    }
}

// What a reader over packed bytes answers that stands at a place.
pub fn read_bytes(src: &[u8], at: usize) -> ReaderAnswer
    ensures { Answered (read_int_call src.now at) src.now at result }
{
    let mut reader = Unpacker::new(src);
    reader.at = at;
    let read = reader.read_int();
    ReaderAnswer {
        read,
        at: reader.num_bytes_read(),
        left: reader.as_slice().len(),
        empty: reader.is_empty(),
    }
}

// What a reader over ints answers that stands at a place.
pub fn read_ints(src: &[i32], at: usize) -> ReaderAnswer
    ensures { Answered (plain_int_call src.now at) src.now at result }
{
    let mut reader = IntUnpacker::new(src);
    reader.at = at;
    let read = reader.read_int();
    ReaderAnswer {
        read,
        at: reader.at,
        left: reader.as_slice().len(),
        empty: reader.is_empty(),
    }
}
