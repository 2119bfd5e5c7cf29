// Positions, tags and refusals, which all of the library has; and what stands in lent bytes: numbers, hashes and whole records, read, written and compared, and parts of one slice
// put into another. An inner crate: a function that takes a position asks that what it reads or writes lies within the slice. What is read and written is said in specs/Le (numbers) and specs/Record (hashes and records).
#![tactic(auto)]

ghost use Rattle.std.specs.Prelude.{◌≡◌, ℕ, ◌+◌, ◌≤◌, ◌==◌, List, length, codes, Some, Ok, Err, ◌++◌};
ghost use Rattle.std.specs.Fmt.{decimal};
ghost use Rattle.words.specs.Le.{puts};
ghost use Rattle.words.specs.Record.{tag_from};
ghost use Rattle.words.specs.Refusals.{refusal_text, wrote_numbers};

use std::fmt;

pub mod foot;
pub mod hash;
pub mod number;
pub mod part;
mod record;

// What stands in so many bytes at a position: numbers, hashes, records.
pub trait Stored: Copy {
    // How many bytes it has.
    ghost size: { ℕ };

    // The one that stands in some bytes at a position, and the bytes of one.
    ghost value_at: { List ℕ → ℕ → Self };

    ghost spelled: { Self → List ℕ };

    fn read(s: &[u8], at: usize) -> Self
        requires { at + size ≤ length s.now }
        ensures { result ≡ value_at s.now at };

    fn write(self, buf: &mut [u8], at: usize)
        requires { at + size ≤ length buf.old }
        ensures { buf.new ≡ puts buf.old at (spelled self) };
}

// Every record of 48 bytes: a hash, and the four numbers at 32, 36, 40 and 44.
#[derive(Clone, Copy, Debug, PartialEq, Eq)]
pub struct Words {
    pub hash: [u64; 4],
    pub a: u32,
    pub b: u32,
    pub c: u32,
    pub d: u32,
}

// The numbers of a footer: its version, its three offsets, the 48 bytes at 72 (key, created, expiry), and whether all its reserved bytes are 0.
#[derive(Clone, Copy, Debug, PartialEq, Eq)]
pub struct Footer {
    pub version: u64,
    pub files: u64,
    pub xorbs: u64,
    pub itself: u64,
    pub words: Words,
    pub clean: bool,
}

impl Words {
    // The header, each entry and each bookend are so many bytes.
    pub const SIZE: usize = 48;
    // 32 bytes 0xFF, then 16 bytes 0.
    pub const BOOKEND: Words = Words {
        hash: [u64::MAX; 4],
        a: 0,
        b: 0,
        c: 0,
        d: 0,
    };
}

impl Footer {
    pub const SIZE: usize = 200;
}

// Where a byte is, counted from the start of what was read or is written.
#[derive(Clone, Copy, Debug, PartialEq, Eq)]
pub struct Position(pub u64);

// The tag of a shard, as four numbers.
#[derive(Clone, Copy, Debug, PartialEq, Eq)]
pub struct Tag(pub [u64; 4]);

impl Tag {
    // The tag of a reader or a writer that was begun with a bad one.
    pub const NONE: Tag = Tag([0; 4]);
}

// Bytes that are no tag: there are not 32 of them.
#[derive(Clone, Copy, Debug, PartialEq, Eq)]
pub struct NoTag;

impl TryFrom<&[u8]> for Tag {
    type Error = NoTag;

    ghost try_from_gives = { λ bytes r. r ≡ tag_from bytes.now };

    fn try_from(bytes: &[u8]) -> Result<Tag, NoTag> {
        if bytes.len() == 32 {
            Ok(Tag(<[u64; 4]>::read(bytes, 0)))
        } else {
            Err(NoTag)
        }
    }
}

// Why bytes, or what was asked, are refused, and where.
#[derive(Clone, Copy, Debug, PartialEq, Eq)]
pub struct Refusal {
    pub at: Position,
    pub number: u32,
}

// As `refused 3 at 0`, with no line end.
impl fmt::Display for Refusal {
    ghost output = { λ r. Some (refusal_text r) };

    fn fmt<W: fmt::Write>(&self, f: &mut fmt::Formatter<W>) -> fmt::Result {
        write!(f, "refused {} at {}", self.number, self.at.0)
    }
}

// The paper's numbers for what was written: so many bytes, or 0 and the refusal.
#[repr(C)]
#[derive(Clone, Copy, Debug, PartialEq, Eq)]
pub struct WroteNumbers {
    pub wrote: u64,
    pub at: u64,
    pub number: u32,
}

impl From<Result<usize, Refusal>> for WroteNumbers {
    ghost from_gives = { λ answer n. n ≡ wrote_numbers answer };

    fn from(answer: Result<usize, Refusal>) -> WroteNumbers {
        match answer {
            Ok(size) => WroteNumbers {
                wrote: size as u64,
                at: 0,
                number: 0,
            },
            Err(refusal) => WroteNumbers {
                wrote: 0,
                at: refusal.at.0,
                number: refusal.number,
            },
        }
    }
}

impl Refusal {
    // Nothing was refused.
    pub const NONE: Refusal = Refusal {
        at: Position(0),
        number: 0,
    };
}

// The numbers of refusal, those of the shard and, from 24 to 29, those of the blob files.
impl Refusal {
    pub const ENDS_EARLY: u32 = 1;

    pub const TAG_LENGTH: u32 = 2;

    pub const TAG: u32 = 3;

    pub const VERSION: u32 = 4;

    pub const FOOTER_SIZE: u32 = 5;

    pub const LIMIT: u32 = 6;

    pub const RESERVED: u32 = 7;

    pub const ALL_ONES: u32 = 8;

    pub const BIT_31: u32 = 9;

    pub const SEGMENT: u32 = 10;

    pub const CHUNK_SUM: u32 = 11;

    pub const FOOTER_VERSION: u32 = 12;

    pub const OFFSET: u32 = 13;

    pub const AFTER_END: u32 = 14;

    pub const BUFFER: u32 = 15;

    pub const NOT_DUE: u32 = 16;

    pub const NO_FILE: u32 = 17;

    pub const RANGE: u32 = 18;

    pub const FALSE_SEGMENT: u32 = 22;

    pub const BLOB_ENDS_EARLY: u32 = 24;

    pub const BLOB_MAGIC: u32 = 25;

    pub const BLOB_VERSION: u32 = 26;

    pub const BLOB_HEX: u32 = 27;

    pub const BLOB_RESERVED: u32 = 28;

    pub const BLOB_DATA: u32 = 29;

    pub const FOOTER: u32 = 30;

    // A state of other making, which no call gave out.
    pub const STATE: u32 = 255;
}
