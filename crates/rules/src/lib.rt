// The format: its types, and in code the rules that specs/Rules writes down. Reader, writer, finder, join, plan and audit all go by these.
#![tactic(auto)]

use words::{Position, Refusal, Words};

mod checks;
mod kinds;
mod order;
mod verdicts;

ghost use Rattle.std.specs.Prelude.{◌≡◌, ◌<◌};
ghost use Rattle.rules.specs.Rules.{moved_to};

pub use checks::{further_records, same_31};

// Kinds of number that are not exchangeable.
#[derive(Clone, Copy, Debug, PartialEq, Eq)]
pub struct FileNumber(pub u32);

#[derive(Clone, Copy, Debug, PartialEq, Eq)]
pub struct BlockNumber(pub u32);

// It crosses to a host as it is, in a table of planned rows.
#[repr(C)]
#[derive(Clone, Copy, Debug, PartialEq, Eq)]
pub struct ChunkIndex(pub u32);

// The rows of the paper's table.
#[derive(Clone, Copy, Debug, PartialEq, Eq)]
pub enum Kind {
    Header,
    FileHead,
    Segment,
    Verification,
    Metadata,
    XorbHead,
    Chunk,
    Bookend,
    Footer,
}

// What is due: with the records of this kind that are left, and for chunks the sum so far and the head's bytes in xorb.
#[derive(Clone, Copy, Debug, PartialEq, Eq)]
pub enum Due {
    Header,
    FileHead,
    Segment(u32),
    Verification(u32),
    Metadata,
    XorbHead,
    Chunk(u32, u64, u64),
    Footer,
    End,
    Refused(u32),
}

// How many there were of each, and the sum of the segments' bytes. They cross to a host as they are.
#[repr(C)]
#[derive(Clone, Copy, Debug, PartialEq, Eq)]
pub struct Totals {
    pub files: u64,
    pub segments: u64,
    pub xorbs: u64,
    pub chunks: u64,
    pub bytes: u64,
}

impl Totals {
    pub const NONE: Totals = Totals {
        files: 0,
        segments: 0,
        xorbs: 0,
        chunks: 0,
        bytes: 0,
    };
}

// A place in the format: where the record due starts, what the records before it said, and what is due.
// `offset` is the xorb offset, 0 while it is not known; `flags` and `entries` are those of the last file head.
#[derive(Clone, Copy, Debug, PartialEq, Eq)]
pub struct Place {
    pub at: Position,
    pub offset: Position,
    pub totals: Totals,
    pub flags: u32,
    pub entries: u32,
    pub footer: bool,
    pub due: Due,
}

impl Place {
    // No shard goes past this position.
    pub const LIMIT: u64 = 16777216;

    // The place at another position, with other totals and something else due. (Its offset has 64 bits, as every field of its type.)
    fn moved_to(self, at: u64, totals: Totals, due: Due) -> Place
        ensures { (result ≡ moved_to at totals due self) × (self.offset.0 < 18446744073709551616) }
    {
        Place {
            at: Position(at),
            totals,
            due,
            ..self
        }
    }
}

// A record as it is handed out. Of a footer, `words` holds key, created and expiry, and `offset` the xorb offset; elsewhere that is 0.
#[derive(Clone, Copy, Debug, PartialEq, Eq)]
pub struct Record {
    pub at: Position,
    pub offset: Position,
    pub words: Words,
    pub kind: Kind,
}

// What is said of an accepted shard.
#[derive(Clone, Copy, Debug, PartialEq, Eq)]
pub struct Summary {
    pub length: u64,
    pub totals: Totals,
    pub footer: bool,
}

// An accepted shard, or why and where it is refused.
pub type Verdict = Result<Summary, Refusal>;
