// The writer: a shard record by record, each into a lent buffer. What is offered, and the record that is made of it, is said in specs/Offers, what a call does in specs/Write.
#![tactic(auto)]

use rules::{ChunkIndex, Place};
use words::{Refusal, Tag};

mod offers;
mod writing;

// The numbers of a record as the paper's table names them, without those that a writer makes itself.
#[derive(Clone, Copy, Debug, PartialEq, Eq)]
pub enum Fields {
    Header {
        footer_size: u64,
    },
    FileHead {
        flags: u32,
        entries: u32,
    },
    Segment {
        flags: u32,
        bytes: u32,
        start: ChunkIndex,
        end: ChunkIndex,
    },
    Verification,
    Metadata,
    XorbHead {
        flags: u32,
        entries: u32,
        bytes: u32,
        disk: u32,
    },
    Chunk {
        start: u32,
        bytes: u32,
    },
    SectionEnd,
    Footer {
        created: u64,
        expiry: u64,
    },
}

// What is offered: a hash (of a footer its key) and numbers. A header and the end of a section have no hash; what stands there is not looked at.
#[derive(Clone, Copy, Debug, PartialEq, Eq)]
pub struct Offer {
    pub hash: [u64; 4],
    pub fields: Fields,
}

// A writer stands at a place of the format, and knows the tag.
#[derive(Clone, Copy, Debug, PartialEq, Eq)]
pub struct Writer {
    pub tag: Tag,
    pub place: Place,
}

// What a call gives: the next writer, and how many bytes were written, or the refusal.
#[derive(Clone, Copy, Debug, PartialEq, Eq)]
pub struct Written {
    pub writer: Writer,
    pub answer: Result<usize, Refusal>,
}
