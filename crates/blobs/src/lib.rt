// The old blob files: entries one behind the other, each of 110 bytes and its data. A reader of one entry in a lent buffer, a writer of
// one, and a scan of a whole buffer. What is found, written and counted is said in specs/Blobs.
#![tactic(auto)]

use words::Position;

mod digits;
pub mod head;
mod numbers;
mod reading;
mod scanning;
mod writing;

pub use reading::{entry_at, head_of};
pub use scanning::scan;
pub use writing::put_entry;

// Where the parts of an entry are in the buffer: the hash's 64 digits, the data and how many bytes they are; and the position behind them.
#[derive(Clone, Copy, Debug, PartialEq, Eq)]
pub struct Parts {
    pub digits: Position,
    pub data: Position,
    pub length: u64,
    pub next: Position,
}

// How many entries there are, and the sum of their data lengths.
#[derive(Clone, Copy, Debug, Default, PartialEq, Eq)]
pub struct Tally {
    pub entries: u64,
    pub bytes: u64,
}

// The paper's numbers for what is found of an entry: where its digits and its data are and how many bytes these have, and the next position; or
// zeros and the refusal.
#[repr(C)]
#[derive(Clone, Copy, Debug, PartialEq, Eq)]
pub struct EntryNumbers {
    pub digits: u64,
    pub data: u64,
    pub length: u64,
    pub next: u64,
    pub at: u64,
    pub number: u32,
}

// Those for what a scan gives: how many entries there are and the sum of their data lengths, or zeros and the refusal.
#[repr(C)]
#[derive(Clone, Copy, Debug, PartialEq, Eq)]
pub struct ScannedNumbers {
    pub entries: u64,
    pub bytes: u64,
    pub at: u64,
    pub number: u32,
}
