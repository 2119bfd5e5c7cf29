// What crosses to C: states and answers as structs of numbers, and the ways out and in again. An inner crate: the functions that a host calls
// are in host_read, host_step, host_write and host_whole. What each number means is said in specs/Boundary, and for C in include/melagbosun.h.
#![tactic(auto)]

use rules::Totals;

mod places;
mod readers;
mod records;
mod writers;

// What is due, by number: 1 header, 2 file head, 3 segment, 4 verification, 5 metadata, 6 xorb head, 7 chunk, 9 footer, 10 nothing more, 11 a refusal, of which
// `left` is the number. So a record's number is its row in the paper's table, from 1. No other number is given out, and no refusal with number 0: a state that has
// one, such as a struct of zeros, is of other making and is refused with 255.
#[repr(C)]
#[derive(Clone, Copy, Debug, PartialEq, Eq)]
pub struct DueState {
    pub sum: u64,
    pub total: u64,
    pub code: u32,
    pub left: u32,
}

// A place in the format. There is a footer unless `footer` is 0. Of a reader, `have` is how many bytes its carry has; of a writer it is 0.
#[repr(C)]
#[derive(Clone, Copy, Debug, PartialEq, Eq)]
pub struct PlaceState {
    pub at: u64,
    pub offset: u64,
    pub totals: Totals,
    pub due: DueState,
    pub flags: u32,
    pub entries: u32,
    pub footer: u32,
    pub have: u32,
}

// Where a reader or a writer stands: the tag, and the place.
#[repr(C)]
#[derive(Clone, Copy, Debug, PartialEq, Eq)]
pub struct StandState {
    pub tag: [u64; 4],
    pub place: PlaceState,
}

// A reader between two calls: where it stands, and its carry.
#[repr(C)]
#[derive(Clone, Copy, Debug, PartialEq, Eq)]
pub struct ReaderState {
    pub stand: StandState,
    pub carry: [u8; 200],
}

// A writer between two calls.
#[repr(C)]
#[derive(Clone, Copy, Debug, PartialEq, Eq)]
pub struct WriterState {
    pub stand: StandState,
}

// A record that was read. Its kind is its row in the paper's table, from 0.
#[repr(C)]
#[derive(Clone, Copy, Debug, PartialEq, Eq)]
pub struct RecordState {
    pub hash: [u64; 4],
    pub at: u64,
    pub offset: u64,
    pub kind: u32,
    pub a: u32,
    pub b: u32,
    pub c: u32,
    pub d: u32,
}

// A verdict. Number 0 is an accepted shard.
#[repr(C)]
#[derive(Clone, Copy, Debug, PartialEq, Eq)]
pub struct VerdictState {
    pub length: u64,
    pub totals: Totals,
    pub at: u64,
    pub number: u32,
    pub footer: u32,
}

// What a call of the reader answers. `said` is 0 for nothing yet, 1 for a record, 2 for a refusal.
#[repr(C)]
#[derive(Clone, Copy, Debug, PartialEq, Eq)]
pub struct StepState {
    pub found: RecordState,
    pub taken: u64,
    pub at: u64,
    pub said: u32,
    pub number: u32,
}

// A record as it is offered, its kind by the paper's row: x is a header's footer size or a footer's created, y a footer's expiry.
#[repr(C)]
#[derive(Clone, Copy, Debug, PartialEq, Eq)]
pub struct OfferState {
    pub hash: [u64; 4],
    pub x: u64,
    pub y: u64,
    pub kind: u32,
    pub a: u32,
    pub b: u32,
    pub c: u32,
    pub d: u32,
}

// What reading a whole piece answers: the bytes taken, the rows filled, and what was said last.
#[repr(C)]
#[derive(Clone, Copy, Debug, PartialEq, Eq)]
pub struct ReadState {
    pub taken: u64,
    pub count: u64,
    pub at: u64,
    pub said: u32,
    pub number: u32,
}

// A hash.
#[repr(C)]
#[derive(Clone, Copy, Debug, PartialEq, Eq)]
pub struct HashState {
    pub numbers: [u64; 4],
}

// A kind of an offer that is no row of the paper's table.
#[derive(Clone, Copy, Debug, PartialEq, Eq)]
pub struct UnknownKind(pub u32);
