// Finding a chunk or a file by its hash in a whole shard, and the 48 bytes at a position. What is found is said in specs/Find.
#![tactic(auto)]

use rules::{BlockNumber, ChunkIndex, FileNumber};
use words::Position;

mod chunks;
mod files;
mod numbers;
mod parts;

pub use chunks::find_chunk;
pub use files::find_file;
pub use parts::record_at;

// Where a chunk stands: in that block, behind so many chunks, at that position.
#[derive(Clone, Copy, Debug, PartialEq, Eq)]
pub struct ChunkPlace {
    pub block: BlockNumber,
    pub index: ChunkIndex,
    pub at: Position,
}

// Where a file stands: behind so many files, its head at that position.
#[derive(Clone, Copy, Debug, PartialEq, Eq)]
pub struct FilePlace {
    pub number: FileNumber,
    pub at: Position,
}

// The paper's numbers for what finding a chunk gives. `said` is 0 where it is absent, 1 where it is found, 2 for a refusal.
#[repr(C)]
#[derive(Clone, Copy)]
pub struct FoundChunkNumbers {
    pub at: u64,
    pub said: u32,
    pub number: u32,
    pub block: u32,
    pub index: u32,
}

// Those for what finding a file gives, in the same way.
#[repr(C)]
#[derive(Clone, Copy)]
pub struct FoundFileNumbers {
    pub at: u64,
    pub said: u32,
    pub number: u32,
    pub file: u32,
}
