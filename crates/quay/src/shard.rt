// Small shards, put together of their records.
use std::alloc::{AllocError, Global};
use words::foot::put_footer;
use words::number::{high_half, low_half};
use words::{Stored, Words};

pub const ONES: [u64; 4] = [u64::MAX; 4];
// The tag is the bytes 1 to 32.
pub const TAG: [u8; 32] = [
    1, 2, 3, 4, 5, 6, 7, 8, 9, 10, 11, 12, 13, 14, 15, 16, 17, 18, 19, 20, 21, 22, 23, 24, 25, 26,
    27, 28, 29, 30, 31, 32,
];

const TAG_WORDS: [u64; 4] = [
    0x0807060504030201,
    0x100f0e0d0c0b0a09,
    0x1817161514131211,
    0x201f1e1d1c1b1a19,
];

pub const FALSE_TAG: [u64; 4] = [1, 2, 3, 4];

pub const BIT_31: u32 = 0x80000000;

pub const END: Words = Words::BOOKEND;

// A footer as it is put together, with what may be wrong about it.
#[derive(Clone, Copy)]
pub struct Foot {
    pub version: u64,
    pub files: u64,
    pub xorbs: u64,
    pub itself: u64,
    pub reserved: u64,
}

fn words(hash: [u64; 4], a: u32, b: u32, c: u32, d: u32) -> Words {
    Words { hash, a, b, c, d }
}

fn hash_of(n: u64) -> [u64; 4] {
    [n, 20, 30, 40]
}

fn footer_of(f: Foot) -> [u8; 200] {
    let mut b = [0u8; 200];
    put_footer(&mut b, f.xorbs, f.itself, words(hash_of(9), 1, 2, 3, 4));
    f.version.write(&mut b, 0);
    f.files.write(&mut b, 8);
    f.reserved.write(&mut b, 24);
    b
}

pub fn header(tag: [u64; 4], version: u32, footer_size: u64) -> Words {
    words(
        tag,
        version,
        0,
        low_half(footer_size),
        high_half(footer_size),
    )
}

// A header with the tag.
pub fn header_by(version: u32, footer_size: u64) -> Words {
    header(TAG_WORDS, version, footer_size)
}

// A good header.
pub fn begun(footer_size: u64) -> Words {
    header_by(2, footer_size)
}

// A bookend by its hash, with a tail.
pub fn end_with_tail(tail: u32) -> Words {
    words(ONES, 0, 0, 0, tail)
}

pub fn file(flags: u32, entries: u32, reserved: u32) -> Words {
    words(hash_of(1), flags, entries, reserved, 0)
}

pub fn segment(flags: u32, start: u32, end: u32) -> Words {
    words(hash_of(2), flags, 7, start, end)
}

// A verification or a metadata record.
pub fn plain(reserved: u32) -> Words {
    words(hash_of(3), 0, 0, 0, reserved)
}

pub fn xorb(flags: u32, entries: u32, bytes: u32) -> Words {
    words(hash_of(4), flags, entries, bytes, 5)
}

pub fn chunk(start: u32, bytes: u32) -> Words {
    words(hash_of(5), start, bytes, 0, 0)
}

pub fn chunk_of(hash: [u64; 4], start: u32, bytes: u32, reserved: u32) -> Words {
    words(hash, start, bytes, reserved, 0)
}

// The bytes of a shard of these records.
pub fn shard(alloc: Global, records: &[Words]) -> Result<Vec<u8>, AllocError> {
    let mut bytes = Vec::new(alloc);
    for record in records {
        let mut put = [0u8; Words::SIZE];
        record.write(&mut put, 0);
        bytes.extend_from_slice(&put)?;
    }
    Ok(bytes)
}

// The bytes of a shard of these records, with a footer behind them.
pub fn footed(alloc: Global, records: &[Words], foot: Foot) -> Result<Vec<u8>, AllocError> {
    let mut bytes = shard(alloc, records)?;
    bytes.extend_from_slice(&footer_of(foot))?;
    Ok(bytes)
}
