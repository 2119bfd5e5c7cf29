// Two shards of a case, joined into a buffer that it brings with it.
use join::join;
use std::io;
use std::io::{Read, Write};
use trial::cases::{CaseError, Cases, SHARD_MOST};
use trial::told::Told;

// The bytes that a buffer may have: as many as two shards, and more.
pub const BUFFER_MOST: usize = 20000;

// A sum that tells where each byte stands.
pub fn sum_of(bytes: &[u8]) -> u64 {
    bytes.iter().fold(0, |sum, byte| {
        (sum % 4294967291 * 257 + u64::from(*byte)) % 4294967291
    })
}

// A line for the answer, and for every byte of the buffer after it.
fn joined_told<W: Write>(
    out: &mut W,
    tag: &[u8],
    first: &[u8],
    second: &[u8],
    buffer: &mut [u8],
) -> io::Result<()> {
    let answer = Told(join(tag, first, second, buffer));
    let sum = sum_of(buffer);
    writeln!(out, "joined {answer}, the buffer's sum {sum}")
}

// The part of a case that is joined: a tag, two shards and a buffer.
pub fn next_joined<R: Read, W: Write>(cases: &mut Cases<R>, out: &mut W) -> Result<(), CaseError> {
    let tag = cases.short()?;
    let first = cases.long(SHARD_MOST)?;
    let second = cases.long(SHARD_MOST)?;
    let mut buffer = cases.long(BUFFER_MOST)?;
    Ok(joined_told(out, &tag, &first, &second, &mut buffer)?)
}
