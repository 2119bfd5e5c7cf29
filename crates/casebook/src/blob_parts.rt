// A blob file of a case, scanned and read at a position; and an entry, written into a buffer that the case brings with it.
use crate::joined::{BUFFER_MOST, sum_of};
use blobs::{entry_at, put_entry, scan};
use std::io;
use std::io::{Read, Write};
use trial::cases::{CaseError, Cases, SHARD_MOST};
use trial::told::Told;
use words::Position;

// A line for what the scan came to.
fn scanned_told<W: Write>(out: &mut W, file: &[u8]) -> io::Result<()> {
    match scan(file) {
        Ok(tally) => writeln!(out, "scanned ok {} {}", tally.entries, tally.bytes),
        Err(refusal) => writeln!(out, "scanned {refusal}"),
    }
}

// A line for what is found at a position.
fn entry_told<W: Write>(out: &mut W, file: &[u8], at: Position) -> io::Result<()> {
    match entry_at(file, at) {
        Ok(parts) => writeln!(
            out,
            "entry ok {} {} {} {}",
            parts.digits.0, parts.data.0, parts.length, parts.next.0
        ),
        Err(refusal) => writeln!(out, "entry {refusal}"),
    }
}

// A line for the answer to an entry, and for every byte of the buffer after it.
fn put_told<W: Write>(
    out: &mut W,
    digits: &[u8],
    data: &[u8],
    buffer: &mut [u8],
) -> io::Result<()> {
    let answer = Told(put_entry(digits, data, buffer));
    let sum = sum_of(buffer);
    writeln!(out, "put {answer}, the buffer's sum {sum}")
}

// The part of a case that is read: a file and a position.
fn next_read<R: Read, W: Write>(cases: &mut Cases<R>, out: &mut W) -> Result<(), CaseError> {
    let file = cases.long(SHARD_MOST)?;
    let at = u64::from_le_bytes(cases.exact()?);
    scanned_told(out, &file)?;
    Ok(entry_told(out, &file, Position(at))?)
}

// The part of a case that is written: digits, data and a buffer.
fn next_written<R: Read, W: Write>(cases: &mut Cases<R>, out: &mut W) -> Result<(), CaseError> {
    let digits = cases.short()?;
    let data = cases.long(SHARD_MOST)?;
    let mut buffer = cases.long(BUFFER_MOST)?;
    Ok(put_told(out, &digits, &data, &mut buffer)?)
}

pub fn next_blobs<R: Read, W: Write>(cases: &mut Cases<R>, out: &mut W) -> Result<(), CaseError> {
    next_read(cases, out)?;
    next_written(cases, out)
}
