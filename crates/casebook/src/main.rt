// Reads the cases on standard input, one after the other, and tells all that the library makes of each. A case is one byte T, T bytes of tag, four
// bytes N (little-endian), N bytes of shard, one byte K and K bytes, the lengths of the pieces that it is read in, over and over.
// Where K is 0 it is read in one piece. A length 0 is an empty piece and then one of a byte. Then come in the same way a tag, a shard,
// another one and a buffer, with which these two are joined; then a tag and a shard of which a stretch is planned, one byte 24, and in
// 24 bytes (little-endian) the file's number in four, the stretch's first byte and the byte after its last in eight each, and in four
// how many rows of the table are lent, 8 at the most; then a tag and a shard that is audited; then a blob file, one byte 8 and a position
// in it in eight; then the digits of a hash as a tag comes, data and a buffer, into which an entry of these is written.
#![tactic(auto)]

use aloud::Heard;
use audited::next_audited;
use blob_parts::next_blobs;
use joined::next_joined;
use planned::next_planned;
use std::io;
use std::io::{Read, Write};
use trial::cases::{CaseError, Cases, SHARD_MOST};
use trial::told::{Figures, Told};
use whole_shard::{found_told, written_told};

mod aloud;
mod audited;
mod blob_parts;
mod joined;
mod planned;
mod whole_shard;

// The records of a shard in pieces and the verdict on them, then what is made of the whole shard.
fn told<W: Write>(out: &mut W, tag: &[u8], shard: &[u8], sizes: &[u8]) -> io::Result<()> {
    let heard = Heard::in_pieces(out, tag, shard, sizes)?;
    writeln!(out, "{}", Told(heard.reader.verdict().map(Figures)))?;
    writeln!(
        out,
        "whole {}",
        Told(reader::judge(tag, shard).map(Figures))
    )?;
    found_told(out, tag, shard, heard.chunk, heard.file)?;
    written_told(out, tag, shard)
}

// The part of a case that is read, if there is a case: a tag, a shard and the lengths of the pieces.
fn next_told<R: Read, W: Write>(cases: &mut Cases<R>, out: &mut W) -> Result<(), CaseError> {
    let tag = cases.first()?;
    let shard = cases.long(SHARD_MOST)?;
    let sizes = cases.short()?;
    Ok(told(out, &tag, &shard, &sizes)?)
}

// All parts of one case, if there is one.
fn next_case<R: Read, W: Write>(cases: &mut Cases<R>, out: &mut W) -> Result<(), CaseError> {
    next_told(cases, out)?;
    next_joined(cases, out)?;
    next_planned(cases, out)?;
    next_audited(cases, out)?;
    next_blobs(cases, out)
}

fn main(rt: HostRuntime) -> io::Result<()> {
    let mut out = io::writer(&rt);
    Cases::new(rt.alloc(), rt.reader()).tell(&mut out, next_case)
}
