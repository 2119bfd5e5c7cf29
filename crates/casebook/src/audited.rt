// A shard of a case, audited.
use audit::audit;
use std::io;
use std::io::{Read, Write};
use trial::cases::{CaseError, Cases, SHARD_MOST};

// A line for the answer.
fn audited_told<W: Write>(out: &mut W, tag: &[u8], shard: &[u8]) -> io::Result<()> {
    match audit(tag, shard) {
        Ok(counts) => writeln!(out, "audited ok {} {}", counts.listed, counts.unlisted),
        Err(refusal) => writeln!(out, "audited {refusal}"),
    }
}

// The part of a case that is audited: a tag and a shard.
pub fn next_audited<R: Read, W: Write>(cases: &mut Cases<R>, out: &mut W) -> Result<(), CaseError> {
    let tag = cases.short()?;
    let shard = cases.long(SHARD_MOST)?;
    Ok(audited_told(out, &tag, &shard)?)
}
