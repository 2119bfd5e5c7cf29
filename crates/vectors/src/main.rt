// Judges the cases on standard input, one after the other, and writes one line for each. A case is one byte T, T bytes of tag, four bytes N
// (little-endian) and N bytes of shard. Each shard is read in one piece, again in small ones, again into rows, and judged whole.
#![tactic(auto)]

use std::io;
use std::io::{Read, Write};
use trial::cases::{CaseError, Cases, SHARD_MOST};
use trial::pieces::{in_one, in_pieces};
use trial::rows::in_rows;
use trial::told::{Figures, Told};

// One case, read in every way that there is.
fn judged<W: Write>(out: &mut W, tag: &[u8], shard: &[u8]) -> io::Result<()> {
    let verdict = in_one(tag, shard);
    write!(out, "{}", Told(verdict.map(Figures)))?;
    if in_pieces(tag, shard, &[1, 5, 47, 48, 49, 96, 200]) != verdict {
        write!(out, " (pieces differ)")?;
    }
    if in_rows(tag, shard, &[1, 5, 47, 48, 49, 96, 500]) != verdict {
        write!(out, " (rows differ)")?;
    }
    if reader::judge(tag, shard) != verdict {
        write!(out, " (the judge differs)")?;
    }
    writeln!(out)
}

// One case, if there is one.
fn next_judged<R: Read, W: Write>(cases: &mut Cases<R>, out: &mut W) -> Result<(), CaseError> {
    let tag = cases.first()?;
    let shard = cases.long(SHARD_MOST)?;
    Ok(judged(out, &tag, &shard)?)
}

fn main(rt: HostRuntime) -> io::Result<()> {
    let mut out = io::writer(&rt);
    Cases::new(rt.alloc(), rt.reader()).tell(&mut out, next_judged)
}
