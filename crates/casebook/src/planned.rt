// A stretch of a file of a case, planned into a table of which the case lends so many rows.
ghost use Rattle.std.specs.Prelude.{◌≡◌, ◌++◌, ◌≤◌, length, take, drop};
ghost use Rattle.plan.specs.Plan.{plan_of, answer_to, table_to};

use crate::aloud::Hash;
use plan::{Row, plan};
use rules::{ChunkIndex, FileNumber};
use std::io;
use std::io::{Read, Write};
use trial::cases::{CaseError, Cases, SHARD_MOST};
use trial::told::Told;
use words::{Refusal, Stored};

// The bytes that say what is planned: the file's number, the first byte, the byte after the last, and how many rows are lent.
const ASKED: usize = 24;

// A row that no plan made, told apart by its number.
fn blank(n: u32) -> Row {
    Row {
        xorb: [u64::from(n); 4],
        start: ChunkIndex(n),
        end: ChunkIndex(n),
        skip: n,
        take: n,
    }
}

// The plan of a stretch into the first rows of a table.
fn filled(
    tag: &[u8],
    shard: &[u8],
    file: FileNumber,
    a: u64,
    b: u64,
    rows: &mut [Row],
    room: usize,
) -> Result<usize, Refusal>
    requires { room ≤ length rows.old }
    ensures { (result ≡ answer_to (plan_of tag.now shard.now file.0 a b room))
        × (rows.new ≡ table_to (plan_of tag.now shard.now file.0 a b room) (take room rows.old) ++ drop room rows.old) }
{
    plan(tag, shard, file, a, b, &mut rows[..room])
}

// A line for the answer, and one for every row of the table after it: xorb hash, chunk start and end, bytes to skip and to take.
fn planned_told<W: Write>(
    out: &mut W,
    tag: &[u8],
    shard: &[u8],
    asked: &[u8; ASKED],
) -> io::Result<()> {
    let file = FileNumber(u32::read(asked, 0));
    let a = u64::read(asked, 4);
    let b = u64::read(asked, 12);
    let mut rows = [1, 2, 3, 4, 5, 6, 7, 8].map(blank);
    let room = rows.len().min(u32::read(asked, 20) as usize);
    let answer = filled(tag, shard, file, a, b, &mut rows, room);
    writeln!(out, "planned {}", Told(answer))?;
    for row in &rows {
        writeln!(
            out,
            "row {} {} {} {} {}",
            Hash(row.xorb),
            row.start.0,
            row.end.0,
            row.skip,
            row.take
        )?;
    }
    Ok(())
}

// The part of a case that is planned: a tag, a shard and what is asked.
pub fn next_planned<R: Read, W: Write>(cases: &mut Cases<R>, out: &mut W) -> Result<(), CaseError> {
    let tag = cases.short()?;
    let shard = cases.long(SHARD_MOST)?;
    let asked = cases.exact()?;
    Ok(planned_told(out, &tag, &shard, &asked)?)
}
