// What is made of a whole shard: a chunk and a file found in it, and the shard written again.
use finder::{find_chunk, find_file, record_at};
use std::io;
use std::io::Write;
use trial::again::{Copying, Differs};
use trial::told::{Figures, Told};
use words::{Position, Stored, Words};

// Whether a part is a record's, and begins with this hash.
fn begins(part: &[u8], hash: [u64; 4]) -> bool {
    part.len() == Words::SIZE && <[u64; 4]>::read(part, 0) == hash
}

// What is said of the record that was found: nothing, if it begins with the hash that was asked for.
fn doubt(shard: &[u8], at: Position, hash: [u64; 4]) -> &'static str {
    if begins(record_at(shard, at), hash) {
        ""
    } else {
        " (its record DIFFERS)"
    }
}

// Whether the part is empty at the first position at which no record has room, at the end and far behind it.
fn ends(shard: &[u8]) -> bool {
    let end = shard.len() as u64;
    let late = (end + 1).saturating_sub(Words::SIZE as u64);
    [late, end, u64::MAX]
        .iter()
        .all(|at| record_at(shard, Position(*at)).is_empty())
}

// A line for the first chunk that has this hash.
fn chunk_told<W: Write>(out: &mut W, tag: &[u8], shard: &[u8], hash: [u64; 4]) -> io::Result<()> {
    match find_chunk(tag, shard, hash) {
        Ok(Some(chunk)) => writeln!(
            out,
            "chunk in {} index {} at {}{}",
            chunk.block.0,
            chunk.index.0,
            chunk.at.0,
            doubt(shard, chunk.at, hash)
        ),
        Ok(None) => writeln!(out, "chunk absent"),
        Err(refusal) => writeln!(out, "chunk {refusal}"),
    }
}

// The first file that has this hash.
fn file_told<W: Write>(out: &mut W, tag: &[u8], shard: &[u8], hash: [u64; 4]) -> io::Result<()> {
    match find_file(tag, shard, hash) {
        Ok(Some(file)) => write!(
            out,
            "file {} at {}{}",
            file.number.0,
            file.at.0,
            doubt(shard, file.at, hash)
        ),
        Ok(None) => write!(out, "file absent"),
        Err(refusal) => write!(out, "file {refusal}"),
    }
}

// A line for the first chunk that has the one hash, and a line for the first file that has the other.
pub fn found_told<W: Write>(
    out: &mut W,
    tag: &[u8],
    shard: &[u8],
    chunk: [u64; 4],
    file: [u64; 4],
) -> io::Result<()> {
    chunk_told(out, tag, shard, chunk)?;
    file_told(out, tag, shard, file)?;
    writeln!(
        out,
        "{}",
        if ends(shard) {
            ""
        } else {
            " (a record past the end)"
        }
    )
}

// A line for the records that were handed out, written again: how many bytes are as they were read, and the writer's verdict.
pub fn written_told<W: Write>(out: &mut W, tag: &[u8], shard: &[u8]) -> io::Result<()> {
    let mut copying = Copying::new(tag);
    copying.copy(shard);
    match copying.same {
        Ok(length) => write!(out, "written {length} bytes, the same, ")?,
        Err(Differs { after }) => {
            write!(out, "written {after} bytes, and then it DIFFERS, ")?;
        }
    }
    writeln!(out, "{}", Told(copying.writer.verdict().map(Figures)))
}
