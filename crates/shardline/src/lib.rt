// Judges the shard on standard input, 4,096 bytes at a time: the tag is in the file tag.bin, and the answer is seven lines, or one with the refusal.
// A library, so that several programs run it, each on its own input.
#![tactic(auto)]

ghost use Rattle.std.specs.Prelude.{◌≡◌, List, ℕ, OnOk};
ghost use Rattle.std.specs.Io.KnownBytes.{Appends};
ghost use Rattle.reader.specs.Stream.{fresh};
ghost use Rattle.shardline.specs.Reads.{ReadAll, Reports};
ghost use Rattle.shardline.specs.Report.{report_of, summary_lines};

use feed::fed;
use reader::Reader;
use rules::{Summary, Verdict};
use std::fs::Files;
use std::io::{Read, Write};
use std::{fs, io};
use text::input::{ReadFailed, read_full};

pub mod feed;

// A reader for the tag in tag.bin. One byte more than a tag is read, so that a longer file shows; where there is no file, the tag is empty.
// A read that fails is taken for the end of the file.
fn reader_for_tag<R: Files>(rt: &R) -> Reader
    ensures { (tag : List ℕ) × (result ≡ fresh tag) }
{
    let mut tag = [0u8; 33];
    let size = match fs::open(rt, "tag.bin") {
        Ok(mut file) => {
            read_full(&mut file, &mut tag).unwrap_or_else(|failed| failed.after as usize)
        }
        Err(_) => 0,
    };
    Reader::new(&tag[..size])
}

// The reader after all of the input. A proved loop has to end, and nothing says that the input does: no run has so many turns.
fn read_all<R: Read>(input: &mut R, reader: Reader) -> Result<Reader, ReadFailed>
    ensures { ReadAll (R.remaining input.old) reader result }
{
    let mut buf = [0u8; 4096];
    let mut reader = reader;
    let mut length: u64 = 0;
    for _ in 0..u64::MAX {
        match input.read(&mut buf) {
            Ok(0) => return Ok(reader),
            Ok(n) => {
                reader = fed(reader, &buf[..n]);
                length = length.wrapping_add(n as u64);
            }
            Err(error) => {
                return Err(ReadFailed {
                    after: length,
                    error,
                });
            }
        }
    }
    Ok(reader)
}

fn accepted<W: Write>(out: &mut W, summary: Summary) -> io::Result<()>
    ensures { OnOk result (Appends (W.contents out.old) (W.contents out.new) (summary_lines summary)) }
{
    let totals = summary.totals;
    writeln!(out, "files {}", totals.files)?;
    writeln!(out, "segments {}", totals.segments)?;
    writeln!(out, "xorbs {}", totals.xorbs)?;
    writeln!(out, "chunks {}", totals.chunks)?;
    writeln!(out, "bytes {}", totals.bytes)?;
    if summary.footer {
        writeln!(out, "footer yes")?;
    } else {
        writeln!(out, "footer no")?;
    }
    writeln!(out, "ok {}", summary.length)
}

fn told<W: Write>(out: &mut W, verdict: Verdict) -> io::Result<()>
    ensures { OnOk result (Appends (W.contents out.old) (W.contents out.new) (report_of verdict)) }
{
    match verdict {
        Ok(summary) => accepted(out, summary),
        Err(refusal) => writeln!(out, "{refusal}"),
    }
}

// Reads all of an input into a fresh reader, and says what it is.
pub fn judged<R: Read, W: Write>(input: &mut R, out: &mut W, reader: Reader) -> io::Result<()>
    ensures { OnOk result ((tag : List ℕ) → reader ≡ fresh tag
        → Reports tag (R.remaining input.old) (W.contents out.old) (W.contents out.new)) }
{
    match read_all(input, reader) {
        Ok(reader) => told(out, reader.verdict()),
        Err(failed) => writeln!(out, "{failed}"),
    }
}

// Reads all of standard input and says what it is.
pub fn run<R: Files + Input + Print>(rt: &R) -> io::Result<()> {
    let mut input = rt.reader();
    let mut out = io::writer(rt);
    judged(&mut input, &mut out, reader_for_tag(rt))
}
