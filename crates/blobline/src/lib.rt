// Counts the blob file on standard input, which may be longer than memory: the 110 bytes of each entry are judged, its data are read past.
// The answer is three lines, or one with the refusal. A library, so that several programs run it, each on its own input.
#![tactic(auto)]

ghost use Rattle.std.specs.Prelude.{◌≡◌, ◌+◌, ◌^◌, ◌<◌, ℕ, List, Some, OnOk};
ghost use Rattle.std.specs.Io.KnownBytes.{Appends};
ghost use Rattle.blobs.specs.Blobs.{with_entry};
ghost use Rattle.blobline.specs.Counts.{IsShort, ReadsEntry, Due, Ended, Reports, counts_of};

use blobs::{Tally, head, head_of};
use input::read_past;
use std::io;
use std::io::{Read, Write};
use text::input::{ReadFailed, read_full};
use words::{Position, Refusal};

mod input;

// Why an entry can't be counted: it is refused, with this number, or a read failed.
#[derive(Debug, Drop)]
enum Stop {
    Refused(u32),
    ReadFailed,
}

impl From<ReadFailed> for Stop {
    ghost use Rattle.blobline.specs.declared.Stop.TheVariants as stop;

    ghost from_gives = { λ _ why. why ≡ stop.ReadFailed };

    fn from(_e: ReadFailed) -> Stop {
        Stop::ReadFailed
    }
}

// Reads the entry due: how many bytes of data it has, or none where the input ends before it.
fn next<R: Read>(input: &mut R) -> Result<Option<u64>, Stop>
    ensures { (rest : List ℕ) → R.remaining input.old ≡ Some rest → ReadsEntry rest (R.remaining input.new) result }
{
    let mut bytes = [0u8; head::SIZE];
    let size = read_full(input, &mut bytes)?;
    if size == 0 {
        return Ok(None);
    }
    let length = head_of(&bytes[..size]).map_err(Stop::Refused)?;
    if read_past(input, length)? < length {
        return Err(Stop::Refused(Refusal::BLOB_DATA));
    }
    Ok(Some(length))
}

// The entries that were read: where the next one starts, and what they come to.
#[derive(Clone, Copy, Debug, Default)]
struct Entries {
    end: u64,
    tally: Tally,
}

impl Entries {
    // An entry more, of so many bytes of data. All of them were read, and no input has so many that these sums wrap.
    fn add(&mut self, length: u64)
        ensures end { self.old.end + (110 + length) < 2 ^ 64 → self.new.end ≡ self.old.end + (110 + length) }
        ensures tally { self.old.tally.entries + 1 < 2 ^ 64 → self.old.tally.bytes + length < 2 ^ 64
            → self.new.tally ≡ with_entry self.old.tally length }
    {
        let data = self.end.wrapping_add(head::SIZE as u64);
        self.end = data.wrapping_add(length);
        self.tally.entries = self.tally.entries.wrapping_add(1);
        self.tally.bytes = self.tally.bytes.wrapping_add(length);
    }

    // A proved loop has to end, and nothing says that the input does: so it takes so many turns at most, which no run uses up.
    fn read_all<R: Read>(&mut self, input: &mut R) -> Result<(), Stop>
        ensures { (file : List ℕ) → IsShort file → Due file (R.remaining input.old) self.old → Ended file self.new result }
    {
        for _ in 0..u64::MAX {
            match next(input)? {
                None => break,
                Some(length) => self.add(length),
            }
        }
        Ok(())
    }

    // Says that all of a file was counted, and what it came to.
    fn told<W: Write>(self, out: &mut W) -> io::Result<()>
        ensures { OnOk result (Appends (W.contents out.old) (W.contents out.new) (counts_of self.tally self.end)) }
    {
        writeln!(out, "entries {}", self.tally.entries)?;
        writeln!(out, "bytes {}", self.tally.bytes)?;
        writeln!(out, "ok {}", self.end)
    }
}

// Reads all of an input and says what it is.
pub fn counted<R: Read, W: Write>(input: &mut R, out: &mut W) -> io::Result<()>
    ensures { OnOk result (Reports (R.remaining input.old) (W.contents out.old) (W.contents out.new)) }
{
    let mut entries = Entries::default();
    match entries.read_all(input) {
        Ok(()) => entries.told(out),
        Err(Stop::Refused(number)) => {
            let at = Position(entries.end);
            writeln!(out, "{}", Refusal { at, number })
        }
        Err(Stop::ReadFailed) => writeln!(out, "read failed in the entry at {}", entries.end),
    }
}

// Reads all of standard input and says what it is.
pub fn run<R: Input + Print>(rt: &R) -> io::Result<()> {
    let mut input = rt.reader();
    let mut out = io::writer(rt);
    counted(&mut input, &mut out)
}
