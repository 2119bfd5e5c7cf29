// An accepted shard where it stands, and the parts of it that are copied.
ghost use Rattle.std.specs.Prelude.{◌≡◌, ◌-◌, length, take, Ok, Err, IfOk, IfErr};
ghost use Rattle.words.specs.Le.{part};
ghost use Rattle.rules.specs.Verdicts.{summary_of};
ghost use Rattle.layout.specs.Scan.{found_in};
ghost use Rattle.layout.specs.Reach.{last_place};
ghost use Rattle.join.specs.Join.{Parted, first_flags};

use rules::Place;
use whole::last_place;
use words::{Refusal, Stored, Words};

// The first file head stands at 48, its flags 32 bytes behind.
const FIRST_FLAGS: usize = 80;

#[derive(Clone, Copy)]
pub(crate) struct Accepted<'a> {
    pub(crate) bytes: &'a [u8],
    // Where reading it ends.
    pub(crate) last: Place,
    ghost parted: { Parted bytes.now last.offset.0 },
}

impl<'a> Accepted<'a> {
    pub(crate) fn read(tag: &[u8], bytes: &'a [u8]) -> Result<Accepted<'a>, Refusal>
        ensures accepted { IfOk result (λ a. ((found_in tag.now bytes.now).verdict ≡ Ok (summary_of a.last)) × (a.last ≡ last_place tag.now bytes.now) × (a.bytes.now ≡ bytes.now)) }
        ensures refused { IfErr result (λ r. (found_in tag.now bytes.now).verdict ≡ Err r) }
    {
        let last = last_place(tag, bytes);
        last.verdict()?;
        Ok(Accepted { bytes, last })
    }

    // Where the xorbs begin; a bookend stands before them, and one behind them.
    fn xorb_offset(&self) -> usize
        ensures { result ≡ self.now.last.offset.0 }
    {
        self.last.offset.0 as usize
    }

    // The flags of the first file, if it has files.
    pub(crate) fn first_flags(&self) -> u32
        ensures { result ≡ first_flags self.now.bytes.now }
    {
        u32::read(self.bytes, FIRST_FLAGS)
    }

    pub(crate) fn header_and_files(&self) -> &'a [u8]
        ensures { result.now ≡ take (self.now.last.offset.0 - 48) self.now.bytes.now }
    {
        &self.bytes[..self.xorb_offset() - Words::SIZE]
    }

    pub(crate) fn files_and_bookend(&self) -> &'a [u8]
        ensures { result.now ≡ part 48 self.now.last.offset.0 self.now.bytes.now }
    {
        &self.bytes[Words::SIZE..self.xorb_offset()]
    }

    pub(crate) fn xorbs(&self) -> &'a [u8]
        ensures { result.now ≡ part self.now.last.offset.0 (length self.now.bytes.now - 48) self.now.bytes.now }
    {
        &self.bytes[self.xorb_offset()..self.bytes.len() - Words::SIZE]
    }

    pub(crate) fn xorbs_and_bookend(&self) -> &'a [u8]
        ensures { result.now ≡ part self.now.last.offset.0 (length self.now.bytes.now) self.now.bytes.now }
    {
        &self.bytes[self.xorb_offset()..]
    }
}
