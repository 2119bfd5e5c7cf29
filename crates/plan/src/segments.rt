// The segments of a file by its number: file heads, in order; a head says how many records it has behind it.
ghost use Rattle.std.specs.Iterator.{YieldsFirst, item_count};
ghost use Rattle.plan.specs.Walk.{words_left, Seeks};

use rules::{FileNumber, further_records};
use whole::last_place;
use words::hash::is_ones;
use words::{Refusal, Stored, Words};

// The segments of a file, one behind the other: the bytes of those that are left.
#[derive(Clone, Copy)]
pub struct Segments<'a> {
    pub bytes: &'a [u8],
}

impl<'a> Iterator for Segments<'a> {
    type Item = Words;

    ghost next_gives = { YieldsFirst words_left };

    ghost remaining = { item_count words_left };

    #[tactic(auto, using(crate::proofs::Records::none_held, crate::proofs::Records::first_held))]
    fn next(&mut self) -> Option<Words> {
        if self.bytes.len() < Words::SIZE {
            return None;
        }
        let segment = Words::read(self.bytes, 0);
        self.bytes = &self.bytes[Words::SIZE..];
        Some(segment)
    }
}

// Those of the file of that number, if there is one.
pub(crate) fn seek<'a>(
    tag: &[u8],
    shard: &'a [u8],
    file: FileNumber,
) -> Result<Option<Segments<'a>>, Refusal>
    ensures { Seeks tag.now shard.now file.0 result }
{
    last_place(tag, shard).verdict()?;
    let mut at = Words::SIZE;
    for _ in 0..file.0 {
        let head = Words::read(shard, at);
        if is_ones(head.hash) {
            return Ok(None);
        }
        at += Words::SIZE * (1 + further_records(head.a, head.b) as usize);
    }
    let head = Words::read(shard, at);
    if is_ones(head.hash) {
        return Ok(None);
    }
    let start = at + Words::SIZE;
    let end = start + Words::SIZE * (head.b as usize);
    Ok(Some(Segments {
        bytes: &shard[start..end],
    }))
}
