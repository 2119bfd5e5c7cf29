// One segment against the xorb blocks: heads, in order, up to the first that has its hash; a head says how many chunks it has behind it.
ghost use Rattle.std.specs.Prelude.{◌≡◌};
ghost use Rattle.audit.specs.Walk.{Complete, before_in, true_in, Comparable, Compares};

use words::hash::{is_ones, same_hash};
use words::{Stored, Words};

// A xorb block: its head, and the bytes of its chunks' records.
#[derive(Clone, Copy)]
pub struct Block<'a> {
    pub head: Words,
    pub chunks: &'a [u8],
}

impl<'a> Block<'a> {
    // How many bytes the chunks before an index have together: where the chunk there starts in the xorb or, behind the last one, the xorb's bytes.
    fn before(self, i: u32) -> u32
        requires { Complete self }
        ensures { result ≡ before_in self.entry i }
    {
        if i < self.head.b {
            Words::read(self.chunks, Words::SIZE * (i as usize)).a
        } else {
            self.head.c
        }
    }

    // Whether a segment's chunk end does not pass the count, and its bytes are those from its chunk start to its end.
    fn is_true(self, segment: Words) -> bool
        requires { Complete self }
        ensures { result ≡ true_in self.entry segment }
    {
        segment.d <= self.head.b
            && u64::from(self.before(segment.c)) + u64::from(segment.b)
                == u64::from(self.before(segment.d))
    }
}

// Whether a segment is true of the first of the blocks from a position on that has its hash, if there is one.
pub(crate) fn compare(shard: &[u8], xorbs: usize, segment: Words) -> Option<bool>
    requires { Comparable shard.now xorbs segment }
    ensures { Compares shard.now xorbs segment result }
{
    let mut at = xorbs;
    loop {
        let head = Words::read(shard, at);
        if is_ones(head.hash) {
            return None;
        }
        let start = at + Words::SIZE;
        let end = start + Words::SIZE * (head.b as usize);
        if same_hash(head.hash, segment.hash) {
            let chunks = &shard[start..end];
            return Some(Block { head, chunks }.is_true(segment));
        }
        at = end;
    }
}
