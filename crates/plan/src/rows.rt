// Segment by segment, with the range counted from the first byte of the next one: no sum is formed, so none can wrap.
ghost use Rattle.std.specs.Prelude.{◌≡◌};
ghost use Rattle.std.specs.Iterator.{item_count};
ghost use Rattle.plan.specs.Walk.{share_of, rows_left, measure_of, Gives};

use crate::Row;
use crate::segments::Segments;
use rules::ChunkIndex;

// What a segment and the range share, and the range counted from the byte behind the segment.
#[derive(Clone, Copy, Debug, PartialEq, Eq)]
pub struct Share {
    pub a: u64,
    pub b: u64,
    pub skip: u32,
    pub take: u32,
}

// A segment of n bytes, and the range counted from its first byte.
fn shared(a: u64, b: u64, n: u32) -> Share
    ensures { result ≡ share_of a b n }
{
    let n = u64::from(n);
    let skip = a.min(n);
    let end = b.min(n);
    Share {
        a: a - skip,
        b: b - end,
        skip: skip as u32,
        take: end.saturating_sub(skip) as u32,
    }
}

// The rows of the segments that are left, and the range counted from the first byte of the next one.
#[derive(Clone, Copy)]
pub struct Rows<'a> {
    pub segments: Segments<'a>,
    pub a: u64,
    pub b: u64,
}

// A segment that shares no byte is passed over. The walk ends with the range: behind it no segment has a row.
impl<'a> Iterator for Rows<'a> {
    type Item = Row;

    ghost next_gives = { Gives };

    ghost remaining = { item_count rows_left };

    #[tactic(auto, using(crate::proofs::Passes::turns))]
    fn next(&mut self) -> Option<Row> {
        while 0 < self.b {
            let segment = self.segments.next()?;
            let share = shared(self.a, self.b, segment.b);
            self.a = share.a;
            self.b = share.b;
            if 0 < share.take {
                let xorb = segment.hash;
                return Some(Row {
                    xorb,
                    start: ChunkIndex(segment.c),
                    end: ChunkIndex(segment.d),
                    skip: share.skip,
                    take: share.take,
                });
            }
        }
        None
    }
}

// How many rows there are, and how many bytes of the range lie past the last segment.
#[derive(Clone, Copy, Debug, PartialEq, Eq)]
pub struct Measure {
    pub rows: usize,
    pub past: u64,
}

impl<'a> Rows<'a> {
    // Behind the last row, what is left of the range is past the last segment.
    #[tactic(auto, using(crate::proofs::Passes::counting))]
    pub fn measured(mut self) -> Measure
        ensures { result ≡ measure_of self.entry }
    {
        let mut rows = 0;
        while self.next().is_some() {
            rows += 1;
        }
        Measure { rows, past: self.b }
    }
}
