// One case: read whole and in pieces, written again, and told in a line.
use crate::shard::{Foot, TAG, footed, shard};
use rules::Verdict;
use std::alloc::Global;
use std::io;
use std::io::Write;
use trial::again::Copying;
use trial::pieces::{in_one, in_pieces};
use trial::rows::in_rows;
use trial::told::Told;
use words::Words;

// The pieces that a shard is read in: each time all of one size.
const SIZES: [usize; 7] = [1, 7, 47, 48, 49, 100, 512];

// Whether all was written again.
pub fn again(copying: &Copying) -> &'static str {
    if copying.is_same() {
        " again"
    } else {
        " NOT AGAIN"
    }
}

// Whether the verdict is the same in pieces of every size tried, step by step and into rows, and from the judge of the whole.
fn is_same(tag: &[u8], bytes: &[u8], verdict: Verdict) -> bool {
    SIZES.iter().all(|size| {
        in_pieces(tag, bytes, &[*size]) == verdict && in_rows(tag, bytes, &[*size]) == verdict
    }) && reader::judge(tag, bytes) == verdict
}

// Where the cases are told, and where their bytes are kept.
#[derive(Drop)]
pub struct Quay<W> {
    pub out: W,
    pub alloc: Global,
}

impl<W: Write> Quay<W> {
    // A case of these bytes, under a tag argument.
    pub fn told(&mut self, name: &str, tag: &[u8], bytes: &[u8]) -> io::Result<()> {
        let verdict = in_one(tag, bytes);
        let length = Told(verdict.map(|summary| summary.length));
        let same = if is_same(tag, bytes, verdict) {
            "same"
        } else {
            "DIFFERENT"
        };
        write!(self.out, "{name}: {length} {same}")?;
        if verdict.is_ok() {
            let mut copying = Copying::new(tag);
            copying.copy(bytes);
            write!(self.out, "{}", again(&copying))?;
        }
        writeln!(self.out)
    }

    // A case of these records.
    pub fn case(&mut self, name: &str, records: &[Words]) -> io::Result<()> {
        let bytes = shard(self.alloc, records)?;
        self.told(name, &TAG, &bytes)
    }

    // A case of these records, with a footer behind them.
    pub fn case_with(&mut self, name: &str, records: &[Words], foot: Foot) -> io::Result<()> {
        let bytes = footed(self.alloc, records, foot)?;
        self.told(name, &TAG, &bytes)
    }
}
