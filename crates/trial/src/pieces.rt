// A shard read in pieces.
ghost use Rattle.std.specs.Prelude.{◌≡◌, ◌<◌, ◌≤◌, ◌++◌, length};
ghost use Rattle.std.specs.Option.{IfSome, IsNone};
ghost use Rattle.std.specs.Iterator.{at_most};

use reader::Reader;
use rules::Verdict;
use shardline::feed::fed;
use std::iter::Cycle;
use std::slice::Iter;

// Some bytes, cut into pieces of these sizes, over and over, each of at least one byte. Where there are no sizes, all the bytes are one piece.
#[derive(Drop)]
pub struct Pieces<'a, S> {
    rest: &'a [u8],
    sizes: Cycle<Iter<'a, S>>,
}

impl<'a, S: Copy + Into<usize>> Pieces<'a, S> {
    pub fn new(bytes: &'a [u8], sizes: &'a [S]) -> Pieces<'a, S> {
        Pieces {
            rest: bytes,
            sizes: sizes.iter().cycle(),
        }
    }
}

impl<'a, S: Copy + Into<usize>> Iterator for Pieces<'a, S> {
    type Item = &'a [u8];

    // Some bytes of what is left, at least one, and all of them in the end.
    ghost next_gives = { λ old piece new. IfSome piece (λ p. (0 < length p.now) × (p.now ++ new.rest.now ≡ old.rest.now))
        × (IsNone piece → length old.rest.now ≤ 0) };

    ghost remaining = { λ s. at_most (length s.rest.now) };

    fn next(&mut self) -> Option<&'a [u8]> {
        let most = self.rest.len();
        if most == 0 {
            return None;
        }
        let size = self.sizes.next().map_or(most, |size| (*size).into());
        let (piece, rest) = self.rest.split_at(size.clamp(1, most));
        self.rest = rest;
        Some(piece)
    }
}

// What is left of some bytes of which so many were taken; none where none was taken, or none is left.
pub fn left_of(bytes: &[u8], taken: usize) -> Option<&[u8]>
    ensures { IfSome result (λ left. length left.now < length bytes.now) }
{
    if 0 < taken && taken < bytes.len() {
        Some(&bytes[taken..])
    } else {
        None
    }
}

// The verdict on bytes that are read in pieces of these sizes, over and over.
pub fn in_pieces(tag: &[u8], bytes: &[u8], sizes: &[usize]) -> Verdict {
    Pieces::new(bytes, sizes)
        .fold(Reader::new(tag), fed)
        .verdict()
}

// The verdict on bytes that are read in one piece.
pub fn in_one(tag: &[u8], bytes: &[u8]) -> Verdict {
    fed(Reader::new(tag), bytes).verdict()
}
