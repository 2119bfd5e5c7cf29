// A shard read in whole pieces, into a table of three rows.
use crate::pieces::{Pieces, left_of};
use reader::{Reader, Stand};
use rules::Verdict;

// Where a reader stands after a piece, of which what is left is offered again while the table is full.
fn read_on(mut stand: Stand, carry: &mut [u8; 200], piece: &[u8]) -> Stand {
    let mut rest = piece;
    loop {
        let read = stand.read(carry, rest, &mut [0u64; 27]);
        stand = read.stand;
        match left_of(rest, read.taken) {
            Some(left) => rest = left,
            None => return stand,
        }
    }
}

// The verdict on bytes that are read so, in pieces of these sizes, over and over.
pub fn in_rows(tag: &[u8], bytes: &[u8], sizes: &[usize]) -> Verdict {
    let Reader {
        mut stand,
        mut carry,
    } = Reader::new(tag);
    for piece in Pieces::new(bytes, sizes) {
        stand = read_on(stand, &mut carry, piece);
    }
    stand.place.verdict()
}
