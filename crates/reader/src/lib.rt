// The reader: a shard in pieces. A host keeps one reader and lends it by its address (crates host_read and host_step); a Rattle program passes it on and gets the
// next one. And the judge of a whole shard in a buffer. What one call does is said in specs/Stream, and what a whole piece gives in specs/Rows.
#![tactic(auto)]

ghost use Rattle.std.specs.Prelude.{◌≡◌};
ghost use Rattle.layout.specs.Scan.{found_in};

use rules::{Place, Record, Verdict};
use whole::last_place;
use words::{Refusal, Tag};

mod reading;
mod rows;
mod steps;

// Where a reader stands: how many bytes its carry has, the tag, and the place.
#[derive(Clone, Copy)]
pub struct Stand {
    pub have: usize,
    pub tag: Tag,
    pub place: Place,
}

// A reader between two calls: where it stands, and the bytes so far of the record due.
#[derive(Clone, Copy)]
pub struct Reader {
    pub stand: Stand,
    pub carry: [u8; 200],
}

// What a call answers: how many bytes it took, and the record found, if it found one, or the refusal.
#[derive(Clone, Copy)]
pub struct Answer {
    pub taken: usize,
    pub found: Result<Option<Record>, Refusal>,
}

#[derive(Clone, Copy)]
pub struct Step {
    pub reader: Reader,
    pub answer: Answer,
}

// What a call with a lent carry gives.
#[derive(Clone, Copy)]
pub struct Call {
    pub stand: Stand,
    pub answer: Answer,
}

// Why no more of a piece was read, where nothing was refused.
#[derive(Clone, Copy, Debug, PartialEq, Eq)]
pub enum Ended {
    PieceUsed,
    TableFull,
}

// What reading a whole piece gives: where the reader stands, the bytes taken, the rows filled, and why no more was read.
#[derive(Clone, Copy)]
pub struct Read {
    pub stand: Stand,
    pub taken: usize,
    pub count: usize,
    pub ended: Result<Ended, Refusal>,
}

// The verdict on a whole shard.
#[tactic(auto, using(whole::proofs::Turns::last_verdict))]
pub fn judge(tag: &[u8], shard: &[u8]) -> Verdict
    ensures { result ≡ (found_in tag.now shard.now).verdict }
{
    last_place(tag, shard).verdict()
}
