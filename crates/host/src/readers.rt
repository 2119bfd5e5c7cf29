// Readers and what their calls answer, as numbers and back, and the calls on a reader that a host lends: where it stands goes in and out, and the carry is
// lent on. Inner functions, of which host_read and host_step make those that a host calls.
ghost use Rattle.std.specs.Prelude.{◌≡◌};
ghost use Rattle.reader.specs.Stream.{fresh};
ghost use Rattle.host.specs.Boundary.{stand_in, reader_out, stand_out, step_out, read_out};
ghost use Rattle.host.specs.Calls.{step_by, read_by};

use crate::{PlaceState, ReadState, ReaderState, RecordState, StandState, StepState};
use reader::{Answer, Ended, Read, Reader, Stand};
use rules::Place;
use words::Tag;
use words::number::low_half;

impl From<StandState> for Stand {
    ghost from_gives = { λ state stand. stand ≡ stand_in state };

    fn from(state: StandState) -> Stand {
        let four = state.tag;
        Stand {
            have: state.place.have as usize,
            tag: Tag(four),
            place: Place::from(state.place),
        }
    }
}

impl From<Stand> for StandState {
    ghost from_gives = { λ stand state. state ≡ stand_out stand };

    fn from(stand: Stand) -> StandState {
        let tag = stand.tag.0;
        let place = PlaceState::from(stand.place);
        StandState {
            tag,
            place: PlaceState {
                have: low_half(stand.have as u64),
                ..place
            },
        }
    }
}

impl From<Reader> for ReaderState {
    ghost from_gives = { λ reader state. state ≡ reader_out reader };

    fn from(reader: Reader) -> ReaderState {
        let carry = reader.carry;
        ReaderState {
            stand: StandState::from(reader.stand),
            carry,
        }
    }
}

impl From<Answer> for StepState {
    ghost from_gives = { λ answer state. state ≡ step_out answer };

    fn from(answer: Answer) -> StepState {
        let nothing = StepState {
            found: RecordState::NONE,
            taken: answer.taken as u64,
            at: 0,
            said: 0,
            number: 0,
        };
        match answer.found {
            Ok(None) => nothing,
            Ok(Some(found)) => StepState {
                found: RecordState::from(found),
                said: 1,
                ..nothing
            },
            Err(refusal) => StepState {
                at: refusal.at.0,
                said: 2,
                number: refusal.number,
                ..nothing
            },
        }
    }
}

impl From<Read> for ReadState {
    ghost from_gives = { λ read state. state ≡ read_out read.taken read.count read.ended };

    fn from(read: Read) -> ReadState {
        let used = ReadState {
            taken: read.taken as u64,
            count: read.count as u64,
            at: 0,
            said: 0,
            number: 0,
        };
        match read.ended {
            Ok(Ended::PieceUsed) => used,
            Ok(Ended::TableFull) => ReadState { said: 1, ..used },
            Err(refusal) => ReadState {
                at: refusal.at.0,
                said: 2,
                number: refusal.number,
                ..used
            },
        }
    }
}

impl ReaderState {
    // A fresh reader.
    pub fn new(tag: &[u8]) -> ReaderState
        ensures { result ≡ reader_out (fresh tag.now) }
    {
        ReaderState::from(Reader::new(tag))
    }

    // One call.
    #[tactic(auto, unfolding(crate::specs::Calls::step_by))]
    pub fn step(&mut self, piece: &[u8]) -> StepState
        ensures { (result ≡ (step_by self.old piece.now).answer) × (self.new ≡ (step_by self.old piece.now).reader) }
    {
        let call = Stand::from(self.stand).step(&mut self.carry, piece);
        self.stand = StandState::from(call.stand);
        StepState::from(call.answer)
    }

    // A whole piece.
    #[tactic(auto, unfolding(crate::specs::Calls::read_by))]
    pub fn read(&mut self, piece: &[u8], table: &mut [u64]) -> ReadState
        ensures { (result ≡ (read_by self.old piece.now table.old).answer) × (self.new ≡ (read_by self.old piece.now table.old).reader) × (table.new ≡ (read_by self.old piece.now table.old).table) }
    {
        let read = Stand::from(self.stand).read(&mut self.carry, piece, table);
        self.stand = StandState::from(read.stand);
        ReadState::from(read)
    }
}
