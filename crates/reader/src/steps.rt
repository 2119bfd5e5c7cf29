// One call of the reader: it takes at most what is missing from the record due, and a record is judged once all its bytes are there. The carry is lent to the
// call, which leaves it clean: the bytes so far of the record due, and zeros.
ghost use Rattle.std.specs.Prelude.{◌≡◌, true, ◌<◌, length};
ghost use Rattle.rules.specs.Rules.{size_of};
ghost use Rattle.reader.specs.Stream.{fresh, lent, call_of, passed_by, failed_by, kept, stopped, lacking, halt_by, step_of, verdict_of};

use crate::{Answer, Call, Reader, Stand, Step};
use carry::{filled, hear};
use rules::Verdict;
use whole::start_for;
use words::{Refusal, Tag, Words};

impl Reader {
    // A fresh reader.
    #[tactic(auto, unfolding(crate::specs::Stream::fresh))]
    pub fn new(tag: &[u8]) -> Reader
        ensures { result ≡ fresh tag.now }
    {
        Reader {
            stand: Stand {
                have: 0,
                tag: Tag::try_from(tag).unwrap_or(Tag::NONE),
                place: start_for(tag),
            },
            carry: [0; 200],
        }
    }

    // One call, by a reader that is passed on.
    pub fn step(mut self, piece: &[u8]) -> Step
        ensures { result ≡ step_of self piece.now }
    {
        let call = self.stand.step(&mut self.carry, piece);
        self.stand = call.stand;
        Step {
            reader: self,
            answer: call.answer,
        }
    }

    // The refusal if there was one, done after the end, else 1 at the record due. It changes nothing.
    #[tactic(auto, unfolding(crate::specs::Stream::verdict_of))]
    pub fn verdict(self) -> Verdict
        ensures { result ≡ verdict_of self }
    {
        self.stand.place.verdict()
    }
}

impl Stand {
    // One call, with the carry lent: it takes the smaller of the piece's length and the bytes missing from the record due.
    #[tactic(auto, unfolding(crate::specs::Stream::step_of))]
    pub fn step(self, carry: &mut [u8; 200], piece: &[u8]) -> Call
        ensures { (result ≡ call_of (step_of (lent self carry.old) piece.now)) × (carry.new ≡ (step_of (lent self carry.old) piece.now).reader.carry) }
    {
        if self.halts(piece.len()) {
            return self.halt(carry, piece);
        }
        let lacks = self.lacks();
        let heard = hear(carry, self.have, self.tag, self.place, &piece[..lacks]);
        *carry = [0; 200];
        match heard {
            Ok(words) => self.passed(words, lacks),
            Err(number) => self.failed(number, lacks),
        }
    }

    // How many bytes of the record due are missing.
    pub(crate) fn lacks(self) -> usize
        ensures { result ≡ lacking self }
    {
        self.place.due.size().saturating_sub(self.have)
    }

    // Whether nothing is due, or less is left of the piece than the record due lacks.
    pub(crate) fn halts(self, left: usize) -> bool
        ensures { result ≡ halt_by (size_of self.place) (lacking self) left }
    {
        self.place.due.size() == 0 || left < self.lacks()
    }

    // A good record is handed out, and reading goes on behind it with nothing carried.
    fn passed(self, w: Words, taken: usize) -> Call
        ensures { result ≡ call_of (passed_by self w taken) }
    {
        Call {
            stand: Stand {
                have: 0,
                place: self.place.next(w),
                ..self
            },
            answer: Answer {
                taken,
                found: Ok(Some(self.place.record(w))),
            },
        }
    }

    // No record is handed out for a faulty one, and reading has stopped.
    pub(crate) fn failed(self, number: u32, taken: usize) -> Call
        ensures { result ≡ call_of (failed_by self number taken) }
    {
        Call {
            stand: Stand {
                have: 0,
                place: self.place.refuse(number),
                ..self
            },
            answer: Answer {
                taken,
                found: Err(self.place.refusal(number)),
            },
        }
    }

    // A call that finds no whole record.
    #[tactic(auto, unfolding(crate::specs::Stream::step_of))]
    pub(crate) fn halt(self, carry: &mut [u8; 200], piece: &[u8]) -> Call
        requires { halt_by (size_of self.place) (lacking self) (length piece.now) ≡ true }
        ensures { (result ≡ call_of (step_of (lent self carry.old) piece.now)) × (carry.new ≡ (step_of (lent self carry.old) piece.now).reader.carry) }
    {
        if self.place.due.size() == 0 {
            self.stop(carry, piece.len())
        } else {
            self.keep(carry, piece)
        }
    }

    // Fewer bytes than are missing: they are kept.
    fn keep(self, carry: &mut [u8; 200], piece: &[u8]) -> Call
        requires { length piece.now < lacking self }
        ensures { (result ≡ call_of (kept (lent self carry.old) piece.now)) × (carry.new ≡ (kept (lent self carry.old) piece.now).reader.carry) }
    {
        let taken = piece.len();
        *carry = filled(*carry, self.have, piece);
        Call {
            stand: Stand {
                have: self.have + taken,
                ..self
            },
            answer: Answer {
                taken,
                found: Ok(None),
            },
        }
    }

    // After the end or a refusal: a byte after the end is refused with 14, and a refusal is repeated.
    fn stop(self, carry: &mut [u8; 200], length: usize) -> Call
        ensures { (result ≡ call_of (stopped (lent self carry.old) length)) × (carry.new ≡ (stopped (lent self carry.old) length).reader.carry) }
    {
        let found = match self.place.verdict() {
            Err(refusal) => Err(refusal),
            Ok(_) if length == 0 => Ok(None),
            Ok(_) => {
                *carry = [0; 200];
                return self.failed(Refusal::AFTER_END, 0);
            }
        };
        Call {
            stand: self,
            answer: Answer { taken: 0, found },
        }
    }
}
