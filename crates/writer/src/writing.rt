// One record into a lent buffer: it is judged by what is due and by the reader's checks, and only then is a byte written.
ghost use Rattle.std.specs.Prelude.{◌≡◌, ◌&&◌, not, ◌≤◌, length};
ghost use Rattle.words.specs.Checks.{pick};
ghost use Rattle.words.specs.Le.{puts};
ghost use Rattle.words.specs.Record.{is_ones};
ghost use Rattle.writer.specs.Offers.{kind_offered, words_of};
ghost use Rattle.writer.specs.Write.{is_head, is_footer, bytes_of, answer_of, written_of, buffer_of, fresh, verdict_of};

use crate::{Offer, Writer, Written};
use rules::{Kind, Place, Verdict};
use words::foot::put_footer;
use words::hash::is_ones;
use words::{Refusal, Stored, Tag, Words};

// Whether a hash may stand in a record of this kind: no head has the hash of all ones.
fn may_stand(kind: Kind, hash: [u64; 4]) -> bool
    ensures { result ≡ not (is_head kind && is_ones hash) }
{
    !((kind == Kind::FileHead || kind == Kind::XorbHead) && is_ones(hash))
}

impl Writer {
    // A fresh writer. A tag that is not 32 bytes is refused with 2, now and ever after.
    #[tactic(auto, unfolding(crate::specs::Write::fresh))]
    pub fn new(tag: &[u8]) -> Writer
        ensures { result ≡ fresh tag.now }
    {
        match Tag::try_from(tag) {
            Ok(tag) => Writer {
                tag,
                place: Place::START,
            },
            Err(_) => Writer {
                tag: Tag::NONE,
                place: Place::START.refuse(Refusal::TAG_LENGTH),
            },
        }
    }

    // One record, at the start of the buffer. Refused, it changes no byte and stands where it stood.
    pub fn put(self, offer: Offer, buf: &mut [u8]) -> Written
        ensures { (result ≡ written_of self offer (length buf.old)) × (buf.new ≡ buffer_of self offer buf.old) }
    {
        let words = offer.words(self.tag);
        let answer = self.judge(offer, words, buf.len());
        match answer {
            Ok(_) => {
                self.spell(offer, words, buf);
                let next = Writer {
                    tag: self.tag,
                    place: self.place.next(words),
                };
                Written {
                    writer: next,
                    answer,
                }
            }
            Err(_) => Written {
                writer: self,
                answer,
            },
        }
    }

    // Done, or 1 at the record due; 2 if the tag was bad. Asking changes nothing.
    #[tactic(auto, unfolding(crate::specs::Write::verdict_of))]
    pub fn verdict(self) -> Verdict
        ensures { result ≡ verdict_of self }
    {
        self.place.verdict()
    }

    // What is answered to an offer, from its record's numbers and room for so many bytes: whether it is due, its hash may stand there, the reader's checks, and the room.
    #[tactic(auto, unfolding(crate::specs::Write::answer_of))]
    fn judge(self, offer: Offer, words: Words, room: usize) -> Result<usize, Refusal>
        requires { words ≡ words_of self.tag offer }
        ensures { result ≡ answer_of self offer room }
    {
        let place = self.place;
        let due = place.due;
        let kind = offer.fields.kind();
        let size = due.size();
        if !due.takes(kind) {
            return Err(place.refusal(due.not_due()));
        }
        if !may_stand(kind, offer.hash) {
            return Err(place.refusal(Refusal::ALL_ONES));
        }
        place
            .check(self.tag, words)
            .map_err(|number| place.refusal(number))?;
        if room < size {
            return Err(place.refusal(Refusal::BUFFER));
        }
        Ok(size)
    }

    // The record's bytes, at the start of the buffer.
    #[tactic(auto, unfolding(crate::specs::Write::bytes_of))]
    fn spell(self, offer: Offer, words: Words, buf: &mut [u8])
        requires { (words ≡ words_of self.tag offer) × (pick (is_footer (kind_offered offer)) 200 48 ≤ length buf.old) }
        ensures { buf.new ≡ puts buf.old 0 (bytes_of self offer) }
    {
        if offer.fields.kind() == Kind::Footer {
            put_footer(buf, self.place.offset.0, self.place.at.0, words);
        } else {
            words.write(buf, 0);
        }
    }
}
