// Writers and what their calls answer, as numbers and back, and the calls on a writer that a host lends. Inner functions, of which host_write makes those that a
// host calls.
ghost use Rattle.std.specs.Prelude.{◌≡◌, length};
ghost use Rattle.writer.specs.Write.{fresh};
ghost use Rattle.host.specs.Boundary.{writer_in, writer_out};
ghost use Rattle.host.specs.Calls.{written_for, buffer_for, put_by};

use crate::{OfferState, PlaceState, StandState, WriterState};
use rules::Place;
use words::{Tag, WroteNumbers};
use writer::{Offer, Writer, Written};

impl From<StandState> for Writer {
    ghost from_gives = { λ state writer. writer ≡ writer_in state };

    fn from(state: StandState) -> Writer {
        let four = state.tag;
        Writer {
            tag: Tag(four),
            place: Place::from(state.place),
        }
    }
}

impl From<Writer> for StandState {
    ghost from_gives = { λ writer state. state ≡ writer_out writer };

    fn from(writer: Writer) -> StandState {
        let tag = writer.tag.0;
        StandState {
            tag,
            place: PlaceState::from(writer.place),
        }
    }
}

// An offer of no known kind is refused as a record that is not due.
fn offered(writer: Writer, offer: OfferState, buf: &mut [u8]) -> Written
    ensures { (result ≡ written_for writer offer (length buf.old)) × (buf.new ≡ buffer_for writer offer buf.old) }
{
    match Offer::try_from(offer) {
        Ok(known) => writer.put(known, buf),
        Err(_) => {
            let place = writer.place;
            Written {
                writer,
                answer: Err(place.refusal(place.due.not_due())),
            }
        }
    }
}

impl WriterState {
    // A fresh writer.
    pub fn new(tag: &[u8]) -> WriterState
        ensures { result ≡ record { stand = writer_out (fresh tag.now) } }
    {
        WriterState {
            stand: StandState::from(Writer::new(tag)),
        }
    }

    // One record.
    #[tactic(auto, unfolding(crate::specs::Calls::put_by))]
    pub fn put(&mut self, offer: OfferState, buf: &mut [u8]) -> WroteNumbers
        ensures { (result ≡ (put_by self.old offer buf.old).answer) × (self.new ≡ (put_by self.old offer buf.old).writer) × (buf.new ≡ (put_by self.old offer buf.old).buffer) }
    {
        let written = offered(Writer::from(self.stand), offer, buf);
        self.stand = StandState::from(written.writer);
        WroteNumbers::from(written.answer)
    }
}
