// Records, offers and verdicts, as numbers and back.
ghost use Rattle.std.specs.Prelude.{◌≡◌};
ghost use Rattle.host.specs.Boundary.{record_out, fields_in, offer_in, offer_for, if_known, verdict_out};
ghost use Rattle.host.specs.Calls.{verdict_for};

use crate::{OfferState, RecordState, StandState, UnknownKind, VerdictState};
use rules::{ChunkIndex, Place, Record, Totals, Verdict};
use words::number::joined;
use writer::{Fields, Offer};

impl RecordState {
    // Where no record was found.
    pub(crate) const NONE: RecordState = RecordState {
        hash: [0; 4],
        at: 0,
        offset: 0,
        kind: 0,
        a: 0,
        b: 0,
        c: 0,
        d: 0,
    };
}

impl From<Record> for RecordState {
    ghost from_gives = { λ found state. state ≡ record_out found };

    fn from(found: Record) -> RecordState {
        let w = found.words;
        let hash = w.hash;
        RecordState {
            hash,
            at: found.at.0,
            offset: found.offset.0,
            kind: u32::from(found.kind),
            a: w.a,
            b: w.b,
            c: w.c,
            d: w.d,
        }
    }
}

impl TryFrom<OfferState> for Fields {
    type Error = UnknownKind;

    ghost try_from_gives = { λ state fields. fields ≡ if_known state (fields_in state) };

    fn try_from(state: OfferState) -> Result<Fields, UnknownKind> {
        match state.kind {
            0 => Ok(Fields::Header {
                footer_size: state.x,
            }),
            1 => Ok(Fields::FileHead {
                flags: state.a,
                entries: state.b,
            }),
            2 => Ok(Fields::Segment {
                flags: state.a,
                bytes: state.b,
                start: ChunkIndex(state.c),
                end: ChunkIndex(state.d),
            }),
            3 => Ok(Fields::Verification),
            4 => Ok(Fields::Metadata),
            5 => Ok(Fields::XorbHead {
                flags: state.a,
                entries: state.b,
                bytes: state.c,
                disk: state.d,
            }),
            6 => Ok(Fields::Chunk {
                start: state.a,
                bytes: state.b,
            }),
            7 => Ok(Fields::SectionEnd),
            8 => Ok(Fields::Footer {
                created: state.x,
                expiry: state.y,
            }),
            kind => Err(UnknownKind(kind)),
        }
    }
}

impl TryFrom<OfferState> for Offer {
    type Error = UnknownKind;

    ghost try_from_gives = { λ state offer. offer ≡ if_known state (offer_in state) };

    fn try_from(state: OfferState) -> Result<Offer, UnknownKind> {
        let hash = state.hash;
        let fields = Fields::try_from(state)?;
        Ok(Offer { hash, fields })
    }
}

// The offer that writes a record which was read. What its kind does not name is not looked at.
impl From<RecordState> for OfferState {
    ghost from_gives = { λ found offer. offer ≡ offer_for found };

    fn from(found: RecordState) -> OfferState {
        let hash = found.hash;
        let front = joined(found.a, found.b);
        let back = joined(found.c, found.d);
        OfferState {
            hash,
            x: if found.kind == 0 { back } else { front },
            y: back,
            kind: found.kind,
            a: found.a,
            b: found.b,
            c: found.c,
            d: found.d,
        }
    }
}

impl From<Verdict> for VerdictState {
    ghost from_gives = { λ verdict state. state ≡ verdict_out verdict };

    fn from(verdict: Verdict) -> VerdictState {
        match verdict {
            Ok(summary) => VerdictState {
                length: summary.length,
                totals: summary.totals,
                at: 0,
                number: 0,
                footer: u32::from(summary.footer),
            },
            Err(refusal) => VerdictState {
                length: 0,
                totals: Totals::NONE,
                at: refusal.at.0,
                number: refusal.number,
                footer: 0,
            },
        }
    }
}

impl StandState {
    // The verdict so far, of a reader or a writer that stands there.
    #[tactic(auto, unfolding(crate::specs::Calls::verdict_for))]
    pub fn verdict(self) -> VerdictState
        ensures { result ≡ verdict_for self }
    {
        VerdictState::from(Place::from(self.place).verdict())
    }
}
