// What is offered: the record that a writer makes of it, and what a record read offers again.
ghost use Rattle.std.specs.Prelude.{◌≡◌};
ghost use Rattle.writer.specs.Offers.{kind_by, words_of, fields_of, offer_of};

use crate::{Fields, Offer};
use rules::{ChunkIndex, Kind, Record};
use words::number::{high_half, joined, low_half};
use words::{Tag, Words};

// ## The record made of it

impl Fields {
    // The kind of record that is asked for.
    pub(crate) fn kind(self) -> Kind
        ensures { result ≡ kind_by self }
    {
        match self {
            Fields::Header { .. } => Kind::Header,
            Fields::FileHead { .. } => Kind::FileHead,
            Fields::Segment { .. } => Kind::Segment,
            Fields::Verification => Kind::Verification,
            Fields::Metadata => Kind::Metadata,
            Fields::XorbHead { .. } => Kind::XorbHead,
            Fields::Chunk { .. } => Kind::Chunk,
            Fields::SectionEnd => Kind::Bookend,
            Fields::Footer { .. } => Kind::Footer,
        }
    }
}

impl Offer {
    // The numbers of the record that a writer makes of the offer.
    #[tactic(auto, unfolding(crate::specs::Offers::words_of))]
    pub(crate) fn words(self, tag: Tag) -> Words
        ensures { result ≡ words_of tag self }
    {
        let hash = self.hash;
        let four = tag.0;
        let plain = Words {
            hash,
            a: 0,
            b: 0,
            c: 0,
            d: 0,
        };
        match self.fields {
            Fields::Header { footer_size } => Words {
                hash: four,
                a: 2,
                b: 0,
                c: low_half(footer_size),
                d: high_half(footer_size),
            },
            Fields::FileHead { flags, entries } => Words {
                a: flags,
                b: entries,
                ..plain
            },
            Fields::Segment {
                flags,
                bytes,
                start,
                end,
            } => Words {
                a: flags,
                b: bytes,
                c: start.0,
                d: end.0,
                ..plain
            },
            Fields::Verification | Fields::Metadata => plain,
            Fields::XorbHead {
                flags,
                entries,
                bytes,
                disk,
            } => Words {
                a: flags,
                b: entries,
                c: bytes,
                d: disk,
                ..plain
            },
            Fields::Chunk { start, bytes } => Words {
                a: start,
                b: bytes,
                ..plain
            },
            Fields::SectionEnd => Words::BOOKEND,
            Fields::Footer { created, expiry } => Words {
                a: low_half(created),
                b: high_half(created),
                c: low_half(expiry),
                d: high_half(expiry),
                ..plain
            },
        }
    }
}

// ## What a record read offers

// The record's numbers, by the names of the paper's table.
impl From<Record> for Fields {
    ghost from_gives = { λ found fields. fields ≡ fields_of found };

    #[tactic(auto, unfolding(crate::specs::Offers::fields_of))]
    fn from(found: Record) -> Fields {
        let w = found.words;
        match found.kind {
            Kind::Header => Fields::Header {
                footer_size: joined(w.c, w.d),
            },
            Kind::FileHead => Fields::FileHead {
                flags: w.a,
                entries: w.b,
            },
            Kind::Segment => Fields::Segment {
                flags: w.a,
                bytes: w.b,
                start: ChunkIndex(w.c),
                end: ChunkIndex(w.d),
            },
            Kind::Verification => Fields::Verification,
            Kind::Metadata => Fields::Metadata,
            Kind::XorbHead => Fields::XorbHead {
                flags: w.a,
                entries: w.b,
                bytes: w.c,
                disk: w.d,
            },
            Kind::Chunk => Fields::Chunk {
                start: w.a,
                bytes: w.b,
            },
            Kind::Bookend => Fields::SectionEnd,
            Kind::Footer => Fields::Footer {
                created: joined(w.a, w.b),
                expiry: joined(w.c, w.d),
            },
        }
    }
}

// The record as it is offered to a writer.
impl From<Record> for Offer {
    ghost from_gives = { λ found offer. offer ≡ offer_of found };

    #[tactic(auto, unfolding(crate::specs::Offers::offer_of))]
    fn from(found: Record) -> Offer {
        let hash = found.words.hash;
        Offer {
            hash,
            fields: Fields::from(found),
        }
    }
}
