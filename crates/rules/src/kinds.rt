// Kinds of record: their rows in the paper's table, which of them are due, and the number where one is not.
ghost use Rattle.std.specs.Prelude.{◌≡◌};
ghost use Rattle.rules.specs.Kinds.{row_of, is_due, not_due};

use crate::{Due, Kind};
use words::Refusal;

// The row of the paper's table.
impl From<Kind> for u32 {
    ghost from_gives = { λ kind row. row ≡ row_of kind };

    fn from(kind: Kind) -> u32 {
        match kind {
            Kind::Header => 0,
            Kind::FileHead => 1,
            Kind::Segment => 2,
            Kind::Verification => 3,
            Kind::Metadata => 4,
            Kind::XorbHead => 5,
            Kind::Chunk => 6,
            Kind::Bookend => 7,
            Kind::Footer => 8,
        }
    }
}

impl Due {
    // Whether a record of this kind is due.
    pub fn takes(self, kind: Kind) -> bool
        ensures { result ≡ is_due self kind }
    {
        match self {
            Due::Header => kind == Kind::Header,
            Due::FileHead => (kind == Kind::FileHead) | (kind == Kind::Bookend),
            Due::Segment(_) => kind == Kind::Segment,
            Due::Verification(_) => kind == Kind::Verification,
            Due::Metadata => kind == Kind::Metadata,
            Due::XorbHead => (kind == Kind::XorbHead) | (kind == Kind::Bookend),
            Due::Chunk(_, _, _) => kind == Kind::Chunk,
            Due::Footer => kind == Kind::Footer,
            Due::End | Due::Refused(_) => false,
        }
    }

    // The number of the refusal for a record that is not due.
    pub fn not_due(self) -> u32
        ensures { result ≡ not_due self }
    {
        match self {
            Due::Refused(number) => number,
            _ => Refusal::NOT_DUE,
        }
    }
}
