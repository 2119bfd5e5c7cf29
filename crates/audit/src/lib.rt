// The segments of a whole shard against the xorbs that it lists: a verdict apart from the reader's. What it is is said in specs/Audit.
#![tactic(auto)]

ghost use Rattle.std.specs.Prelude.{◌≡◌};
ghost use Rattle.audit.specs.Audit.{audited_numbers};

use words::Refusal;

mod blocks;
mod segments;

pub use segments::audit;

// How many segments name a xorb that the shard lists, and how many name another.
#[derive(Clone, Copy, Debug, PartialEq, Eq)]
pub struct Counts {
    pub listed: u64,
    pub unlisted: u64,
}

// The paper's numbers for what an audit gives: how many segments name a listed xorb and how many another, or zeros and the refusal.
#[repr(C)]
#[derive(Clone, Copy, Debug, PartialEq, Eq)]
pub struct AuditedNumbers {
    pub listed: u64,
    pub unlisted: u64,
    pub at: u64,
    pub number: u32,
}

impl From<Result<Counts, Refusal>> for AuditedNumbers {
    ghost from_gives = { λ audited numbers. numbers ≡ audited_numbers audited };

    fn from(audited: Result<Counts, Refusal>) -> AuditedNumbers {
        match audited {
            Ok(counts) => AuditedNumbers {
                listed: counts.listed,
                unlisted: counts.unlisted,
                at: 0,
                number: 0,
            },
            Err(refusal) => AuditedNumbers {
                listed: 0,
                unlisted: 0,
                at: refusal.at.0,
                number: refusal.number,
            },
        }
    }
}
