// A stretch of one file of a whole shard: the pieces to fetch, as rows of a lent table. What they are is said in specs/Plan.
#![tactic(auto)]

ghost use Rattle.std.specs.Prelude.{◌≡◌, length};
ghost use Rattle.plan.specs.Plan.{plan_of, answer_to, table_to, planned_numbers};

use crate::drafts::drafted;
use rules::{ChunkIndex, FileNumber};
use words::Refusal;

mod drafts;
mod rows;
mod segments;

// One piece to fetch: chunks of a xorb, and which of their unpacked bytes are wanted.
#[repr(C)]
#[derive(Clone, Copy, Debug, PartialEq, Eq)]
pub struct Row {
    pub xorb: [u64; 4],
    pub start: ChunkIndex,
    pub end: ChunkIndex,
    pub skip: u32,
    pub take: u32,
}

// The paper's numbers for what planning gives: so many rows were filled, or 0 and the refusal.
#[repr(C)]
#[derive(Clone, Copy, Debug, PartialEq, Eq)]
pub struct PlannedNumbers {
    pub rows: u64,
    pub at: u64,
    pub number: u32,
}

impl From<Result<usize, Refusal>> for PlannedNumbers {
    ghost from_gives = { λ planned numbers. numbers ≡ planned_numbers planned };

    fn from(planned: Result<usize, Refusal>) -> PlannedNumbers {
        match planned {
            Ok(rows) => PlannedNumbers {
                rows: rows as u64,
                at: 0,
                number: 0,
            },
            Err(refusal) => PlannedNumbers {
                rows: 0,
                at: refusal.at.0,
                number: refusal.number,
            },
        }
    }
}

// The bytes of a file from a up to but not including b: so many rows were filled, or the refusal, and none was.
#[tactic(auto, using(crate::proofs::Table::fills))]
pub fn plan(
    tag: &[u8],
    shard: &[u8],
    file: FileNumber,
    a: u64,
    b: u64,
    table: &mut [Row],
) -> Result<usize, Refusal>
    ensures { (result ≡ answer_to (plan_of tag.now shard.now file.0 a b (length table.old)))
        × (table.new ≡ table_to (plan_of tag.now shard.now file.0 a b (length table.old)) table.old) }
{
    let draft = drafted(tag, shard, file, a, b, table.len())?;
    for (i, row) in draft.rows.enumerate() {
        table[i] = row;
    }
    Ok(draft.count)
}
