// Before a row is filled: the refusals, in their order, and how many rows there are.
ghost use Rattle.plan.specs.Walk.{Drafts};

use crate::rows::Rows;
use crate::segments::seek;
use rules::{FileNumber, Place};
use words::Refusal;

// How many rows are to be filled, and what they are.
#[derive(Clone, Copy)]
pub struct Draft<'a> {
    pub count: usize,
    pub rows: Rows<'a>,
}

#[tactic(auto, using(crate::proofs::Drafting::drafting))]
pub(crate) fn drafted<'a>(
    tag: &[u8],
    shard: &'a [u8],
    file: FileNumber,
    a: u64,
    b: u64,
    room: usize,
) -> Result<Draft<'a>, Refusal>
    ensures { Drafts tag.now shard.now file.0 a b room result }
{
    let Some(segments) = seek(tag, shard, file)? else {
        return Err(Place::START.refusal(Refusal::NO_FILE));
    };
    let rows = Rows { segments, a, b };
    let measure = rows.measured();
    if b <= a || 0 < measure.past {
        return Err(Place::START.refusal(Refusal::RANGE));
    }
    if room < measure.rows {
        return Err(Place::START.refusal(Refusal::BUFFER));
    }
    Ok(Draft {
        count: measure.rows,
        rows,
    })
}
