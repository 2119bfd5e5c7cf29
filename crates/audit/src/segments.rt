// Every segment of every file, in order, up to the first false one.
ghost use Rattle.std.specs.Prelude.{◌≡◌};
ghost use Rattle.audit.specs.Audit.{audit_of};

use crate::Counts;
use crate::blocks::compare;
use rules::further_records;
use whole::last_place;
use words::hash::is_ones;
use words::{Position, Refusal, Stored, Words};

// The two counts; or 22 where the first false segment starts; or the shard's refusal.
pub fn audit(tag: &[u8], shard: &[u8]) -> Result<Counts, Refusal>
    ensures { result ≡ audit_of tag.now shard.now }
{
    let place = last_place(tag, shard);
    place.verdict()?;
    let xorbs = place.offset.0 as usize;
    let mut counts = Counts {
        listed: 0,
        unlisted: 0,
    };
    let mut file = Words::SIZE;
    loop {
        let head = Words::read(shard, file);
        if is_ones(head.hash) {
            return Ok(counts);
        }
        for i in 0..head.b {
            let at = file + Words::SIZE * (1 + i as usize);
            match compare(shard, xorbs, Words::read(shard, at)) {
                None => counts.unlisted += 1,
                Some(true) => counts.listed += 1,
                Some(false) => {
                    return Err(Refusal {
                        at: Position(at as u64),
                        number: Refusal::FALSE_SEGMENT,
                    });
                }
            }
        }
        file += Words::SIZE * (1 + further_records(head.a, head.b) as usize);
    }
}
