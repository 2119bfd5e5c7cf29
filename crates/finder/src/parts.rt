// The 48 bytes at a position, as a part of the caller's buffer.
ghost use Rattle.finder.specs.Find.{PartOf};

use words::{Position, Words};

// An empty part where 48 bytes don't fit.
#[tactic(auto, unfolding(crate::specs::Find::part_at))]
pub fn record_at(shard: &[u8], at: Position) -> &[u8]
    ensures { PartOf shard.entry at.0 result }
{
    let start = at.0 as usize;
    let end = start.saturating_add(Words::SIZE);
    if end <= shard.len() {
        &shard[start..end]
    } else {
        &[]
    }
}
