// Finding a chunk: blocks and their chunks, in order, up to the first that has the hash.
ghost use Rattle.std.specs.Prelude.{◌≡◌};
ghost use Rattle.finder.specs.Find.{chunk_found};

use crate::ChunkPlace;
use rules::{BlockNumber, ChunkIndex};
use whole::last_place;
use words::hash::{is_ones, same_hash};
use words::{Position, Refusal, Stored, Words};

// The first chunk with that hash.
#[tactic(auto, using(crate::proofs::ChunkWalk::next_block, crate::proofs::ChunkWalk::block_over, crate::proofs::ChunkWalk::next_chunk, crate::proofs::Begin::chunk_refused, crate::proofs::Begin::chunks_from_lem))]
pub fn find_chunk(tag: &[u8], shard: &[u8], hash: [u64; 4]) -> Result<Option<ChunkPlace>, Refusal>
    ensures { result ≡ chunk_found tag.now shard.now hash }
{
    let place = last_place(tag, shard);
    place.verdict()?;
    let mut at = place.offset.0 as usize;
    let mut block = 0;
    loop {
        let head = Words::read(shard, at);
        if is_ones(head.hash) {
            return Ok(None);
        }
        at += Words::SIZE;
        for index in 0..head.b {
            if same_hash(<[u64; 4]>::read(shard, at), hash) {
                return Ok(Some(ChunkPlace {
                    block: BlockNumber(block),
                    index: ChunkIndex(index),
                    at: Position(at as u64),
                }));
            }
            at += Words::SIZE;
        }
        block += 1;
    }
}
