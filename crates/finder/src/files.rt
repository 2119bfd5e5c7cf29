// Finding a file: file heads, in order, up to the first that has the hash; a head says how many records it has behind it.
ghost use Rattle.std.specs.Prelude.{◌≡◌};
ghost use Rattle.finder.specs.Find.{file_found};

use crate::FilePlace;
use rules::{FileNumber, further_records};
use whole::last_place;
use words::hash::{is_ones, same_hash};
use words::{Position, Refusal, Stored, Words};

// The first file with that hash.
#[tactic(auto, using(crate::proofs::FileWalk::next_file, crate::proofs::Begin::file_refused, crate::proofs::Begin::files_from))]
pub fn find_file(tag: &[u8], shard: &[u8], hash: [u64; 4]) -> Result<Option<FilePlace>, Refusal>
    ensures { result ≡ file_found tag.now shard.now hash }
{
    last_place(tag, shard).verdict()?;
    let mut at = Words::SIZE;
    let mut number = 0;
    loop {
        let head = Words::read(shard, at);
        if is_ones(head.hash) {
            return Ok(None);
        }
        if same_hash(head.hash, hash) {
            return Ok(Some(FilePlace {
                number: FileNumber(number),
                at: Position(at as u64),
            }));
        }
        at += Words::SIZE * (1 + further_records(head.a, head.b) as usize);
        number += 1;
    }
}
