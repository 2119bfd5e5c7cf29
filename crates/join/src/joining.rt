// The two shards are judged where they stand, and the joined one is written once no check has failed.
ghost use Rattle.std.specs.Prelude.{◌≡◌, ◌+◌, ◌≤◌, length};
ghost use Rattle.words.specs.Le.{puts};
ghost use Rattle.rules.specs.Verdicts.{summary_of};
ghost use Rattle.join.specs.Join.{joined_at, answer_for, join_of, buffer_of};

use crate::accepted::Accepted;
use rules::{Place, same_31};
use words::Refusal;
use words::part::put_part;

// A header and two bookends, which the joined shard has once.
const SMALLEST: usize = 144;

// One shard of two, which are under the same tag.
pub fn join(tag: &[u8], first: &[u8], second: &[u8], out: &mut [u8]) -> Result<usize, Refusal>
    ensures { (result ≡ join_of tag.now first.now second.now (length out.old)) × (out.new ≡ buffer_of tag.now first.now second.now out.old) }
{
    let one = Accepted::read(tag, first)?;
    let two = Accepted::read(tag, second)?;
    let size = joined_size(&one, &two, out.len())?;
    put_joined(out, &one, &two);
    Ok(size)
}

// How many bytes the two come to, or the refusal by the first check that fails.
#[tactic(auto, unfolding(crate::specs::Join::answer_for, crate::specs::Join::join_fault))]
fn joined_size(one: &Accepted, two: &Accepted, room: usize) -> Result<usize, Refusal>
    ensures { result ≡ answer_for (summary_of one.now.last) (summary_of two.now.last) one.now.bytes.now two.now.bytes.now room }
{
    let size = one.bytes.len() + two.bytes.len() - SMALLEST;
    let files = one.last.totals.files;
    let more_files = two.last.totals.files;
    let agree = (files == 0) | (more_files == 0) | same_31(one.first_flags(), two.first_flags());
    if one.last.footer | two.last.footer {
        return Err(Place::START.refusal(Refusal::FOOTER));
    }
    if !agree {
        return Err(Place::START.refusal(Refusal::BIT_31));
    }
    if Place::LIMIT < size as u64 {
        return Err(Place::START.refusal(Refusal::LIMIT));
    }
    if room < size {
        return Err(Place::START.refusal(Refusal::BUFFER));
    }
    Ok(size)
}

// The joined shard, at the start of a buffer.
#[tactic(auto, using(crate::proofs::Copies::four_copies))]
fn put_joined(out: &mut [u8], one: &Accepted, two: &Accepted)
    requires { length one.now.bytes.now + length two.now.bytes.now ≤ length out.old + 144 }
    ensures { out.new ≡ puts out.old 0 (joined_at one.now.bytes.now one.now.last.offset.0 two.now.bytes.now two.now.last.offset.0) }
{
    let files = one.header_and_files();
    let more_files = two.files_and_bookend();
    let xorbs = one.xorbs();
    let mut at = 0;
    put_part(out, at, files);
    at += files.len();
    put_part(out, at, more_files);
    at += more_files.len();
    put_part(out, at, xorbs);
    at += xorbs.len();
    put_part(out, at, two.xorbs_and_bookend());
}
