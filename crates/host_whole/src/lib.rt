// For a host that has whole shards in buffers: judging one, finding a chunk or a file in it, joining two, planning what to fetch of a file, and auditing one.
#![tactic(auto)]

ghost use Rattle.std.specs.Prelude.{◌≡◌, length};
ghost use Rattle.words.specs.Refusals.{wrote_numbers};
ghost use Rattle.layout.specs.Scan.{found_in};
ghost use Rattle.finder.specs.Find.{chunk_found, chunk_numbers, file_found, file_numbers};
ghost use Rattle.join.specs.Join.{join_of, buffer_of};
ghost use Rattle.plan.specs.Plan.{plan_of, answer_to, planned_numbers, table_to};
ghost use Rattle.audit.specs.Audit.{audit_of, audited_numbers};
ghost use Rattle.host.specs.Boundary.{verdict_out};

use audit::AuditedNumbers;
use finder::{FoundChunkNumbers, FoundFileNumbers};
use host::{HashState, VerdictState};
use plan::{PlannedNumbers, Row};
use rules::FileNumber;
use words::WroteNumbers;

// The verdict on a whole shard in a lent buffer.
#[unsafe(no_mangle)]
pub extern "C" fn mdb_judge(tag: &[u8], shard: &[u8]) -> VerdictState
    ensures { result ≡ verdict_out (found_in tag.now shard.now).verdict }
{
    VerdictState::from(reader::judge(tag, shard))
}

// The first chunk with that hash.
#[unsafe(no_mangle)]
pub extern "C" fn mdb_find_chunk(tag: &[u8], shard: &[u8], hash: HashState) -> FoundChunkNumbers
    ensures { result ≡ chunk_numbers (chunk_found tag.now shard.now hash.numbers) }
{
    finder::find_chunk(tag, shard, hash.numbers).into()
}

// The first file with that hash.
#[unsafe(no_mangle)]
pub extern "C" fn mdb_find_file(tag: &[u8], shard: &[u8], hash: HashState) -> FoundFileNumbers
    ensures { result ≡ file_numbers (file_found tag.now shard.now hash.numbers) }
{
    finder::find_file(tag, shard, hash.numbers).into()
}

// One shard of two, at the start of a lent buffer.
#[unsafe(no_mangle)]
pub extern "C" fn mdb_join(tag: &[u8], first: &[u8], second: &[u8], out: &mut [u8]) -> WroteNumbers
    ensures { (result ≡ wrote_numbers (join_of tag.now first.now second.now (length out.old))) × (out.new ≡ buffer_of tag.now first.now second.now out.old) }
{
    join::join(tag, first, second, out).into()
}

// The pieces to fetch for the bytes of a file from a up to but not including b, at the start of a lent table.
#[unsafe(no_mangle)]
pub extern "C" fn mdb_plan(
    tag: &[u8],
    shard: &[u8],
    file: u32,
    a: u64,
    b: u64,
    table: &mut [Row],
) -> PlannedNumbers
    ensures { (result ≡ planned_numbers (answer_to (plan_of tag.now shard.now file a b (length table.old))))
        × (table.new ≡ table_to (plan_of tag.now shard.now file a b (length table.old)) table.old) }
{
    plan::plan(tag, shard, FileNumber(file), a, b, table).into()
}

// The segments of a whole shard against the xorbs that it lists.
#[unsafe(no_mangle)]
pub extern "C" fn mdb_audit(tag: &[u8], shard: &[u8]) -> AuditedNumbers
    ensures { result ≡ audited_numbers (audit_of tag.now shard.now) }
{
    audit::audit(tag, shard).into()
}
