// For a host that writes a shard record by record, with one writer that it keeps and lends by its address: a fresh writer, one record into a buffer, the verdict, and
// the offer that writes a record which was read.
#![tactic(auto)]

ghost use Rattle.std.specs.Prelude.{◌≡◌};
ghost use Rattle.writer.specs.Write.{fresh};
ghost use Rattle.host.specs.Boundary.{writer_out, offer_for};
ghost use Rattle.host.specs.Calls.{put_by, verdict_for};

use host::{OfferState, RecordState, VerdictState, WriterState};
use words::WroteNumbers;

// A fresh writer.
#[unsafe(no_mangle)]
pub extern "C" fn mdb_writer_new(tag: &[u8]) -> WriterState
    ensures { result ≡ record { stand = writer_out (fresh tag.now) } }
{
    WriterState::new(tag)
}

// One record into the buffer, at its start.
#[unsafe(no_mangle)]
pub extern "C" fn mdb_writer_put(
    writer: &mut WriterState,
    offer: OfferState,
    buf: &mut [u8],
) -> WroteNumbers
    ensures { (result ≡ (put_by writer.old offer buf.old).answer) × (writer.new ≡ (put_by writer.old offer buf.old).writer) × (buf.new ≡ (put_by writer.old offer buf.old).buffer) }
{
    writer.put(offer, buf)
}

// The writer's verdict so far.
#[unsafe(no_mangle)]
pub extern "C" fn mdb_writer_verdict(writer: &WriterState) -> VerdictState
    ensures { result ≡ verdict_for writer.now.stand }
{
    writer.stand.verdict()
}

// The offer that writes a record which was read.
#[unsafe(no_mangle)]
pub extern "C" fn mdb_offer_of(found: RecordState) -> OfferState
    ensures { result ≡ offer_for found }
{
    OfferState::from(found)
}
