// For a host that reads a shard piece by piece, with one reader that it keeps and lends by its address: a fresh reader, a whole piece into a table of rows, and the
// verdict.
#![tactic(auto)]

ghost use Rattle.std.specs.Prelude.{◌≡◌};
ghost use Rattle.reader.specs.Stream.{fresh};
ghost use Rattle.host.specs.Boundary.{reader_out};
ghost use Rattle.host.specs.Calls.{read_by, verdict_for};

use host::{ReadState, ReaderState, VerdictState};

// A fresh reader.
#[unsafe(no_mangle)]
pub extern "C" fn mdb_reader_new(tag: &[u8]) -> ReaderState
    ensures { result ≡ reader_out (fresh tag.now) }
{
    ReaderState::new(tag)
}

// A whole piece: calls of the reader until it is used up or refused or the table is full. Each record found fills a row of nine numbers.
#[unsafe(no_mangle)]
pub extern "C" fn mdb_reader_read(
    reader: &mut ReaderState,
    piece: &[u8],
    table: &mut [u64],
) -> ReadState
    ensures { (result ≡ (read_by reader.old piece.now table.old).answer) × (reader.new ≡ (read_by reader.old piece.now table.old).reader) × (table.new ≡ (read_by reader.old piece.now table.old).table) }
{
    reader.read(piece, table)
}

// The reader's verdict so far.
#[unsafe(no_mangle)]
pub extern "C" fn mdb_reader_verdict(reader: &ReaderState) -> VerdictState
    ensures { result ≡ verdict_for reader.now.stand }
{
    reader.stand.verdict()
}
