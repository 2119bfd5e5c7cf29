// For a host that reads a shard record by record, with one reader that it keeps and lends by its address: one call of the reader.
#![tactic(auto)]

ghost use Rattle.std.specs.Prelude.{◌≡◌};
ghost use Rattle.host.specs.Calls.{step_by};

use host::{ReaderState, StepState};

// One call of the reader.
#[unsafe(no_mangle)]
pub extern "C" fn mdb_reader_step(reader: &mut ReaderState, piece: &[u8]) -> StepState
    ensures { (result ≡ (step_by reader.old piece.now).answer) × (reader.new ≡ (step_by reader.old piece.now).reader) }
{
    reader.step(piece)
}
