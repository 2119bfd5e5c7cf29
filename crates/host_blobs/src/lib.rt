// For a host that has blob files, or parts of them, in buffers: reading an entry, writing one, and counting all.
#![tactic(auto)]

ghost use Rattle.std.specs.Prelude.{◌≡◌, length};
ghost use Rattle.words.specs.Refusals.{wrote_numbers};
ghost use Rattle.blobs.specs.Blobs.{blob, entry_at, entry_numbers, put_of, buffer_of, scan_of, scanned_numbers};

use blobs::{EntryNumbers, ScannedNumbers};
use words::{Position, WroteNumbers};

// The entry at a position of a lent buffer.
#[unsafe(no_mangle)]
pub extern "C" fn mdb_blob_entry_at(buf: &[u8], at: u64) -> EntryNumbers
    ensures { result ≡ entry_numbers (entry_at buf.now at) }
{
    blobs::entry_at(buf, Position(at)).into()
}

// An entry of a hash of these digits and of these data, at the start of a lent buffer.
#[unsafe(no_mangle)]
pub extern "C" fn mdb_blob_put_entry(digits: &[u8], data: &[u8], out: &mut [u8]) -> WroteNumbers
    ensures { (result ≡ wrote_numbers (put_of (blob digits.now «data».now) (length out.old)))
        × (out.new ≡ buffer_of (blob digits.now «data».now) out.old) }
{
    blobs::put_entry(digits, data, out).into()
}

// All entries of a lent buffer, counted.
#[unsafe(no_mangle)]
pub extern "C" fn mdb_blob_scan(buf: &[u8]) -> ScannedNumbers
    ensures { result ≡ scanned_numbers (scan_of buf.now) }
{
    blobs::scan(buf).into()
}
