// One entry, at the start of a lent buffer.
ghost use Rattle.std.specs.Prelude.{◌≡◌, ◌+◌, ◌≤◌, length};
ghost use Rattle.words.specs.Checks.{if_fine};
ghost use Rattle.words.specs.Le.{puts};
ghost use Rattle.blobs.specs.Blobs.{blob, spell_entry, put_fault, put_of, buffer_of};

use crate::digits::are_digits;
use crate::head;
use words::number::put_zeros;
use words::part::put_part;
use words::{Position, Refusal, Stored};

// The first check that fails is the error.
#[tactic(auto, unfolding(crate::specs::Blobs::put_fault))]
fn check(digits: &[u8], data: &[u8], room: usize) -> Result<(), u32>
    ensures { result ≡ if_fine (put_fault (blob digits.now «data».now) room) tt }
{
    if digits.len() != 64 || !are_digits(digits) {
        return Err(Refusal::BLOB_HEX);
    }
    if room < head::SIZE || room - head::SIZE < data.len() {
        return Err(Refusal::BUFFER);
    }
    Ok(())
}

// The 110 bytes and the data behind them.
fn put(out: &mut [u8], digits: &[u8], data: &[u8])
    requires { (length digits.now ≡ 64) × (110 + length «data».now ≤ length out.old) }
    ensures { out.new ≡ puts out.old 0 (spell_entry (blob digits.now «data».now)) }
{
    head::MAGIC.write(out, 0);
    head::VERSION.write(out, 4);
    (data.len() as u64).write(out, 6);
    out[head::DIGITS..head::RESERVED].copy_from_slice(digits);
    put_zeros(out, head::RESERVED, 32);
    put_part(out, head::SIZE, data);
}

// An entry of a hash of these digits and of these data. Refused, it changes no byte.
#[tactic(auto, using(crate::proofs::Written::allowed), unfolding(crate::specs::Blobs::put_of, crate::specs::Blobs::buffer_of))]
pub fn put_entry(digits: &[u8], data: &[u8], out: &mut [u8]) -> Result<usize, Refusal>
    ensures { (result ≡ put_of (blob digits.now «data».now) (length out.old))
        × (out.new ≡ buffer_of (blob digits.now «data».now) out.old) }
{
    check(digits, data, out.len()).map_err(|number| Refusal {
        at: Position(0),
        number,
    })?;
    put(out, digits, data);
    Ok(head::SIZE + data.len())
}
