// One entry, at any position.
ghost use Rattle.std.specs.Prelude.{◌≡◌, ◌+◌, ◌≤◌, length, IfOk};
ghost use Rattle.blobs.specs.Blobs.{head_of, whole_of, entry_at};

use crate::digits::are_digits;
use crate::{Parts, head};
use words::number::zeros_at;
use words::{Position, Refusal, Stored};

// What the head at the start of some bytes says: so many bytes of data follow; or the number of the first check that it fails. Of more than
// 110 bytes only the first 110 are looked at.
#[tactic(auto, unfolding(crate::specs::Blobs::head_of, words::specs::Le::le_num))]
pub fn head_of(left: &[u8]) -> Result<u64, u32>
    ensures { result ≡ head_of left.now }
{
    if left.len() < head::SIZE {
        return Err(Refusal::BLOB_ENDS_EARLY);
    }
    if u32::read(left, 0) != head::MAGIC {
        return Err(Refusal::BLOB_MAGIC);
    }
    if u16::read(left, 4) != head::VERSION {
        return Err(Refusal::BLOB_VERSION);
    }
    if !are_digits(&left[head::DIGITS..head::RESERVED]) {
        return Err(Refusal::BLOB_HEX);
    }
    if !zeros_at(left, head::RESERVED, 32) {
        return Err(Refusal::BLOB_RESERVED);
    }
    Ok(u64::read(left, 6))
}

// The same, and the data are there too: the length is compared with what is left behind the head, which can't wrap.
#[tactic(auto, using(crate::proofs::Heads::head_fits), unfolding(crate::specs::Blobs::whole_of))]
pub(crate) fn whole_of(left: &[u8]) -> Result<u64, u32>
    ensures said { result ≡ whole_of left.now }
    ensures within { IfOk result (λ size. 110 + size ≤ length left.now) }
{
    let length = head_of(left)?;
    let behind = left.len() - head::SIZE;
    if (behind as u64) < length {
        return Err(Refusal::BLOB_DATA);
    }
    Ok(length)
}

// The entry at a position.
#[tactic(auto, unfolding(crate::specs::Blobs::entry_at))]
pub fn entry_at(buf: &[u8], at: Position) -> Result<Parts, Refusal>
    ensures { result ≡ entry_at buf.now at.0 }
{
    let left = buf.get(at.0 as usize..).unwrap_or(&[]);
    let length = whole_of(left).map_err(|number| Refusal { at, number })?;
    let data = at.0 + head::SIZE as u64;
    Ok(Parts {
        digits: Position(at.0 + head::DIGITS as u64),
        data: Position(data),
        length,
        next: Position(data + length),
    })
}
