// Reading past a part of the input.
ghost use Rattle.std.specs.Prelude.{◌≡◌, ℕ, ◌<◌, ◌≤◌, List, length, IfOk};
ghost use Rattle.std.specs.Io.KnownBytes.{Consumes, IsAtEnd};

use std::io::Read;
use text::input::{ReadFailed, read_full};

// So many bytes are read past: as many as were asked for, or fewer where the input ends.
pub fn read_past<R: Read>(input: &mut R, n: u64) -> Result<u64, ReadFailed>
    ensures within { IfOk result (λ size. size ≤ n) }
    ensures bytes { IfOk result (λ size. (bs : List ℕ)
        × Consumes (R.remaining input.old) (R.remaining input.new) bs × (length bs ≡ size)) }
    ensures end { IfOk result (λ size. size < n → IsAtEnd (R.remaining input.new)) }
{
    let mut space = [0u8; 65536];
    let mut left = n;
    while left > 0 {
        let most = left.min(space.len() as u64) as usize;
        let size = read_full(input, &mut space[..most])?;
        if size == 0 {
            break;
        }
        left -= size as u64;
    }
    Ok(n - left)
}
