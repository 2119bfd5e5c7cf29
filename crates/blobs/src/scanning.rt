// A whole buffer: its entries counted, their data lengths summed.
ghost use Rattle.std.specs.Prelude.{◌≡◌};
ghost use Rattle.blobs.specs.Blobs.{scan_of};

use crate::reading::whole_of;
use crate::{Tally, head};
use words::{Position, Refusal};

pub fn scan(buf: &[u8]) -> Result<Tally, Refusal>
    ensures { result ≡ scan_of buf.now }
{
    let mut tally = Tally::default();
    let mut rest = buf;
    while !rest.is_empty() {
        let length = whole_of(rest).map_err(|number| Refusal {
            at: Position((buf.len() - rest.len()) as u64),
            number,
        })?;
        tally.entries += 1;
        tally.bytes += length;
        rest = &rest[head::SIZE + length as usize..];
    }
    Ok(tally)
}
