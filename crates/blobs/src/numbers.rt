// The paper's numbers for what is answered about blob files.
ghost use Rattle.blobs.specs.Blobs.{entry_numbers, scanned_numbers};
ghost use Rattle.std.specs.Prelude.{◌≡◌};

use crate::{EntryNumbers, Parts, ScannedNumbers, Tally};
use words::Refusal;

impl From<Result<Parts, Refusal>> for EntryNumbers {
    ghost from_gives = { λ found numbers. numbers ≡ entry_numbers found };

    fn from(found: Result<Parts, Refusal>) -> EntryNumbers {
        match found {
            Ok(parts) => EntryNumbers {
                digits: parts.digits.0,
                data: parts.data.0,
                length: parts.length,
                next: parts.next.0,
                at: 0,
                number: 0,
            },
            Err(refusal) => EntryNumbers {
                digits: 0,
                data: 0,
                length: 0,
                next: 0,
                at: refusal.at.0,
                number: refusal.number,
            },
        }
    }
}

impl From<Result<Tally, Refusal>> for ScannedNumbers {
    ghost from_gives = { λ scanned numbers. numbers ≡ scanned_numbers scanned };

    fn from(scanned: Result<Tally, Refusal>) -> ScannedNumbers {
        match scanned {
            Ok(tally) => ScannedNumbers {
                entries: tally.entries,
                bytes: tally.bytes,
                at: 0,
                number: 0,
            },
            Err(refusal) => ScannedNumbers {
                entries: 0,
                bytes: 0,
                at: refusal.at.0,
                number: refusal.number,
            },
        }
    }
}
