// The paper's numbers for what was found.
ghost use Rattle.std.specs.Prelude.{◌≡◌};
ghost use Rattle.finder.specs.Find.{chunk_numbers, file_numbers};

use crate::{ChunkPlace, FilePlace, FoundChunkNumbers, FoundFileNumbers};
use words::Refusal;

impl From<Result<Option<ChunkPlace>, Refusal>> for FoundChunkNumbers {
    ghost from_gives = { λ answer numbers. numbers ≡ chunk_numbers answer };

    fn from(answer: Result<Option<ChunkPlace>, Refusal>) -> FoundChunkNumbers {
        match answer {
            Ok(Some(place)) => FoundChunkNumbers {
                at: place.at.0,
                said: 1,
                number: 0,
                block: place.block.0,
                index: place.index.0,
            },
            Ok(None) => FoundChunkNumbers {
                at: 0,
                said: 0,
                number: 0,
                block: 0,
                index: 0,
            },
            Err(refusal) => FoundChunkNumbers {
                at: refusal.at.0,
                said: 2,
                number: refusal.number,
                block: 0,
                index: 0,
            },
        }
    }
}

impl From<Result<Option<FilePlace>, Refusal>> for FoundFileNumbers {
    ghost from_gives = { λ answer numbers. numbers ≡ file_numbers answer };

    fn from(answer: Result<Option<FilePlace>, Refusal>) -> FoundFileNumbers {
        match answer {
            Ok(Some(place)) => FoundFileNumbers {
                at: place.at.0,
                said: 1,
                number: 0,
                file: place.number.0,
            },
            Ok(None) => FoundFileNumbers {
                at: 0,
                said: 0,
                number: 0,
                file: 0,
            },
            Err(refusal) => FoundFileNumbers {
                at: refusal.at.0,
                said: 2,
                number: refusal.number,
                file: 0,
            },
        }
    }
}
