// A piece, offered to a reader until it is used up or refused.
ghost use Rattle.std.specs.Prelude.{◌≡◌};
ghost use Rattle.words.specs.Le.{Bytes};
ghost use Rattle.reader.specs.Readings.{Begun, fed_one};

use reader::Reader;

// The reader after a piece, offered until it is used up or refused.
pub fn fed(reader: Reader, piece: &[u8]) -> Reader
    ensures bytes { Bytes piece.now }
    ensures all { Begun reader → result ≡ (fed_one reader piece.now).reader }
{
    let mut reader = reader;
    let mut rest = piece;
    while !rest.is_empty() {
        let step = reader.step(rest);
        reader = step.reader;
        if step.answer.taken == 0 {
            return reader;
        }
        rest = &rest[step.answer.taken..];
    }
    reader
}
