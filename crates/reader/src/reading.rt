// A whole piece at once: each record found fills a row of a lent table. A record is read where it stands, and the carry is looked at only where the record
// began in an earlier piece. The carry is cleared once, before the call ends, and not for each record.
ghost use Rattle.std.specs.Prelude.{◌≡◌, List, ℕ, ◌+◌, ◌<◌};
ghost use Rattle.reader.specs.Stream.{lent, said_at};
ghost use Rattle.reader.specs.Rows.{read_of, read_for};
ghost use Rattle.reader.specs.declared.Ended.TheVariants.{TableFull};
ghost use Rattle.reader.specs.Looks.{SameFor, carry_after, ended_with, Foretells};

use crate::rows::{ROW, put_row};
use crate::{Call, Ended, Read, Stand};
use carry::hear;
use words::{Refusal, Words};

// A good record that is there: its words, and the bytes that it takes of the piece.
#[derive(Clone, Copy)]
struct Whole {
    words: Words,
    lacks: usize,
}

// What is answered after a last call, which handed out no record.
fn ended(call: Call, taken: usize, count: usize) -> Read
    requires { taken + call.answer.taken < 18446744073709551616 }
    ensures { result ≡ record { stand = call.stand; taken = taken + call.answer.taken; count = count; ended = ended_with call.answer.found } }
{
    Read {
        stand: call.stand,
        taken: taken + call.answer.taken,
        count,
        ended: call.answer.found.map(|_| Ended::PieceUsed),
    }
}

// After a record that filled a row the carry is zero.
fn clear(carry: &mut [u8; 200], count: usize)
    ensures { carry.new ≡ carry_after count carry.old }
{
    if 0 < count {
        *carry = [0; 200];
    }
}

impl Stand {
    // Calls one after the other, until the piece is used up or refused or the table is full: while a good record is there and a row is left for it, it fills the row.
    pub fn read(mut self, carry: &mut [u8; 200], piece: &[u8], table: &mut [u64]) -> Read
        ensures { (result ≡ read_of (read_for (lent self carry.old) piece.now table.old).answer) × (carry.new ≡ (read_for (lent self carry.old) piece.now table.old).answer.reader.carry) × (table.new ≡ (read_for (lent self carry.old) piece.now table.old).table) }
    {
        let rows = table.len() / ROW;
        let mut taken = 0;
        for count in 0..rows {
            let rest = &piece[taken..];
            let whole = match self.look(carry, rest) {
                Ok(Some(whole)) => whole,
                Ok(None) => {
                    clear(carry, count);
                    return ended(self.halt(carry, rest), taken, count);
                }
                Err(number) => {
                    *carry = [0; 200];
                    return ended(self.failed(number, self.lacks()), taken, count);
                }
            };
            put_row(table, count, self.place.record(whole.words));
            self.place = self.place.next(whole.words);
            self.have = 0;
            taken += whole.lacks;
        }
        clear(carry, rows);
        Read {
            stand: self,
            taken,
            count: rows,
            ended: self.table_full(),
        }
    }

    // A look at the record due: it changes nothing, and tells the next call. There is a good record, or none that is whole, or a faulty one, by its number.
    fn look(self, carry: &[u8; 200], rest: &[u8]) -> Result<Option<Whole>, u32>
        ensures { (other : List ℕ) → SameFor self.have carry.now other → Foretells (lent self other) rest.now result }
    {
        if self.halts(rest.len()) {
            return Ok(None);
        }
        let words = hear(
            carry,
            self.have,
            self.tag,
            self.place,
            &rest[..self.lacks()],
        )?;
        Ok(Some(Whole {
            words,
            lacks: self.lacks(),
        }))
    }

    // Why no more is read where no row is left: the table is full, unless there was a refusal.
    fn table_full(self) -> Result<Ended, Refusal>
        ensures { result ≡ said_at TableFull self.place }
    {
        if self.place.due.size() == 0 {
            self.place.verdict()?;
        }
        Ok(Ended::TableFull)
    }
}
