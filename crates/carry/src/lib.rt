// The bytes of the record due, those in the carry and those behind them: the carry filled, and what the whole record says. Inner functions, which ask what
// the reader and `whole` prove of each call. What they take one by one is together in `Stand`, which is the reader's, as its methods are.
#![tactic(auto)]

ghost use Rattle.std.specs.Prelude.{◌≡◌, ◌-◌, ◌≤◌, ◌<◌, length};
ghost use Rattle.std.proofs.Math.Seq.{paste};
ghost use Rattle.words.specs.Checks.{if_fine};
ghost use Rattle.words.specs.Record.{words_at};
ghost use Rattle.rules.specs.Rules.{size_of, words_in, fault_in};

use rules::Place;
use words::{Footer, Stored, Tag, Words};

// The carry with the bytes of a part behind what it has.
pub fn filled(mut carry: [u8; 200], have: usize, part: &[u8]) -> [u8; 200]
    requires { length part.now ≤ 200 - have }
    ensures { result ≡ paste carry have part.now (length part.now) }
{
    if !part.is_empty() {
        carry[have..have + part.len()].copy_from_slice(part);
    }
    carry
}

// What the bytes in the carry and those that it lacks say of the record due: its numbers if it is good, else the number of its refusal.
pub fn hear(
    carry: &[u8; 200],
    have: usize,
    tag: Tag,
    place: Place,
    rest: &[u8],
) -> Result<Words, u32>
    requires { (length rest.now ≡ size_of place - have) × (0 < size_of place) }
    ensures { result ≡ if_fine (fault_in tag place (paste carry.now have rest.now (length rest.now))) (words_in place (paste carry.now have rest.now (length rest.now))) }
{
    if place.due.footer_due() {
        let footer = Footer::read(&filled(*carry, have, rest), 0);
        place.check_footer(footer)?;
        return Ok(footer.words);
    }
    let words = words_of(carry, have, rest);
    place.check(tag, words)?;
    Ok(words)
}

// The numbers of a record of 48 bytes, straight from the part behind the carry where nothing is carried.
#[tactic(auto, using(crate::proofs::Carry::words_pasted))]
fn words_of(carry: &[u8; 200], have: usize, rest: &[u8]) -> Words
    requires { length rest.now ≡ 48 - have }
    ensures { result ≡ words_at (paste carry.now have rest.now (length rest.now)) 0 }
{
    if have == 0 {
        Words::read(rest, 0)
    } else {
        Words::read(&filled(*carry, have, rest), 0)
    }
}
