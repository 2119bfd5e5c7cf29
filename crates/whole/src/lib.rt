// Where reading begins, and where reading a whole shard in a lent buffer ends: record by record, straight from the buffer, with nothing carried. An inner
// crate, which the judge, finder, join, plan and audit stand on. One turn is said in specs/Turns.
#![tactic(auto)]

ghost use Rattle.std.specs.Prelude.{◌≡◌, ◌≤◌, eqb, length};
ghost use Rattle.words.specs.Checks.{pick};
ghost use Rattle.rules.specs.Verdicts.{refused};
ghost use Rattle.layout.specs.Reach.{last_place};
ghost use Rattle.whole.specs.Turns.{start_for, Break, turn_of};

use carry::hear;
use rules::Place;
use std::ops::ControlFlow;
use words::{Refusal, Tag};

// Where reading begins. A tag that is not 32 bytes is refused with 2.
pub fn start_for(tag: &[u8]) -> Place
    ensures { result ≡ start_for tag.now }
{
    match Tag::try_from(tag) {
        Ok(_) => Place::START,
        Err(_) => Place::START.refuse(Refusal::TAG_LENGTH),
    }
}

// The place where reading a whole shard ends: behind its last record, or where it is refused or breaks off.
pub fn last_place(tag: &[u8], shard: &[u8]) -> Place
    ensures { result ≡ last_place tag.now shard.now }
{
    let Ok(four) = Tag::try_from(tag) else {
        return Place::START.refuse(Refusal::TAG_LENGTH);
    };
    let mut place = Place::START;
    loop {
        match turn_at(four, shard, place) {
            ControlFlow::Continue(next) => place = next,
            ControlFlow::Break(last) => return last,
        }
    }
}

// The record due at a place of the buffer, read where it stands. At a refusal reading is over, so none is met here.
fn turn_at(four: Tag, shard: &[u8], place: Place) -> ControlFlow<Place, Place>
    requires { place.at.0 ≤ length shard.now }
    ensures { result ≡ turn_of four shard.now place }
{
    let size = place.due.size();
    let left = &shard[place.at.0 as usize..];
    if size == 0 {
        return end_at(place, left.len());
    }
    if left.len() < size {
        return ControlFlow::Break(place);
    }
    match hear(&[0; 200], 0, four, place, &left[..size]) {
        Ok(words) => ControlFlow::Continue(place.next(words)),
        Err(number) => ControlFlow::Break(place.refuse(number)),
    }
}

// Nothing is due: a byte after the end is refused.
fn end_at(place: Place, left: usize) -> ControlFlow<Place, Place>
    ensures { result ≡ Break (pick (eqb left 0) place (refused 14 place)) }
{
    ControlFlow::Break(if left == 0 {
        place
    } else {
        place.refuse(Refusal::AFTER_END)
    })
}
