// Where reading and writing begin, where they stop, and what is said there.
ghost use Rattle.std.specs.Prelude.{◌≡◌};
ghost use Rattle.rules.specs.Verdicts.{refused, refusal_at, summary_of, verdict_at};

use crate::{Due, Place, Summary, Totals, Verdict};
use words::{Position, Refusal};

impl Place {
    // Where reading and writing begin.
    pub const START: Place = Place {
        at: Position(0),
        offset: Position(0),
        totals: Totals::NONE,
        flags: 0,
        entries: 0,
        footer: false,
        due: Due::Header,
    };

    pub fn refuse(self, number: u32) -> Place
        ensures { result ≡ refused number self }
    {
        self.moved_to(self.at.0, self.totals, Due::Refused(number))
    }

    // A refusal at the record due.
    pub fn refusal(self, number: u32) -> Refusal
        ensures { result ≡ refusal_at number self }
    {
        Refusal {
            at: self.at,
            number,
        }
    }

    // The refusal if there was one, done after the end, else 1 at the record due.
    #[tactic(auto, unfolding(crate::specs::Verdicts::verdict_at))]
    pub fn verdict(self) -> Verdict
        ensures { result ≡ verdict_at self }
    {
        match self.due {
            Due::End => Ok(self.summary()),
            Due::Refused(number) => Err(self.refusal(number)),
            _ => Err(self.refusal(Refusal::ENDS_EARLY)),
        }
    }

    fn summary(self) -> Summary
        ensures { result ≡ summary_of self }
    {
        Summary {
            length: self.at.0,
            totals: self.totals,
            footer: self.footer,
        }
    }
}
