// What a record is, and the place after it: its bytes, what it counts, what it leaves to remember, and what is due then.
ghost use Rattle.std.specs.Prelude.{◌≡◌, ◌+◌, ◌-◌, ◌==◌};
ghost use Rattle.words.specs.Record.{is_ones};
ghost use Rattle.words.specs.Checks.{pick};
ghost use Rattle.rules.specs.Rules.{size_by, footer_due, kind_of, record_of, next_of, many, after_segments, after_verifications, chunks_from, due_by, counts, plus, count_by, known_by, with_footer, with_offset, with_file};
ghost use Rattle.rules.specs.Held.{in64, held, held_totals, held_due};
ghost use Rattle.rules.specs.declared.Kind.TheVariants as kind;
ghost use Rattle.rules.specs.declared.Due.TheVariants as due;

use crate::checks::has_bit;
use crate::{Due, Kind, Place, Record, Totals};
use words::hash::is_ones;
use words::number::joined;
use words::{Footer, Position, Words};

// A sum as 64 bits hold it.
fn plus64(x: u64, y: u64) -> u64
    ensures { result ≡ in64 (x + y) }
{
    x.wrapping_add(y)
}

fn less_one(n: u32) -> u32
    ensures { result ≡ n - 1 }
{
    n.saturating_sub(1)
}

// So many records of one kind, or what comes after them where there are none.
fn many(n: u32, one: Due, after: Due) -> Due
    ensures { result ≡ pick (n == 0) after one }
{
    if n == 0 { after } else { one }
}

// What is due: after the verifications, after the segments, in a file, in a xorb, after the second bookend.
fn last_due(flags: u32) -> Due
    ensures { result ≡ held_due (after_verifications flags) }
{
    if has_bit::<30>(flags) {
        Due::Metadata
    } else {
        Due::FileHead
    }
}

fn verifications_due(n: u32, flags: u32) -> Due
    ensures { result ≡ held_due (many n due.Verification (after_verifications flags)) }
{
    many(n, Due::Verification(n), last_due(flags))
}

fn parts_due(flags: u32, n: u32) -> Due
    ensures { result ≡ held_due (after_segments flags n) }
{
    if has_bit::<31>(flags) {
        verifications_due(n, flags)
    } else {
        last_due(flags)
    }
}

fn segments_due(n: u32, flags: u32, entries: u32) -> Due
    ensures { result ≡ held_due (many n due.Segment (after_segments flags entries)) }
{
    many(n, Due::Segment(n), parts_due(flags, entries))
}

fn chunks_due(n: u32, sum: u64, bytes: u32, total: u64) -> Due
    ensures { result ≡ held_due (chunks_from n (sum + bytes) total) }
{
    let s = plus64(sum, bytes as u64);
    many(n, Due::Chunk(n, s, total), Due::XorbHead)
}

fn end_due(footer: bool) -> Due
    ensures { result ≡ held_due (pick footer due.Footer due.End) }
{
    if footer { Due::Footer } else { Due::End }
}

fn after_file_head(w: Words) -> Due
    ensures { result ≡ held_due (pick (is_ones w.hash) due.XorbHead (many w.b due.Segment (after_segments w.a w.b))) }
{
    if is_ones(w.hash) {
        Due::XorbHead
    } else {
        segments_due(w.b, w.a, w.b)
    }
}

fn after_xorb_head(footer: bool, w: Words) -> Due
    ensures { result ≡ held_due (pick (is_ones w.hash) (pick footer due.Footer due.End) (chunks_from w.b 0 w.c)) }
{
    if is_ones(w.hash) {
        end_due(footer)
    } else {
        chunks_due(w.b, 0, 0, w.c as u64)
    }
}

// What a record counts.
fn count_of(kind: Kind, w: Words) -> Totals
    ensures { result ≡ count_by kind w }
{
    match kind {
        Kind::FileHead => Totals {
            files: 1,
            ..Totals::NONE
        },
        Kind::Segment => Totals {
            segments: 1,
            bytes: w.b as u64,
            ..Totals::NONE
        },
        Kind::XorbHead => Totals {
            xorbs: 1,
            ..Totals::NONE
        },
        Kind::Chunk => Totals {
            chunks: 1,
            ..Totals::NONE
        },
        _ => Totals::NONE,
    }
}

impl Totals {
    fn with(self, more: Totals) -> Totals
        ensures { result ≡ held_totals (plus self more) }
    {
        Totals {
            files: plus64(self.files, more.files),
            segments: plus64(self.segments, more.segments),
            xorbs: plus64(self.xorbs, more.xorbs),
            chunks: plus64(self.chunks, more.chunks),
            bytes: plus64(self.bytes, more.bytes),
        }
    }
}

impl Due {
    // The bytes of the record due.
    pub fn size(self) -> usize
        ensures { result ≡ size_by self }
    {
        match self {
            Due::Footer => Footer::SIZE,
            Due::End | Due::Refused(_) => 0,
            _ => Words::SIZE,
        }
    }

    // Whether the footer is due.
    pub fn footer_due(self) -> bool
        ensures { result ≡ footer_due self }
    {
        matches!(self, Due::Footer)
    }
}

impl Place {
    // What a record is.
    #[tactic(auto, unfolding(crate::specs::Rules::kind_of))]
    pub fn kind(self, w: Words) -> Kind
        ensures { result ≡ kind_of self w }
    {
        match self.due {
            Due::Header => Kind::Header,
            Due::FileHead if is_ones(w.hash) => Kind::Bookend,
            Due::FileHead => Kind::FileHead,
            Due::Segment(_) => Kind::Segment,
            Due::Verification(_) => Kind::Verification,
            Due::Metadata => Kind::Metadata,
            Due::XorbHead if is_ones(w.hash) => Kind::Bookend,
            Due::XorbHead => Kind::XorbHead,
            Due::Chunk(_, _, _) => Kind::Chunk,
            Due::Footer | Due::End | Due::Refused(_) => Kind::Footer,
        }
    }

    // The xorb offset where a footer is due, else 0.
    fn shown_offset(self) -> Position
        ensures { result ≡ pick (footer_due self.due) self.offset (record { 0 = 0 }) }
    {
        if self.due.footer_due() {
            self.offset
        } else {
            Position(0)
        }
    }

    // A record as it is handed out.
    #[tactic(auto, unfolding(crate::specs::Rules::record_of))]
    pub fn record(self, w: Words) -> Record
        ensures { result ≡ record_of self w }
    {
        Record {
            at: self.at,
            offset: self.shown_offset(),
            words: w,
            kind: self.kind(w),
        }
    }

    fn due_after(self, w: Words) -> Due
        ensures { result ≡ held_due (due_by self.due self w) }
    {
        match self.due {
            Due::Header | Due::Metadata => Due::FileHead,
            Due::FileHead => after_file_head(w),
            Due::Segment(left) => segments_due(less_one(left), self.flags, self.entries),
            Due::Verification(left) => verifications_due(less_one(left), self.flags),
            Due::XorbHead => after_xorb_head(self.footer, w),
            Due::Chunk(left, sum, total) => chunks_due(less_one(left), sum, w.b, total),
            Due::Footer | Due::End => Due::End,
            Due::Refused(number) => Due::Refused(number),
        }
    }

    // The place with what a record leaves to remember; the byte after that record is at `after`.
    fn known(self, after: u64, w: Words) -> Place
        ensures { result ≡ known_by self.due after self w }
    {
        match self.due {
            Due::Header => Place {
                footer: joined(w.c, w.d) == 200,
                ..self
            },
            Due::FileHead if is_ones(w.hash) => Place {
                offset: Position(after),
                ..self
            },
            Due::FileHead => Place {
                flags: w.a,
                entries: w.b,
                ..self
            },
            _ => self,
        }
    }

    // The place after a good record.
    pub fn next(self, w: Words) -> Place
        ensures { result ≡ held (next_of self w) }
    {
        let after = plus64(self.at.0, self.due.size() as u64);
        let counted = self.totals.with(count_of(self.kind(w), w));
        let then = self.due_after(w);
        self.known(after, w).moved_to(after, counted, then)
    }
}
