// The checks of each record, in the paper's order: the first that fails gives its number.
// Nothing here wraps: a sum is formed only once its parts are known to be small, and else a difference is compared.
ghost use Rattle.std.specs.Prelude.{◌≡◌, ◌+◌, ◌/◌, ◌%◌, ◌^◌, ◌<◌, ◌≤◌, ◌&&◌, ◌||◌, ◌==◌, nat_le, nat_lt, Ok, Err};
ghost use Rattle.words.specs.Checks.{pick, if_fine};
ghost use Rattle.rules.specs.Rules.{same31, fits, further_records, header_fault, bookend_fault, file_head_fault, segment_fault, plain_fault, xorb_head_fault, chunk_fault, footer_fault, fault_of};

use crate::{Due, Place};
use words::hash::{is_ones, same_hash};
use words::number::joined;
use words::{Footer, Refusal, Tag, Words};

// The number of a refusal, unless this holds.
fn unless(holds: bool, number: u32) -> Result<(), u32>
    ensures { result ≡ pick holds (Ok tt) (Err number) }
{
    if holds { Ok(()) } else { Err(number) }
}

// Whether this bit of some flags is set.
pub(crate) fn has_bit<const N: u32>(flags: u32) -> bool
    requires { N < 32 }
    ensures { result ≡ (flags / 2 ^ N % 2 == 1) }
{
    (flags >> N) & 1 == 1
}

// Two flags agree about bit 31.
pub fn same_31(f: u32, g: u32) -> bool
    ensures { result ≡ same31 f g }
{
    has_bit::<31>(f) == has_bit::<31>(g)
}

fn either(t: bool, x: u64) -> u64
    ensures { (result ≡ pick t x 0) × (result ≤ x) }
{
    if t { x } else { 0 }
}

// How many records a file head declares behind itself.
pub fn further_records(flags: u32, n: u32) -> u64
    ensures { (result ≡ further_records flags n) × (result < 17179869184) }
{
    let w = n as u64;
    w + either(has_bit::<31>(flags), w) + either(has_bit::<30>(flags), 1)
}

// m and rest are small, so that the sum is exact once p is small too.
fn fits_in(p: u64, m: u64, rest: u64) -> bool
    requires { (m < 17179869184) × (rest < 1000) }
    ensures { result ≡ fits p m rest }
{
    p <= Place::LIMIT && p + 48 + 48 * m + rest <= Place::LIMIT
}

// Whether a chunk's bytes stay within what its head declares, and the last one's reach it.
fn fills(left: u32, sum: u64, bytes: u64, total: u64) -> bool
    ensures { result ≡ (nat_le (sum + bytes) total && (nat_lt 1 left || sum + bytes == total)) }
{
    if total < sum {
        false
    } else if 1 < left {
        bytes <= total - sum
    } else {
        total - sum == bytes
    }
}

fn check_header(tag: Tag, w: Words) -> Result<(), u32>
    ensures { result ≡ if_fine (header_fault tag w) tt }
{
    let size = joined(w.c, w.d);
    unless(same_hash(w.hash, tag.0), Refusal::TAG)?;
    unless(joined(w.a, w.b) == 2, Refusal::VERSION)?;
    unless((size == 0) | (size == 200), Refusal::FOOTER_SIZE)
}

fn check_bookend(w: Words) -> Result<(), u32>
    ensures { result ≡ if_fine (bookend_fault w) tt }
{
    unless(w.tail_zero(), Refusal::ALL_ONES)
}

fn check_segment(w: Words) -> Result<(), u32>
    ensures { result ≡ if_fine (segment_fault w) tt }
{
    unless(w.a == 0, Refusal::RESERVED)?;
    unless(w.c < w.d, Refusal::SEGMENT)
}

fn check_plain(w: Words) -> Result<(), u32>
    ensures { result ≡ if_fine (plain_fault w) tt }
{
    unless(w.tail_zero(), Refusal::RESERVED)
}

fn check_chunk(left: u32, sum: u64, total: u64, w: Words) -> Result<(), u32>
    ensures { result ≡ if_fine (chunk_fault left sum total w) tt }
{
    unless((w.c == 0) & (w.d == 0), Refusal::RESERVED)?;
    unless(w.a as u64 == sum, Refusal::CHUNK_SUM)?;
    unless(fills(left, sum, w.b as u64, total), Refusal::CHUNK_SUM)
}

impl Place {
    fn check_file_head(self, w: Words) -> Result<(), u32>
        ensures { result ≡ if_fine (file_head_fault self w) tt }
    {
        unless(
            (w.a % 1073741824 == 0) & (w.c == 0) & (w.d == 0),
            Refusal::RESERVED,
        )?;
        unless(
            (self.totals.files == 0) | same_31(w.a, self.flags),
            Refusal::BIT_31,
        )?;
        unless(
            fits_in(
                self.at.0,
                further_records(w.a, w.b),
                96 + either(self.footer, 200),
            ),
            Refusal::LIMIT,
        )
    }

    fn check_xorb_head(self, w: Words) -> Result<(), u32>
        ensures { result ≡ if_fine (xorb_head_fault self w) tt }
    {
        unless(w.a == 0, Refusal::RESERVED)?;
        unless(
            fits_in(self.at.0, w.b as u64, 48 + either(self.footer, 200)),
            Refusal::LIMIT,
        )?;
        unless((0 < w.b) | (w.c == 0), Refusal::CHUNK_SUM)
    }

    // Whether a record of 48 bytes is good, or else the number of its refusal. Only a place of other making holds a refusal with number 0.
    #[tactic(auto, unfolding(crate::specs::Rules::fault_of))]
    pub fn check(self, tag: Tag, w: Words) -> Result<(), u32>
        ensures { result ≡ if_fine (fault_of tag self w) tt }
    {
        match self.due {
            Due::Header => check_header(tag, w),
            Due::FileHead if is_ones(w.hash) => check_bookend(w),
            Due::FileHead => self.check_file_head(w),
            Due::Segment(_) => check_segment(w),
            Due::Verification(_) | Due::Metadata => check_plain(w),
            Due::XorbHead if is_ones(w.hash) => check_bookend(w),
            Due::XorbHead => self.check_xorb_head(w),
            Due::Chunk(left, sum, total) => check_chunk(left, sum, total, w),
            Due::Footer => Ok(()),
            Due::End => Err(Refusal::AFTER_END),
            Due::Refused(number) => unless(number == 0, number),
        }
    }

    // Whether a footer is good, or else the number of its refusal.
    pub fn check_footer(self, f: Footer) -> Result<(), u32>
        ensures { result ≡ if_fine (footer_fault self f) tt }
    {
        unless(f.version == 1, Refusal::FOOTER_VERSION)?;
        unless(f.files == 48, Refusal::OFFSET)?;
        unless(f.xorbs == self.offset.0, Refusal::OFFSET)?;
        unless(f.itself == self.at.0, Refusal::OFFSET)?;
        unless(f.clean, Refusal::RESERVED)
    }
}
