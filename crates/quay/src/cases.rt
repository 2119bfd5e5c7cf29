// The paper's examples.
use crate::shard::{
    BIT_31, END, FALSE_TAG, Foot, ONES, TAG, begun, chunk, chunk_of, file, footed, header, plain,
    segment, shard, xorb,
};
use crate::told::Quay;
use std::io;
use std::io::Write;
use words::Words;

// The footer of the empty shard, with this xorb offset.
fn foot(xorbs: u64) -> Foot {
    Foot {
        version: 1,
        files: 48,
        xorbs,
        itself: 144,
        reserved: 0,
    }
}

fn empty(footer_size: u64) -> [Words; 3] {
    [begun(footer_size), END, END]
}

fn empty_ones<W: Write>(quay: &mut Quay<W>) -> io::Result<()> {
    quay.case("empty input", &[])?;
    quay.case("header alone", &[begun(0)])?;
    quay.case("header and two bookends", &empty(0))?;
    let mut longer = shard(quay.alloc, &empty(0))?;
    longer.push(0)?;
    quay.told("one byte more", &TAG, &longer)?;
    quay.case_with("with a footer", &empty(200), foot(96))?;
    quay.case_with("xorb offset 48", &empty(200), foot(48))?;
    quay.case("a footer due and none there", &empty(200))?;
    let mut shorter = footed(quay.alloc, &empty(200), foot(96))?;
    shorter.truncate(343);
    quay.told("a footer of 199 bytes", &TAG, &shorter)
}

fn files<W: Write>(quay: &mut Quay<W>) -> io::Result<()> {
    let one = file(0, 1, 0);
    quay.case("segment 5 to 5", &[begun(0), one, segment(0, 5, 5)])?;
    quay.case("segment 5 to 6", &[begun(0), one, segment(0, 5, 6)])?;
    quay.case(
        "a file of one segment",
        &[begun(0), one, segment(0, 5, 6), END, END],
    )?;
    quay.case("89478486 entries", &[begun(0), file(0, 89478486, 0)])?;
    quay.case(
        "bit 31 only in the first of two empty files",
        &[begun(0), file(BIT_31, 0, 0), file(0, 0, 0)],
    )?;
    quay.case(
        "bit 31 in both",
        &[begun(0), file(BIT_31, 0, 0), file(BIT_31, 0, 0), END, END],
    )?;
    quay.case(
        "bits 31 and 30, one segment",
        &[
            begun(0),
            file(0xc0000000, 1, 0),
            segment(0, 0, 1),
            plain(0),
            plain(0),
            END,
            END,
        ],
    )
}

fn two_chunks(second: u32) -> [Words; 6] {
    [
        begun(0),
        END,
        xorb(0, 2, 30),
        chunk(0, 10),
        chunk(second, 20),
        END,
    ]
}

fn xorbs<W: Write>(quay: &mut Quay<W>) -> io::Result<()> {
    quay.case("two chunks", &two_chunks(10))?;
    quay.case("second start 11", &two_chunks(11))?;
    quay.case(
        "chunk of 4294967295 under 0 bytes",
        &[begun(0), END, xorb(0, 1, 0), chunk(0, 4294967295)],
    )?;
    quay.case(
        "chunk of 4294967295",
        &[
            begun(0),
            END,
            xorb(0, 1, 4294967295),
            chunk(0, 4294967295),
            END,
        ],
    )?;
    quay.case(
        "chunks short of the head's bytes",
        &[begun(0), END, xorb(0, 1, 11), chunk(0, 10)],
    )?;
    quay.case(
        "no chunks and no bytes",
        &[begun(0), END, xorb(0, 0, 0), END],
    )?;
    quay.case("no chunks and a byte", &[begun(0), END, xorb(0, 0, 1), END])?;
    quay.case(
        "chunk with the hash of all ones",
        &[begun(0), END, xorb(0, 1, 10), chunk_of(ONES, 0, 10, 0), END],
    )
}

fn tags<W: Write>(quay: &mut Quay<W>) -> io::Result<()> {
    let s = header(FALSE_TAG, 2, 0);
    let mut shorter = shard(quay.alloc, &[s])?;
    shorter.truncate(47);
    quay.told("47 bytes with a false tag", &TAG, &shorter)?;
    quay.case("48 bytes with a false tag", &[s])?;
    let bytes = shard(quay.alloc, &empty(0))?;
    quay.told("a tag argument of 31 bytes", &TAG[..31], &bytes)?;
    quay.told("an empty tag argument and no input", &[], &[])
}

pub fn run<W: Write>(quay: &mut Quay<W>) -> io::Result<()> {
    empty_ones(quay)?;
    files(quay)?;
    xorbs(quay)?;
    tags(quay)
}
