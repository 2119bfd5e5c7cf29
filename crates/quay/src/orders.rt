// Two faults in one record, and the last one alone: the paper's order decides.
use crate::shard::{
    BIT_31, END, FALSE_TAG, Foot, ONES, begun, chunk_of, end_with_tail, file, header, header_by,
    plain, segment, xorb,
};
use crate::told::Quay;
use std::io;
use std::io::Write;
use words::Words;

// Entries that no shard has room for.
const MANY: u32 = 4294967295;

fn headers<W: Write>(quay: &mut Quay<W>) -> io::Result<()> {
    quay.case("header, 3 before 4 and 5", &[header(FALSE_TAG, 1, 100)])?;
    quay.case("header, 4 before 5", &[header_by(1, 100)])?;
    quay.case("header, 5", &[header_by(2, 100)])?;
    quay.case(
        "header, footer size 200 in the upper half",
        &[header_by(2, 858993459200)],
    )
}

// A second file under a first with bit 31.
fn second(flags: u32, entries: u32, reserved: u32) -> [Words; 3] {
    [begun(0), file(BIT_31, 0, 0), file(flags, entries, reserved)]
}

fn file_heads<W: Write>(quay: &mut Quay<W>) -> io::Result<()> {
    quay.case("file head, 8", &[begun(0), end_with_tail(1)])?;
    quay.case("file head, 7 before 9 and 6", &second(1, MANY, 0))?;
    quay.case("file head, 7 before 9", &second(0, 0, 1))?;
    quay.case("file head, 9 before 6", &second(0, MANY, 0))?;
    quay.case("file head, 6", &second(BIT_31, MANY, 0))
}

fn file_entries<W: Write>(quay: &mut Quay<W>) -> io::Result<()> {
    let one = file(0, 1, 0);
    let checked = file(0xc0000000, 1, 0);
    let good = segment(0, 0, 1);
    quay.case("segment, 7 before 10", &[begun(0), one, segment(1, 5, 5)])?;
    quay.case("segment, 7", &[begun(0), one, segment(1, 5, 6)])?;
    quay.case("verification, 7", &[begun(0), checked, good, plain(1)])?;
    quay.case(
        "metadata, 7",
        &[begun(0), checked, good, plain(0), plain(1)],
    )
}

fn xorb_heads<W: Write>(quay: &mut Quay<W>) -> io::Result<()> {
    quay.case("xorb head, 8", &[begun(0), END, end_with_tail(1)])?;
    quay.case("xorb head, 7 before 6", &[begun(0), END, xorb(1, MANY, 0)])?;
    quay.case("xorb head, 7 before 11", &[begun(0), END, xorb(1, 0, 1)])?;
    quay.case("xorb head, 6", &[begun(0), END, xorb(0, MANY, 0)])?;
    quay.case("xorb head, 11", &[begun(0), END, xorb(0, 0, 1)])
}

// A chunk under a head of one chunk and 10 bytes.
fn only(chunk: Words) -> [Words; 4] {
    [begun(0), END, xorb(0, 1, 10), chunk]
}

fn chunks<W: Write>(quay: &mut Quay<W>) -> io::Result<()> {
    quay.case("chunk, 7 before 11", &only(chunk_of(ONES, 1, 10, 1)))?;
    quay.case("chunk, 7", &only(chunk_of(ONES, 0, 10, 1)))?;
    quay.case("chunk, 11", &only(chunk_of(ONES, 1, 10, 0)))
}

// The empty shard with this footer.
fn footer<W: Write>(quay: &mut Quay<W>, name: &str, foot: Foot) -> io::Result<()> {
    quay.case_with(name, &[begun(200), END, END], foot)
}

fn footers<W: Write>(quay: &mut Quay<W>) -> io::Result<()> {
    let wrong = Foot {
        version: 1,
        files: 48,
        xorbs: 96,
        itself: 144,
        reserved: 1,
    };
    footer(
        quay,
        "footer, 12 before 13 and 7",
        Foot {
            version: 2,
            files: 0,
            xorbs: 0,
            itself: 0,
            reserved: 1,
        },
    )?;
    footer(
        quay,
        "footer, 13 before 7, file offset",
        Foot { files: 0, ..wrong },
    )?;
    footer(
        quay,
        "footer, 13 before 7, xorb offset",
        Foot { xorbs: 0, ..wrong },
    )?;
    footer(
        quay,
        "footer, 13 before 7, footer offset",
        Foot { itself: 0, ..wrong },
    )?;
    footer(quay, "footer, 7", wrong)
}

pub fn run<W: Write>(quay: &mut Quay<W>) -> io::Result<()> {
    headers(quay)?;
    file_heads(quay)?;
    file_entries(quay)?;
    xorb_heads(quay)?;
    chunks(quay)?;
    footers(quay)
}
