// Large shards: made by a writer and fed to a reader record by record, so that no buffer holds one. Each record that the reader hands out
// is written again by a second writer.
use crate::shard::{END, TAG, begun, xorb};
use crate::told::{Quay, again};
use std::io;
use std::io::Write;
use trial::again::Copying;
use trial::told::Told;
use writer::{Fields, Offer, Writer};

#[derive(Drop)]
struct Making {
    writer: Writer,
    copying: Copying,
}

impl Making {
    fn new() -> Making {
        Making {
            writer: Writer::new(&TAG),
            copying: Copying::new(&TAG),
        }
    }

    // One record; what the writer refuses is not fed, so that the verdict shows it.
    fn put(&mut self, fields: Fields, n: u64) {
        let mut buf = [0u8; 200];
        let hash = [n, 0, 0, 1];
        let put = self.writer.put(Offer { hash, fields }, &mut buf);
        self.writer = put.writer;
        if let Ok(size) = put.answer
            && let Some(record) = buf.get(..size)
        {
            self.copying.copy(record);
        }
    }
}

// One xorb with so many chunks of one byte, no files: read and written again.
fn made(footer_size: u64, chunks: u32) -> Copying {
    let mut making = Making::new();
    making.put(Fields::Header { footer_size }, 0);
    making.put(Fields::SectionEnd, 0);
    let head = Fields::XorbHead {
        flags: 0,
        entries: chunks,
        bytes: chunks,
        disk: chunks,
    };
    making.put(head, 7);
    for start in 0..chunks {
        making.put(Fields::Chunk { start, bytes: 1 }, u64::from(start));
    }
    making.put(Fields::SectionEnd, 0);
    if footer_size != 0 {
        let footer = Fields::Footer {
            created: 1,
            expiry: 2,
        };
        making.put(footer, 8);
    }
    making.copying
}

// A large shard that is accepted.
fn fits<W: Write>(quay: &mut Quay<W>, footer_size: u64, chunks: u32) -> io::Result<()> {
    let copying = made(footer_size, chunks);
    let footer = if footer_size == 0 {
        ""
    } else {
        " and a footer"
    };
    let length = Told(copying.reader.verdict().map(|summary| summary.length));
    writeln!(
        quay.out,
        "{chunks} chunks{footer}: {length}{}",
        again(&copying)
    )
}

// The head of one that is refused, which no writer makes.
fn too_many<W: Write>(
    quay: &mut Quay<W>,
    name: &str,
    footer_size: u64,
    chunks: u32,
) -> io::Result<()> {
    quay.case(name, &[begun(footer_size), END, xorb(0, chunks, chunks)])
}

pub fn run<W: Write>(quay: &mut Quay<W>) -> io::Result<()> {
    fits(quay, 0, 349521)?;
    too_many(quay, "349522 chunks", 0, 349522)?;
    fits(quay, 200, 349517)?;
    too_many(quay, "349518 chunks and a footer", 200, 349518)?;
    fits(quay, 0, 32767)?;
    fits(quay, 0, 32768)
}
