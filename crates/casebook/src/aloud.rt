// A shard read aloud: in pieces, with a line for each record that the reader hands out.
use reader::Reader;
use rules::{Kind, Record};
use std::io::Write;
use std::{fmt, io};
use trial::pieces::{Pieces, left_of};

// A hash as it is told: four numbers.
#[derive(Drop)]
pub struct Hash(pub [u64; 4]);

impl fmt::Display for Hash {
    fn fmt<W: fmt::Write>(&self, f: &mut fmt::Formatter<W>) -> fmt::Result {
        let Hash([a, b, c, d]) = self;
        write!(f, "{a} {b} {c} {d}")
    }
}

// A record as it is told: kind, position, offset, hash and the four numbers.
#[derive(Drop)]
struct Line(Record);

impl fmt::Display for Line {
    fn fmt<W: fmt::Write>(&self, f: &mut fmt::Formatter<W>) -> fmt::Result {
        let Line(record) = self;
        let words = record.words;
        write!(
            f,
            "{} {} {} {} {} {} {} {}",
            u32::from(record.kind),
            record.at.0,
            record.offset.0,
            Hash(words.hash),
            words.a,
            words.b,
            words.c,
            words.d,
        )
    }
}

// A reader, and the hashes of the last chunk and the last file head that it handed out, 0 before the first.
#[derive(Clone, Copy)]
pub struct Heard {
    pub reader: Reader,
    pub chunk: [u64; 4],
    pub file: [u64; 4],
}

impl Heard {
    fn new(tag: &[u8]) -> Heard {
        Heard {
            reader: Reader::new(tag),
            chunk: [0; 4],
            file: [0; 4],
        }
    }

    // One call of the reader; how many bytes it took.
    fn call<W: Write>(&mut self, out: &mut W, bytes: &[u8]) -> io::Result<usize> {
        let step = self.reader.step(bytes);
        self.reader = step.reader;
        if let Ok(Some(record)) = step.answer.found {
            writeln!(out, "{}", Line(record))?;
            self.note(record);
        }
        Ok(step.answer.taken)
    }

    // The hash of a chunk or of a file head is the last one.
    fn note(&mut self, record: Record) {
        let hash = record.words.hash;
        match record.kind {
            Kind::Chunk => self.chunk = hash,
            Kind::FileHead => self.file = hash,
            _ => {}
        }
    }

    // A piece, offered until it is used up or refused. An empty one is offered once.
    fn piece<W: Write>(&mut self, out: &mut W, bytes: &[u8]) -> io::Result<()> {
        let mut rest = bytes;
        while let Some(left) = left_of(rest, self.call(out, rest)?) {
            rest = left;
        }
        Ok(())
    }

    // A shard in pieces of these sizes, over and over, or in one piece where there are none. Before a piece of size 0, which has a byte, comes an empty one.
    pub fn in_pieces<W: Write>(
        out: &mut W,
        tag: &[u8],
        shard: &[u8],
        sizes: &[u8],
    ) -> io::Result<Heard> {
        let mut heard = Heard::new(tag);
        let mut wanted = sizes.iter().cycle();
        for piece in Pieces::new(shard, sizes) {
            if wanted.next().copied() == Some(0) {
                heard.piece(out, &[])?;
            }
            heard.piece(out, piece)?;
        }
        Ok(heard)
    }
}
