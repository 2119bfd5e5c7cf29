// A shard written again: each record that a reader hands out is offered to a writer, and its bytes are compared with those that were read.
use crate::pieces::left_of;
use reader::Reader;
use rules::Record;
use writer::{Offer, Writer};

// What is written differs from what was read, after so many bytes that are the same.
#[derive(Clone, Copy)]
pub struct Differs {
    pub after: u64,
}

// A reader and the writer behind it; `same` is how many bytes were written as they were read.
#[derive(Clone, Copy)]
pub struct Copying {
    pub reader: Reader,
    pub writer: Writer,
    pub same: Result<u64, Differs>,
}

impl Copying {
    pub fn new(tag: &[u8]) -> Copying {
        Copying {
            reader: Reader::new(tag),
            writer: Writer::new(tag),
            same: Ok(0),
        }
    }

    // Copies all records in some bytes, which begin where a record does.
    pub fn copy(&mut self, bytes: &[u8]) {
        let mut rest = bytes;
        while let Some(left) = left_of(rest, self.step(rest)) {
            rest = left;
        }
    }

    // One call of the reader, and one of the writer for the record that it hands out; how many bytes it took.
    fn step(&mut self, bytes: &[u8]) -> usize {
        let step = self.reader.step(bytes);
        self.reader = step.reader;
        let taken = step.answer.taken;
        if let Ok(Some(found)) = step.answer.found {
            self.write(found, bytes, taken);
        }
        taken
    }

    // A record that was found in the first so many of some bytes is written and compared with them.
    fn write(&mut self, found: Record, bytes: &[u8], taken: usize) {
        let mut buf = [0u8; 200];
        let put = self.writer.put(Offer::from(found), &mut buf);
        self.writer = put.writer;
        let size = put.answer.unwrap_or(0);
        let alike = buf
            .iter()
            .take(size)
            .zip(bytes)
            .take_while(|(a, b)| *a == *b)
            .count();
        self.same = self.same.and_then(|before| {
            let after = before.wrapping_add(alike as u64);
            if size == taken && alike == taken {
                Ok(after)
            } else {
                Err(Differs { after })
            }
        });
    }

    // Whether all was written again, and writer and reader have the same verdict.
    pub fn is_same(&self) -> bool {
        self.same.is_ok() && self.reader.verdict() == self.writer.verdict()
    }
}
