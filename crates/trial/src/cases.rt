// Cases on an input, part by part: a part says its length first, in one byte or in four. A read that fails is taken for the end of the input.
ghost use Rattle.std.specs.Prelude.{◌≡◌, ◌<◌, ◌≤◌, length, IfOk};

use std::alloc::{AllocError, Global};
use std::io;
use std::io::{Read, Write};
use text::input::read_full;

// The bytes that a shard may have.
pub const SHARD_MOST: usize = 8192;

// Why a case is not told.
#[derive(Debug, Drop)]
pub enum CaseError {
    // The input has no further case.
    End,
    // It ends in a case, or a length is too large.
    Broken,
    // Memory ran out, or a write failed.
    Failed(io::Error),
}

impl From<io::Error> for CaseError {
    fn from(error: io::Error) -> CaseError {
        CaseError::Failed(error)
    }
}

impl From<AllocError> for CaseError {
    fn from(error: AllocError) -> CaseError {
        CaseError::Failed(io::Error::from(error))
    }
}

// An input that cases are read from, and where their parts are kept.
#[derive(Drop)]
pub struct Cases<R> {
    alloc: Global,
    input: R,
}

impl<R: Read> Cases<R> {
    pub fn new(alloc: Global, input: R) -> Cases<R> {
        Cases { alloc, input }
    }

    // The first part of a case, whose length is one byte.
    pub fn first(&mut self) -> Result<Vec<u8>, CaseError>
        ensures { IfOk result (λ part. length part.items < 256) }
    {
        let [length] = self.bytes::<1>().ok_or(CaseError::End)?;
        self.part(usize::from(length))
    }

    // A part whose length is one byte.
    pub fn short(&mut self) -> Result<Vec<u8>, CaseError>
        ensures { IfOk result (λ part. length part.items < 256) }
    {
        let [length] = self.bytes::<1>().ok_or(CaseError::Broken)?;
        self.part(usize::from(length))
    }

    // A part whose length is four bytes, and at most so many.
    pub fn long(&mut self, most: usize) -> Result<Vec<u8>, CaseError>
        ensures { IfOk result (λ part. length part.items ≤ most) }
    {
        let length = self
            .bytes()
            .map(u32::from_le_bytes)
            .ok_or(CaseError::Broken)? as usize;
        if length > most {
            return Err(CaseError::Broken);
        }
        self.part(length)
    }

    // A part of just so many bytes, whose length is one byte.
    pub fn exact<const N: usize>(&mut self) -> Result<[u8; N], CaseError> {
        let part = self.short()?;
        <[u8; N]>::try_from(part.as_slice()).map_err(|_| CaseError::Broken)
    }

    // The next N bytes; none where the input ends before.
    fn bytes<const N: usize>(&mut self) -> Option<[u8; N]> {
        let mut bytes = [0u8; N];
        match read_full(&mut self.input, &mut bytes) {
            Ok(size) if size == N => Some(bytes),
            _ => None,
        }
    }

    // A part of so many bytes.
    fn part(&mut self, size: usize) -> Result<Vec<u8>, CaseError>
        ensures { IfOk result (λ part. length part.items ≡ size) }
    {
        let mut part = vec![in self.alloc; 0u8; size]?;
        match read_full(&mut self.input, part.as_mut_slice()) {
            Ok(n) if n == size => Ok(part),
            _ => Err(CaseError::Broken),
        }
    }

    // Tells the cases, one after the other, until the input ends. A case that is not whole is said, and nothing is read after it.
    // A proved loop has to end, so the turns are counted, to a number that no run comes to.
    pub fn tell<W: Write, F: Fn(&mut Cases<R>, &mut W) -> Result<(), CaseError>>(
        &mut self,
        out: &mut W,
        one: F,
    ) -> io::Result<()>
        requires { F.IsAlwaysCallable one }
    {
        for _ in 0..u64::MAX {
            match one(self, out) {
                Ok(()) => {}
                Err(CaseError::End) => return Ok(()),
                Err(CaseError::Broken) => {
                    return writeln!(out, "the input ends in a case, or a length is too large");
                }
                Err(CaseError::Failed(error)) => return Err(error),
            }
        }
        Ok(())
    }
}
