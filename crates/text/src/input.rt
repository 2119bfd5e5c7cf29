// Reading until a buffer is full, the input ends or a read fails.
ghost use Rattle.std.specs.Prelude.{◌<◌, ◌≤◌, length, take, IfOk, IfErr};
ghost use Rattle.std.specs.Io.KnownBytes.{Consumes, IsAtEnd};
ghost use Rattle.text.specs.Input.{count_of};

use std::error::Error;
use std::io::Read;
use std::{fmt, io};

// A read failed, after so many bytes were read. A read that a signal interrupts has failed.
#[derive(Debug, Drop)]
pub struct ReadFailed {
    pub after: u64,
    pub error: io::Error,
}

// As `read failed after 48`, with no line end.
impl fmt::Display for ReadFailed {
    ghost use Rattle.std.specs.Prelude.{Some};
    ghost use Rattle.text.specs.Input.{failure_text};

    ghost output = { λ e. Some (failure_text e) };

    fn fmt<W: fmt::Write>(&self, f: &mut fmt::Formatter<W>) -> fmt::Result {
        write!(f, "read failed after {}", self.after)
    }
}

impl Error for ReadFailed {}

// How many bytes were read to the start of a buffer. Where these don't fill it, the input ended.
pub fn read_full<R: Read>(input: &mut R, buf: &mut [u8]) -> Result<usize, ReadFailed>
    ensures within { count_of result ≤ length buf.old }
    ensures bytes { Consumes (R.remaining input.old) (R.remaining input.new) (take (count_of result) buf.new) }
    ensures end { IfOk result (λ n. n < length buf.old → IsAtEnd (R.remaining input.new)) }
    ensures err { IfErr result (λ e. e.after < length buf.old) }
{
    let mut size = 0;
    while size < buf.len() {
        match input.read(&mut buf[size..]) {
            Ok(0) => return Ok(size),
            Ok(n) => size += n,
            Err(error) => {
                return Err(ReadFailed {
                    after: size as u64,
                    error,
                });
            }
        }
    }
    Ok(size)
}
