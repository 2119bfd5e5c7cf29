// Numbers at a position, the least significant byte first; and the halves of a number of 64 bits.
ghost use Rattle.std.specs.Prelude.{◌≡◌, ◌≤◌, ◌+◌, length, take, drop, replicate};
ghost use Rattle.words.specs.Le.{le_at, puts, spell, zeros_at, long, low, high};

use crate::Stored;

// The N bytes from a position on.
fn bytes_at<const N: usize>(s: &[u8], at: usize) -> [u8; N]
    requires { at + N ≤ length s.now }
    ensures { result ≡ take N (drop at s.now) }
{
    let mut bytes = [0; N];
    bytes.copy_from_slice(&s[at..at + N]);
    bytes
}

// N bytes, stored from a position on.
fn put_bytes<const N: usize>(buf: &mut [u8], at: usize, bytes: [u8; N])
    requires { at + N ≤ length buf.old }
    ensures { buf.new ≡ puts buf.old at bytes.entry }
{
    buf[at..at + N].copy_from_slice(&bytes);
}

impl Stored for u16 {
    ghost size = { 2 };

    ghost value_at = { le_at 2 };

    ghost spelled = { spell 2 };

    fn read(s: &[u8], at: usize) -> u16 {
        u16::from_le_bytes(bytes_at(s, at))
    }

    fn write(self, buf: &mut [u8], at: usize) {
        put_bytes(buf, at, self.to_le_bytes());
    }
}

impl Stored for u32 {
    ghost size = { 4 };

    ghost value_at = { le_at 4 };

    ghost spelled = { spell 4 };

    fn read(s: &[u8], at: usize) -> u32 {
        u32::from_le_bytes(bytes_at(s, at))
    }

    fn write(self, buf: &mut [u8], at: usize) {
        put_bytes(buf, at, self.to_le_bytes());
    }
}

impl Stored for u64 {
    ghost size = { 8 };

    ghost value_at = { le_at 8 };

    ghost spelled = { spell 8 };

    fn read(s: &[u8], at: usize) -> u64 {
        u64::from_le_bytes(bytes_at(s, at))
    }

    fn write(self, buf: &mut [u8], at: usize) {
        put_bytes(buf, at, self.to_le_bytes());
    }
}

// It looks at all bytes, many at a time, rather than stop at the first that is not 0.
pub fn zeros_at(s: &[u8], at: usize, n: usize) -> bool
    requires { at + n ≤ length s.now }
    ensures { result ≡ zeros_at n s.now at }
{
    let mut zeros = true;
    for byte in &s[at..at + n] {
        zeros &= *byte == 0;
    }
    zeros
}

pub fn put_zeros(buf: &mut [u8], at: usize, n: usize)
    requires { at + n ≤ length buf.old }
    ensures { buf.new ≡ puts buf.old at (replicate n 0) }
{
    buf[at..at + n].fill(0);
}

// A number of 64 bits from its halves, and its halves.
pub fn joined(low: u32, high: u32) -> u64
    ensures { result ≡ long low high }
{
    low as u64 + 4294967296 * (high as u64)
}

pub fn low_half(n: u64) -> u32
    ensures { result ≡ low n }
{
    (n % 4294967296) as u32
}

pub fn high_half(n: u64) -> u32
    ensures { result ≡ high n }
{
    (n / 4294967296) as u32
}
