// A footer of 200 bytes, as numbers.
ghost use Rattle.std.specs.Prelude.{◌≡◌, ◌+◌, ◌≤◌, length};
ghost use Rattle.words.specs.Le.{puts};
ghost use Rattle.words.specs.Record.{footer_at, spell_footer};

use crate::number::{put_zeros, zeros_at};
use crate::{Footer, Stored, Words};

impl Footer {
    pub fn read(s: &[u8], at: usize) -> Footer
        requires { at + 200 ≤ length s.now }
        ensures { result ≡ footer_at s.now at }
    {
        Footer {
            version: u64::read(s, at),
            files: u64::read(s, at + 8),
            xorbs: u64::read(s, at + 16),
            itself: u64::read(s, at + 192),
            words: Words::read(s, at + 72),
            clean: zeros_at(s, at + 24, 48) & zeros_at(s, at + 120, 72),
        }
    }
}

// The footer whose xorb offset and footer offset are these, at the start of a buffer.
pub fn put_footer(buf: &mut [u8], xorbs: u64, itself: u64, w: Words)
    requires { 200 ≤ length buf.old }
    ensures { buf.new ≡ puts buf.old 0 (spell_footer xorbs itself w) }
{
    1u64.write(buf, 0);
    48u64.write(buf, 8);
    xorbs.write(buf, 16);
    put_zeros(buf, 24, 48);
    w.write(buf, 72);
    put_zeros(buf, 120, 72);
    itself.write(buf, 192);
}
