// A part of a slice, stored at a position.
ghost use Rattle.std.specs.Prelude.{◌≡◌, ◌+◌, ◌≤◌, length};
ghost use Rattle.words.specs.Le.{puts};

// Byte by byte, of which the compiler makes a loop that moves many at a time: `copy_from_slice`, of no known length, would need C's `memmove` from outside.
pub fn put_part(buf: &mut [u8], at: usize, part: &[u8])
    requires { at + length part.now ≤ length buf.old }
    ensures { buf.new ≡ puts buf.old at part.now }
{
    for i in 0..part.len() {
        buf[at + i] = part[i];
    }
}
