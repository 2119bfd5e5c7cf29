// A record of 48 bytes, as numbers.
ghost use Rattle.std.specs.Prelude.{◌≡◌};
ghost use Rattle.words.specs.Record.{words_at, spell_words, tail_zero};

use crate::{Stored, Words};

impl Stored for Words {
    ghost size = { 48 };

    ghost value_at = { words_at };

    ghost spelled = { spell_words };

    fn read(s: &[u8], at: usize) -> Words {
        Words {
            hash: <[u64; 4]>::read(s, at),
            a: u32::read(s, at + 32),
            b: u32::read(s, at + 36),
            c: u32::read(s, at + 40),
            d: u32::read(s, at + 44),
        }
    }

    fn write(self, buf: &mut [u8], at: usize) {
        self.hash.write(buf, at);
        self.a.write(buf, at + 32);
        self.b.write(buf, at + 36);
        self.c.write(buf, at + 40);
        self.d.write(buf, at + 44);
    }
}

impl Words {
    // Whether the sixteen bytes behind the hash are 0.
    pub fn tail_zero(self) -> bool
        ensures { result ≡ tail_zero self }
    {
        (self.a == 0) & (self.b == 0) & (self.c == 0) & (self.d == 0)
    }
}
