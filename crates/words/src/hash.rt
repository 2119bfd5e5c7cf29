// Hashes, by value as four numbers of 64 bits.
ghost use Rattle.std.specs.Prelude.{◌≡◌};
ghost use Rattle.words.specs.Record.{hash_at, spell_hash, same_hash, is_ones};

use crate::Stored;

impl Stored for [u64; 4] {
    ghost size = { 32 };

    ghost value_at = { hash_at };

    ghost spelled = { spell_hash };

    fn read(s: &[u8], at: usize) -> [u64; 4] {
        [
            u64::read(s, at),
            u64::read(s, at + 8),
            u64::read(s, at + 16),
            u64::read(s, at + 24),
        ]
    }

    fn write(self, buf: &mut [u8], at: usize) {
        self[0].write(buf, at);
        self[1].write(buf, at + 8);
        self[2].write(buf, at + 16);
        self[3].write(buf, at + 24);
    }
}

pub fn same_hash(a: [u64; 4], b: [u64; 4]) -> bool
    ensures { result ≡ same_hash a b }
{
    a == b
}

pub fn is_ones(h: [u64; 4]) -> bool
    ensures { result ≡ is_ones h }
{
    same_hash(h, [u64::MAX; 4])
}
