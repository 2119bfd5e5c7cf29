// The digits of a hash: 0 to 9, A to F, a to f.
ghost use Rattle.std.specs.Prelude.{◌≡◌};
ghost use Rattle.blobs.specs.Blobs.{are_digits};

// It looks at all bytes, many at a time, rather than stop at the first that is no digit.
pub fn are_digits(s: &[u8]) -> bool
    ensures { result ≡ are_digits s.now }
{
    s.iter()
        .fold(true, |digits, b| digits & b.is_ascii_hexdigit())
}
